// The window four bytes at a time: a half of a register by the rule for the whole one.
// `width, offset, value` stay parameters, as in window.rt; `half` goes with the offset of its whole register.
ghost use Rattle.std.specs.Prelude.{◌≡◌, ◌^◌, ◌<◌, ◌≤◌, true, ◌&&◌, if◌then◌else◌, ◌≢◌, nat_eq};
ghost use Rattle.timer.specs.Registers.{half_compared_of};
ghost use Rattle.timers.specs.State.{at, with_timer};
ghost use Rattle.timers.specs.Registers.{aligned, fits, numbered, of_timer, is_comparator, half_at, whole_at, shown_of, stored_of};
ghost use Rattle.timers.specs.Inner.{beside_of, filled_by};

use crate::Timers;
use timer::Half;

impl Timers {
    // Which half a 4-byte access names.
    fn half_at(offset: u64) -> Half
        ensures { result ≡ half_at offset }
    {
        if offset % Timers::WIDTH == 0 {
            Half::Low
        } else {
            Half::High
        }
    }

    // Where the register stands that an offset lies in.
    fn whole_at(offset: u64) -> u64
        ensures { result ≡ whole_at offset }
    {
        offset - offset % Timers::WIDTH
    }

    // What an access that is allowed reads.
    #[tactic(auto, unfolding(crate::specs::Registers::shown_of), using(crate::proofs::Stored::whole_here))]
    pub(crate) fn shown(self, width: u64, offset: u64) -> u64
        requires { aligned width offset ≡ true }
        ensures { result ≡ shown_of self width offset }
    {
        let whole = self.register(Timers::whole_at(offset));
        if width == Timers::WIDTH {
            return whole;
        }
        Timers::half_at(offset).of(whole)
    }

    // What stands beside a half that is written: at the counter and the configurations what they read. No comparator
    // comes here, and what ignores writes may show anything. `register` would do, but once it is called from here too,
    // the compiler no longer works it into the reads, and these are slower.
    #[tactic(auto, unfolding(crate::specs::Inner::beside_of))]
    fn beside(self, offset: u64) -> u64
        ensures { result ≡ beside_of self offset }
    {
        match offset {
            Timers::COUNTER => self.counter,
            Timers::CONFIGURATION => u64::from(self.enabled == 1),
            Timers::TIMERS.. => {
                let m = ((offset - Timers::TIMERS) / Timers::STEP) as usize;
                self.at(m).configuration(self.mask_at(m))
            }
            _ => 0,
        }
    }

    // The number that a half write gives to the rule for the whole register.
    fn filled(self, half: Half, offset: u64, value: u32) -> u64
        ensures { result ≡ filled_by self half offset value }
    {
        if offset == Timers::STATUS {
            return half.replaced(0, value);
        }
        half.replaced(self.beside(offset), value)
    }

    // The number that a write of either width gives to that rule.
    fn given(self, width: u64, half: Half, offset: u64, value: u64) -> u64
        requires { (width ≢ 8) → value < 2 ^ 32 }
        ensures { result ≡ (if nat_eq width 8 then value else filled_by self half offset value) }
    {
        if width == Timers::WIDTH {
            return value;
        }
        self.filled(half, offset, value as u32)
    }

    // The offset is that of a timer's comparator.
    fn is_comparator(offset: u64) -> bool
        ensures { result ≡ (of_timer offset && is_comparator offset) }
    {
        ((Timers::TIMERS <= offset) & (offset < Timers::TIMERS_END))
            & (offset % Timers::STEP == Timers::COMPARATOR)
    }

    // A write to a half of a timer's comparator. Each timer is asked, as for the whole.
    fn half_compared(self, half: Half, offset: u64, value: u32) -> Timers
        requires { 0x100 ≤ offset }
        ensures { result ≡ with_timer self (numbered offset) (half_compared_of (at self (numbered offset)) half value) }
    {
        let n = (offset - Timers::TIMERS) / Timers::STEP;
        self.each(|m, _, t| {
            if u64::from(m) == n {
                t.compared_half(half, value)
            } else {
                t
            }
        })
    }

    // A write that is allowed. `written` stands here once for both widths, so that it stays a part of the call.
    pub(crate) fn stored(self, width: u64, offset: u64, value: u64) -> Timers
        requires is_aligned { aligned width offset ≡ true }
        requires is_fitting { fits width value ≡ true }
        ensures { result ≡ stored_of self width offset value }
    {
        let half = Timers::half_at(offset);
        let whole = Timers::whole_at(offset);
        if (width != Timers::WIDTH) & Timers::is_comparator(whole) {
            return self.half_compared(half, whole, value as u32);
        }
        self.written(whole, self.given(width, half, whole, value))
    }
}

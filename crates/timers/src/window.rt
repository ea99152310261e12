// The window: registers, and the calls on them.
// `width, offset, value` stay parameters: `read_of` and `write_of` take them so, in the paper's order.
ghost use Rattle.std.specs.Prelude.{◌≡◌, ◌≤◌, if◌then◌else◌};
ghost use Rattle.timer.specs.Registers.{bit};
ghost use Rattle.timers.specs.State.{is_enabled, with_counter, with_enabled, with_timers};
ghost use Rattle.timers.specs.Registers.{aligned, fits, cleared_by, status_of, capabilities_of, register_of, timer_written, written_of};
ghost use Rattle.timers.specs.Inner.{tested};
ghost use Rattle.timers.specs.Call.{refused, reading_of, writing_of, read_of, write_of, advance_of};

use crate::{Timers, Turn, put, timer_register};
use answers::{Answer, Refusal};

impl Timers {
    // ---- registers

    // What the capability register reads.
    fn capabilities(self) -> u64
        ensures { result ≡ capabilities_of self }
    {
        let vendor = (u64::from(self.vendor) & Timers::VENDOR_MASK) << Timers::VENDOR;
        (u64::from(self.tick_period) << Timers::TICK_PERIOD) | (vendor | Timers::CAPABLE)
    }

    // What the status register reads.
    fn status(self) -> u64
        ensures { result ≡ status_of self }
    {
        // Written out for each timer: as a `for` with `|=` over the array, or as its fold, not proved.
        let [t0, t1, t2] = self.timer;
        timer::placed(t2.status, 2) | (timer::placed(t1.status, 1) | timer::placed(t0.status, 0))
    }

    // What an offset in the window reads.
    #[tactic(auto, unfolding(crate::specs::Registers::register_of))]
    pub(crate) fn register(self, offset: u64) -> u64
        ensures { result ≡ register_of self offset }
    {
        match offset {
            Timers::CAPABILITIES => self.capabilities(),
            Timers::CONFIGURATION => u64::from(self.enabled == 1),
            Timers::STATUS => self.status(),
            Timers::COUNTER => self.counter,
            Timers::TIMERS..Timers::TIMERS_END => {
                let m = ((offset - Timers::TIMERS) / Timers::STEP) as usize;
                timer_register(self.mask_at(m), self.at(m), offset)
            }
            _ => 0,
        }
    }

    // A write to the status register.
    fn cleared(self, value: u64) -> Timers
        ensures { result ≡ with_timers self (cleared_by value self) }
    {
        self.each(|m, _, t| if timer::bit(value, m) == 1 {
            t.cleared()
        } else {
            t
        })
    }

    // A write to the main counter.
    fn set_counter(self, value: u64) -> Timers
        ensures { result ≡ (if is_enabled self then self else with_counter self value) }
    {
        if self.enabled == 1 {
            return self;
        }
        // A copy that is written to, here and below: with `..self` each write is a twentieth slower.
        let mut next = self;
        next.counter = value;
        next
    }

    // A write to the enable bit.
    fn set_enabled(self, value: u64) -> Timers
        ensures { result ≡ with_enabled self (bit 0 value) }
    {
        let mut next = self;
        next.enabled = u32::from(timer::bit(value, Timers::ENABLE));
        next
    }

    // A write to an offset of the timers' registers. Each timer is asked whether it is the one. As a closure for
    // `each` it is no longer a part of the write, which then takes half as long again.
    fn timer_written(self, offset: u64, value: u64) -> Timers
        requires { 0x100 ≤ offset }
        ensures { result ≡ timer_written self offset value }
    {
        let n = (offset - Timers::TIMERS) / Timers::STEP;
        let place = offset % Timers::STEP;
        let [t0, t1, t2] = self.timer;
        let [k0, k1, k2] = self.masks;
        let x0 = put(k0, t0, n == 0, place, value);
        let x1 = put(k1, t1, n == 1, place, value);
        let x2 = put(k2, t2, n == 2, place, value);
        Timers {
            timer: [x0, x1, x2],
            ..self
        }
    }

    // A write to an offset in the window.
    #[tactic(auto, unfolding(crate::specs::Registers::written_of))]
    pub(crate) fn written(self, offset: u64, value: u64) -> Timers
        ensures { result ≡ written_of self offset value }
    {
        // Ifs that return: as one match, or with both ends in one test, every write is a twelfth slower.
        if offset == Timers::CONFIGURATION {
            return self.set_enabled(value);
        }
        if offset == Timers::STATUS {
            return self.cleared(value);
        }
        if offset == Timers::COUNTER {
            return self.set_counter(value);
        }
        if offset < Timers::TIMERS {
            return self;
        }
        if Timers::TIMERS_END <= offset {
            return self;
        }
        self.timer_written(offset, value)
    }

    // ---- calls on a state that is known to be well formed

    fn refused(self, refusal: Refusal) -> Turn
        ensures { result ≡ refused self refusal }
    {
        Turn {
            timers: self,
            answer: Answer::Refused(refusal),
        }
    }

    // Width 4 or 8, offset a multiple of the width.
    fn aligned(width: u64, offset: u64) -> bool
        ensures { result ≡ aligned width offset }
    {
        if width == Timers::WIDTH {
            return offset % Timers::WIDTH == 0;
        }
        (width == Timers::HALF_WIDTH) & (offset % Timers::HALF_WIDTH == 0)
    }

    // A 4-byte write's value is below 2^32.
    fn fits(width: u64, value: u64) -> bool
        ensures { result ≡ fits width value }
    {
        (width != Timers::HALF_WIDTH) | (value < Timers::VALUE_END)
    }

    // What a read is tested for: its width and alignment, then its offset. A write is tested for the same, but by ifs.
    fn accessed(width: u64, offset: u64) -> Result<(), Refusal>
        ensures { result ≡ tested width offset }
    {
        if !Timers::aligned(width, offset) {
            return Err(Refusal::Width);
        }
        if Timers::END <= offset {
            return Err(Refusal::Offset);
        }
        Ok(())
    }

    /// A read of a state that is well formed.
    #[tactic(auto, unfolding(crate::specs::Call::reading_of))]
    pub fn reading(self, width: u64, offset: u64) -> Turn
        ensures { result ≡ reading_of self width offset }
    {
        match Timers::accessed(width, offset) {
            Ok(()) => Turn {
                timers: self,
                answer: Answer::Value(self.shown(width, offset)),
            },
            Err(refusal) => self.refused(refusal),
        }
    }

    /// A write to a state that is well formed.
    #[tactic(auto, unfolding(crate::specs::Call::writing_of))]
    pub fn writing(self, width: u64, offset: u64, value: u64) -> Turn
        ensures { result ≡ writing_of self width offset value }
    {
        // Ifs that return: as one Result of `accessed`, a write through the monitor's entry takes a fiftieth more
        // instructions.
        if !Timers::aligned(width, offset) {
            return self.refused(Refusal::Width);
        }
        if Timers::END <= offset {
            return self.refused(Refusal::Offset);
        }
        if !Timers::fits(width, value) {
            return self.refused(Refusal::Value);
        }
        Turn {
            timers: self.stored(width, offset, value),
            answer: Answer::Done,
        }
    }

    // ---- calls on any state: 5 is tested first. An `if` each: as a Result the test would need a `match` in its
    // place, and a closure, as in the controller's `served`, would serve two of the three: an advance builds on what
    // was tested.

    /// A read.
    #[tactic(auto, unfolding(crate::specs::Call::read_of))]
    pub fn read(self, width: u64, offset: u64) -> Turn
        ensures { result ≡ read_of self width offset }
    {
        if !self.well_formed() {
            return self.refused(Refusal::State);
        }
        self.reading(width, offset)
    }

    /// A write.
    #[tactic(auto, unfolding(crate::specs::Call::write_of))]
    pub fn write(self, width: u64, offset: u64, value: u64) -> Turn
        ensures { result ≡ write_of self width offset value }
    {
        if !self.well_formed() {
            return self.refused(Refusal::State);
        }
        self.writing(width, offset, value)
    }

    /// So many ticks.
    pub fn advance(self, ticks: u32) -> Turn
        ensures { result ≡ advance_of self ticks }
    {
        if !self.well_formed() {
            return self.refused(Refusal::State);
        }
        let r = self.ran(ticks);
        let timers = r.timers;
        let f = r.fired;
        Turn {
            timers,
            answer: Answer::Fired(f[0], f[1], f[2]),
        }
    }
}

// The timer block: its settings, three timers and their counter, by value.
#![tactic(auto)]

mod in_halves;
mod tick;
mod window;

ghost use Rattle.std.specs.Prelude.{◌≡◌};
ghost use Rattle.timers.specs.State.{at, mask_at, with_timers, reset_to, reset_timers};
ghost use Rattle.timers.specs.Formed.{settings_fit, well_formed};
ghost use Rattle.timers.specs.Registers.{timer_register};
ghost use Rattle.timers.specs.Inner.{timer_put};

use answers::Answer;
use settings::Settings;
pub use timer::Timer;

// `enabled` is 0 or 1, the vendor has 16 bits: any other value is a state that is not well formed. No byte of it is
// padding.
#[repr(C)]
#[derive(Clone, Copy, PartialEq, Eq)]
pub struct Timers {
    pub counter: u64,
    // of a tick, in femtoseconds
    pub tick_period: u32,
    pub vendor: u32,
    // the pins that each timer can be routed to, pin n at bit n
    pub masks: [u32; 3],
    pub enabled: u32,
    pub timer: [Timer; 3],
}

// What a call gives: the next state and the answer.
// No Result: `turn_of` gives a state on a refusal too. Not generic: theorems name `Turn.timers`.
#[derive(Clone, Copy)]
pub struct Turn {
    pub timers: Timers,
    pub answer: Answer,
}

// The block after many ticks, how often each timer fired, and at which tick first, from 1 (0: not at all).
// 0, and no Option: so `ran_of` says it (specs/Inner.antt#first), on which the board's theorem `advancing-at` stands.
#[derive(Clone, Copy)]
pub struct Ran {
    pub timers: Timers,
    pub fired: [u32; 3],
    pub first: [u32; 3],
}

impl Timers {
    // ---- the window's offsets

    // capabilities, read only
    pub const CAPABILITIES: u64 = 0x000;
    // configuration: bit 0 enable, writable; other bits read 0
    pub const CONFIGURATION: u64 = 0x010;
    // bit n is timer n's status; writing 1 to it clears it; other bits read 0
    pub const STATUS: u64 = 0x020;
    // the main counter; a write while enabled is ignored
    pub const COUNTER: u64 = 0x0F0;
    // timer n's registers are at TIMERS + STEP * n: its configuration, and COMPARATOR above it its comparator
    pub const TIMERS: u64 = 0x100;

    pub const STEP: u64 = 0x20;

    pub const COMPARATOR: u64 = 0x08;
    // the first offset after the timers' registers
    pub const TIMERS_END: u64 = 0x160;
    // the window's end
    pub const END: u64 = 0x400;

    // ---- what they hold

    // capabilities: bits 63:32 tick period, 31:16 vendor; below them 64-bit counter, three timers, revision 1
    pub const TICK_PERIOD: u64 = 32;

    pub const VENDOR: u64 = 16;

    pub const VENDOR_MASK: u64 = 0xFFFF;

    pub const CAPABLE: u64 = 0x2201;
    // configuration: bit 0 enable
    pub const ENABLE: u32 = 0;

    // ---- ranges

    // three timers
    pub const COUNT: usize = 3;
    // an access of a whole register is so many bytes wide, and its offset a multiple of that
    pub const WIDTH: u64 = 8;
    // and of a half
    pub const HALF_WIDTH: u64 = 4;
    // 2^32: a 4-byte write's value is below it
    pub const VALUE_END: u64 = 4294967296;

    // ---- the state

    // With settings: what is out of range is kept as it is, and the block is then not well formed.
    #[tactic(auto, unfolding(crate::specs::State::reset_to))]
    pub fn reset_to(settings: Settings) -> Timers
        ensures { result ≡ reset_to settings }
    {
        let masks = [settings.mask0, settings.mask1, settings.mask2];
        Timers {
            counter: 0,
            tick_period: settings.period,
            vendor: u32::from(settings.vendor),
            masks,
            enabled: 0,
            timer: masks.map(|mask| Timer::reset(mask)),
        }
    }

    // As in document 01.
    pub fn reset() -> Timers
        ensures { result ≡ reset_timers }
    {
        Timers::reset_to(Settings::standard())
    }

    // The vendor and the tick period are in range.
    #[tactic(auto, unfolding(crate::specs::Formed::settings_fit))]
    fn settings_fit(self) -> bool
        ensures { result ≡ settings_fit self.vendor self.tick_period }
    {
        settings::vendor_ok(self.vendor) & settings::period_ok(self.tick_period)
    }

    /// The enable bit, the settings and each timer are well formed.
    #[tactic(auto, unfolding(crate::specs::Formed::well_formed))]
    pub fn well_formed(self) -> bool
        ensures { result ≡ well_formed self }
    {
        // Written out for each timer: as `all` over the timers zipped with their masks, measured: this test is a
        // sixth slower, and an advance takes nearly half as long again.
        let [t0, t1, t2] = self.timer;
        let [k0, k1, k2] = self.masks;
        let timers = t0.well_formed(k0) & (t1.well_formed(k1) & t2.well_formed(k2));
        (self.enabled <= 1) & (self.settings_fit() & timers)
    }

    // Timer m; past the last, one that is all 0.
    fn at(self, m: usize) -> Timer
        ensures { result ≡ at self m }
    {
        // By the index: with `get(m).copied().unwrap_or(..)` a read is a sixth slower. Out of the struct first, since
        // one with an element of it indexed is copied whole.
        if Timers::COUNT <= m {
            return Timer::blank();
        }
        let t = self.timer;
        t[m]
    }

    // Its mask; past the last, none.
    // By the index, as in `at`. 0 is no sign for none: it is the mask that no pin is in.
    fn mask_at(self, m: usize) -> u32
        ensures { result ≡ mask_at self m }
    {
        if Timers::COUNT <= m {
            return 0;
        }
        let k = self.masks;
        k[m]
    }
}

impl Timers {
    // Each timer by what f makes of its number, its mask and itself. None is sought by its number, so that no timer
    // has to lie in memory.
    fn each<F: Fn(u32, u32, Timer) -> Timer>(self, f: F) -> Timers
        requires { F.IsAlwaysCallable f }
        ensures rest { result ≡ with_timers self (at result) }
        ensures first { F.post f 0 (mask_at self 0) (at self 0) (at result 0) }
        ensures second { F.post f 1 (mask_at self 1) (at self 1) (at result 1) }
        ensures third { F.post f 2 (mask_at self 2) (at self 2) (at result 2) }
    {
        let [t0, t1, t2] = self.timer;
        let [k0, k1, k2] = self.masks;
        let x0 = f(0, k0, t0);
        let x1 = f(1, k1, t1);
        let x2 = f(2, k2, t2);
        Timers {
            timer: [x0, x1, x2],
            ..self
        }
    }
}

// What an offset of a timer's registers reads.
#[tactic(auto, unfolding(crate::specs::Registers::timer_register))]
fn timer_register(mask: u32, t: Timer, offset: u64) -> u64
    ensures { result ≡ timer_register mask t offset }
{
    match offset % Timers::STEP {
        0 => t.configuration(mask),
        Timers::COMPARATOR => t.comparator,
        _ => 0,
    }
}

// A timer after a write to a place among its registers, if it is the one that is written.
#[tactic(auto, unfolding(crate::specs::Inner::timer_put))]
fn put(mask: u32, t: Timer, hit: bool, place: u64, value: u64) -> Timer
    ensures { result ≡ timer_put mask t hit place value }
{
    // Ifs that return: as a match on the place, a write to a comparator takes a seventieth more instructions.
    if !hit {
        return t;
    }
    if place == 0 {
        return t.configured(mask, value);
    }
    if place == Timers::COMPARATOR {
        return t.compared(value);
    }
    t
}

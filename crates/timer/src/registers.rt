// The registers of a timer.
ghost use Rattle.std.specs.Prelude.{◌≡◌};
ghost use Rattle.timer.specs.Registers.{configuration_of, configured_of, set_of, compared_of, half_compared_of, cleared_of};

use crate::{Half, Timer, bit, placed, reduced, routed};

impl Timer {
    /// What its configuration register reads, above it the timer's mask.
    pub fn configuration(self, mask: u32) -> u64
        ensures { result ≡ configuration_of mask self }
    {
        let low = placed(self.periodic, Timer::PERIODIC)
            | (placed(self.interrupt, Timer::INTERRUPT)
                | placed(self.level_type, Timer::LEVEL_TYPE));
        let high = placed(self.narrow, Timer::NARROW)
            | (placed(self.set_comparator, Timer::SET_COMPARATOR) | (low | Timer::CAPABLE));
        (u64::from(mask) << Timer::MASK) | ((u64::from(self.route) << Timer::ROUTE) | high)
    }

    /// A write to its configuration register.
    #[tactic(auto, unfolding(crate::specs::Registers::configured_of))]
    pub fn configured(self, mask: u32, value: u64) -> Timer
        ensures { result ≡ configured_of mask self value }
    {
        let level_type = bit(value, Timer::LEVEL_TYPE);
        let periodic = bit(value, Timer::PERIODIC);
        let narrow = bit(value, Timer::NARROW);
        Timer {
            comparator: reduced(narrow == 1, self.comparator),
            period: reduced(narrow == 1, self.period),
            route: routed(mask, value, self.route),
            level_type,
            interrupt: bit(value, Timer::INTERRUPT),
            periodic,
            set_comparator: if periodic == 1 {
                bit(value, Timer::SET_COMPARATOR)
            } else {
                0
            },
            narrow,
            status: if level_type == 1 { self.status } else { 0 },
        }
    }

    // A write to its comparator register that makes one number of the comparator, and one of the period.
    #[tactic(auto, unfolding(crate::specs::Registers::set_of))]
    fn set(self, comparator: u64, period: u64) -> Timer
        ensures { result ≡ set_of self comparator period }
    {
        let x = reduced(self.narrow == 1, comparator);
        // A copy that is written to: with a `..self` in each of the two cases a write is a sixth slower.
        let mut t = self;
        if self.periodic == 1 {
            t.comparator = if self.set_comparator == 1 {
                x
            } else {
                self.comparator
            };
            t.period = reduced(self.narrow == 1, period);
            t.set_comparator = 0;
            return t;
        }
        t.comparator = x;
        t
    }

    /// A write to its comparator register.
    pub fn compared(self, value: u64) -> Timer
        ensures { result ≡ compared_of self value }
    {
        self.set(value, value)
    }

    /// A write to a half of its comparator register: comparator and period each keep their own other half.
    pub fn compared_half(self, half: Half, value: u32) -> Timer
        ensures { result ≡ half_compared_of self half value }
    {
        let comparator = half.replaced(self.comparator, value);
        let period = half.replaced(self.period, value);
        self.set(comparator, period)
    }

    /// A write of 1 to its status.
    #[tactic(auto, unfolding(crate::specs::Registers::cleared_of))]
    pub fn cleared(self) -> Timer
        ensures { result ≡ cleared_of self }
    {
        Timer { status: 0, ..self }
    }
}

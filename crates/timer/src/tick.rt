// What a firing leaves of a timer and does to its wire, and many ticks at once.
ghost use Rattle.std.specs.Prelude.{◌≡◌};
ghost use Rattle.timer.specs.Tick.{pulsing, driving};
ghost use Rattle.timer.specs.Inner.{raising, holding};
ghost use Rattle.timer.specs.Alone.{run_of};
ghost use Rattle.timer.specs.Closed.{stride, fired_to, Ahead};

use crate::{Run, Timer, firings, reduced};

impl Timer {
    // ---- a firing

    // Status and comparator after firings: `next` is where a periodic timer's comparator goes, but for its width.
    fn fired_to(self, next: u64) -> Timer
        ensures { result ≡ fired_to self next }
    {
        Timer {
            comparator: if self.periodic == 1 {
                reduced(self.narrow == 1, next)
            } else {
                self.comparator
            },
            status: if self.level_type == 1 { 1 } else { self.status },
            ..self
        }
    }

    /// Its firing is a pulse.
    #[tactic(auto, unfolding(crate::specs::Tick::pulsing))]
    pub fn pulses(self) -> bool
        ensures { result ≡ pulsing self }
    {
        !(self.level_type == 1) & (self.interrupt == 1)
    }

    /// Its firing raises the wire of its pin for good, in a block that is enabled.
    #[tactic(auto, unfolding(crate::specs::Inner::raising))]
    pub fn raises(self) -> bool
        ensures { result ≡ raising self }
    {
        (self.level_type == 1) & (self.interrupt == 1)
    }

    /// It holds the wire of the pin high, in a block that is enabled.
    #[tactic(auto, unfolding(crate::specs::Tick::driving))]
    pub fn drives(self, pin: u16) -> bool
        ensures { result ≡ driving self pin }
    {
        (self.level_type == 1)
            & ((self.interrupt == 1) & ((self.status == 1) & (self.route == pin)))
    }

    /// It holds the wire of its pin high, in a block that is enabled.
    #[tactic(auto, unfolding(crate::specs::Inner::holding))]
    pub fn holds(self) -> bool
        ensures { result ≡ holding self }
    {
        (self.level_type == 1) & ((self.interrupt == 1) & (self.status == 1))
    }

    // ---- many ticks at once

    // Ticks from the counter to the next match: 0 where they are equal.
    fn distance(self, counter: u64) -> u64
        ensures { Ahead counter self result }
    {
        reduced(self.narrow == 1, self.comparator.wrapping_sub(counter))
    }

    // How far a firing moves the comparator.
    fn stride(self) -> u64
        ensures { result ≡ stride self }
    {
        if self.periodic == 1 {
            reduced(self.narrow == 1, self.period)
        } else {
            0
        }
    }

    /// The ticks that follow the counter.
    pub fn ran(self, counter: u64, ticks: u32) -> Run
        ensures { result ≡ run_of self counter ticks }
    {
        let due = self.distance(counter);
        let stride = self.stride();
        let fired = firings(due, stride, ticks);
        if fired == 0 {
            return Run {
                timer: self,
                fired: 0,
                first: 0,
            };
        }
        let last = self.comparator.wrapping_add((fired - 1) * stride);
        let next = last.wrapping_add(stride);
        Run {
            timer: self.fired_to(next),
            fired: fired as u32,
            first: due as u32,
        }
    }
}

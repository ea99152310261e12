// The timers' part of the wire rule, and many ticks at once.
ghost use Rattle.std.specs.Prelude.{◌≡◌};
ghost use Rattle.timers.specs.Tick.{drives_of, pulses_of, route_of};
ghost use Rattle.timers.specs.Inner.{driven_pin, raises_of, ran_of};

use crate::{Ran, Timers};

impl Timers {
    // ---- the timers' part of the wire rule

    // The block is enabled, and some timer routed to the pin has level type, interrupt enable and status.
    #[tactic(auto, unfolding(crate::specs::Tick::drives_of))]
    pub fn drives(self, pin: u16) -> bool
        ensures { result ≡ drives_of self pin }
    {
        (self.enabled == 1) & self.timer.iter().any(|t| t.drives(pin))
    }

    // The pin whose wire timer m holds high, or none.
    #[tactic(auto, unfolding(crate::specs::Inner::driven_pin))]
    pub fn driven(self, m: usize) -> Option<u16>
        ensures { result ≡ driven_pin self m }
    {
        let t = self.at(m);
        if (self.enabled == 1) & t.holds() {
            Some(t.route)
        } else {
            None
        }
    }

    // Timer m's firing is a pulse: edge type with its interrupt enabled.
    #[tactic(auto, unfolding(crate::specs::Tick::pulses_of))]
    pub fn pulses(self, m: usize) -> bool
        ensures { result ≡ pulses_of self m }
    {
        self.at(m).pulses()
    }

    // Timer m's firing raises its wire for good: level type with its interrupt enabled.
    #[tactic(auto, unfolding(crate::specs::Inner::raises_of))]
    pub fn raises(self, m: usize) -> bool
        ensures { result ≡ raises_of self m }
    {
        self.at(m).raises()
    }

    // The pin that timer m is routed to.
    #[tactic(auto, unfolding(crate::specs::Tick::route_of))]
    pub fn route(self, m: usize) -> usize
        ensures { result ≡ route_of self m }
    {
        usize::from(self.at(m).route)
    }

    // ---- many ticks at once

    pub fn ran(self, ticks: u32) -> Ran
        ensures { result ≡ ran_of self ticks }
    {
        if self.enabled != 1 {
            return Ran {
                timers: self,
                fired: [0; 3],
                first: [0; 3],
            };
        }
        let counter = self.counter;
        let [r0, r1, r2] = self.timer.map(|t| t.ran(counter, ticks));
        Ran {
            timers: Timers {
                counter: self.counter.wrapping_add(u64::from(ticks)),
                timer: [r0.timer, r1.timer, r2.timer],
                ..self
            },
            fired: [r0.fired, r1.fired, r2.fired],
            first: [r0.first, r1.first, r2.first],
        }
    }
}

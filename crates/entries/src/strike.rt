// Strikes: what timers that fire do to their pins, one after the other.
ghost use Rattle.std.specs.Prelude.{◌≡◌};
ghost use Rattle.entries.specs.Strike.{pin_of, is_pulse, struck_level, struck_held, struck};

use crate::{Entries, Low};

/// A pulse of the pin's wire, or a rise of it.
#[derive(Clone, Copy, PartialEq, Eq)]
pub enum Strike {
    Pulse(usize),
    Rise(usize),
}

impl Strike {
    #[tactic(auto, unfolding(crate::specs::Strike::pin_of))]
    fn pin(self) -> usize
        ensures { result ≡ pin_of self }
    {
        match self {
            Strike::Pulse(p) | Strike::Rise(p) => p,
        }
    }

    #[tactic(auto, unfolding(crate::specs::Strike::is_pulse))]
    fn is_pulse(self) -> bool
        ensures { result ≡ is_pulse self }
    {
        matches!(self, Strike::Pulse(_))
    }
}

// A struck pin's level: after a pulse the wire is where it was.
#[tactic(auto, unfolding(crate::specs::Strike::struck_level))]
fn struck_level(pulse: bool, before: u8) -> u8
    ensures { result ≡ struck_level pulse before }
{
    if pulse { before } else { 1 }
}

// And whether it holds an edge.
#[tactic(auto, unfolding(crate::specs::Strike::struck_held))]
fn struck_held(low: u32, pulse: bool, before: u8, held: u8) -> u8
    ensures { result ≡ struck_held low pulse before held }
{
    let up = Low(low).held_after(before, 1, held);
    if pulse {
        return Low(low).held_after(1, before, up);
    }
    up
}

impl Entries {
    /// A strike of a pin above 23 is none. The pins change in two arrays of their own: a strike that took and gave the
    /// entries would copy them.
    pub fn struck(self, strikes: [Option<Strike>; 3]) -> Entries
        ensures { result ≡ struck 3 strikes self }
    {
        let low = self.low;
        let mut level = self.level;
        let mut held = self.held;
        for strike in strikes {
            let Some(strike) = strike else {
                continue;
            };
            let p = strike.pin();
            if p < Entries::PINS {
                let pulse = strike.is_pulse();
                let before = level[p];
                held[p] = struck_held(low[p], pulse, before, held[p]);
                level[p] = struck_level(pulse, before);
            }
        }
        Entries {
            level,
            held,
            ..self
        }
    }
}

// Wires, end of interrupt, delivery.
ghost use Rattle.std.specs.Prelude.{◌≡◌, MatchResult};
ghost use Rattle.answers.specs.declared.Answer.TheVariants as answer;
ghost use Rattle.controller.specs.State.{turn, refused, tested};
ghost use Rattle.controller.specs.Steps.{rewired, wire_of, after_end, end_of, delivering_of, deliver_of};
ghost use Rattle.controller.specs.Inner.{struck_of, delivery_if};

use crate::{Controller, Turn};
use answers::{Answer, Refusal};
use entries::strike::Strike;
use entries::{Entries, EntryDecision};

impl Controller {
    // a pin above 23 is refused, and a wire level above 1
    pub const PINS: u64 = 24;

    pub const LAST_LEVEL: u64 = 1;

    /// All wires at once.
    pub fn rewired(self, levels: [u8; 24]) -> Controller
        ensures { result ≡ rewired self levels }
    {
        Controller {
            entries: self.entries.wired(levels),
            ..self
        }
    }

    /// Up to three pins are struck, one after the other.
    pub fn struck(self, strikes: [Option<Strike>; 3]) -> Controller
        ensures { result ≡ struck_of self strikes }
    {
        Controller {
            entries: self.entries.struck(strikes),
            ..self
        }
    }

    // The state after a change of one wire.
    #[tactic(auto, unfolding(crate::specs::Steps::wire_of))]
    fn wire_changed(self, pin: u64, level: u64) -> Result<Controller, Refusal>
        ensures { MatchResult result
            (λ c. wire_of self pin level ≡ tested self (turn c answer.Done))
            (λ r. wire_of self pin level ≡ tested self (refused self r)) }
    {
        if Controller::PINS <= pin {
            return Err(Refusal::Pin);
        }
        if Controller::LAST_LEVEL < level {
            return Err(Refusal::Level);
        }
        let mut levels = self.entries.level;
        levels[pin as usize] = level as u8;
        Ok(self.rewired(levels))
    }

    pub fn wire(self, pin: u64, level: u64) -> Turn
        ensures { result ≡ wire_of self pin level }
    {
        self.served(|c| c.done(c.wire_changed(pin, level)))
    }

    pub fn ending(self, vector: u8) -> Controller
        ensures { result ≡ after_end self vector }
    {
        Controller {
            entries: self.entries.ended(vector),
            ..self
        }
    }

    #[tactic(auto, unfolding(crate::specs::Steps::end_of))]
    pub fn end(self, vector: u8) -> Turn
        ensures { result ≡ end_of self vector }
    {
        self.served(|c| c.done(Ok(c.ending(vector))))
    }

    /// The delivery step decided, of the controller that has these low words and held edges; none if no pin is
    /// eligible.
    pub fn delivery(self, low: &[u32; 24], held: &[u8; 24]) -> Option<EntryDecision>
        ensures { result ≡ delivery_if self low.now held.now }
    {
        let entries = self.entries;
        let destination = entries.destination;
        let lent = Entries {
            low: *low,
            held: *held,
            ..entries
        };
        let n = lent.first_eligible()?;
        Some(EntryDecision::delivery(n, &destination, low, held))
    }

    pub fn delivering(self) -> Turn
        ensures { result ≡ delivering_of self }
    {
        let entries = self.entries;
        let low = entries.low;
        let held = entries.held;
        let Some(d) = self.delivery(&low, &held) else {
            return Turn {
                controller: self,
                answer: Answer::Nothing,
            };
        };
        // Stored in place: a struct made anew, by ..self, takes a fifth longer here.
        let mut next = self;
        next.entries = entries.renewed(d);
        Turn {
            controller: next,
            answer: d.answer,
        }
    }

    #[tactic(auto, unfolding(crate::specs::Steps::deliver_of))]
    pub fn deliver(self) -> Turn
        ensures { result ≡ deliver_of self }
    {
        self.served(|c| c.delivering())
    }
}

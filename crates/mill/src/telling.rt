// The screen's own calls: telling it its pause pin, and resuming.
ghost use Rattle.std.specs.Prelude.{◌≡◌};
ghost use Rattle.mill.specs.declared.MillCall.TheVariants as millcall;
ghost use Rattle.mill.specs.Mill.{looked_at, telling_of, resuming_of, turn_of};

use crate::words::holds;
use crate::{Mill, MillCall, MillTurn, Screen};
use answers::{Answer, Refusal};
use controller::Controller;
use entries::Low;

impl Mill {
    /// A look at a pin: whether it holds an edge decides between asked and running.
    #[inline(always)]
    fn looked_at(self, pin: u16) -> Mill
        ensures { result ≡ looked_at self pin }
    {
        Mill {
            screen: Screen::looked(pin, holds(self.board.controller.entries.held, pin)),
            ..self
        }
    }

    #[inline(always)]
    #[tactic(auto, unfolding(crate::specs::Mill::telling_of))]
    pub(crate) fn telling(self, pin: u64) -> MillTurn
        ensures { result ≡ telling_of self pin }
    {
        if Controller::PINS <= pin {
            return self.refused(Refusal::Pin);
        }
        let low = self.board.controller.entries.low;
        if Low(low[pin as usize]).is_level() {
            return self.refused(Refusal::NotEdge);
        }
        MillTurn {
            mill: self.looked_at(pin as u16),
            answer: Answer::Done,
        }
    }

    /// A resume takes effect in paused alone.
    #[inline(always)]
    #[tactic(auto, unfolding(crate::specs::Mill::resuming_of))]
    pub(crate) fn resuming(self) -> MillTurn
        ensures { result ≡ resuming_of self }
    {
        MillTurn {
            mill: if self.screen.word == Screen::PAUSED {
                self.looked_at(self.screen.pin)
            } else {
                self
            },
            answer: Answer::Done,
        }
    }

    pub fn tell(self, pin: u64) -> MillTurn
        ensures { result ≡ turn_of self (millcall.Tell pin) }
    {
        self.step(MillCall::Tell { pin })
    }

    pub fn resume(self) -> MillTurn
        ensures { result ≡ turn_of self millcall.Resume }
    {
        self.step(MillCall::Resume)
    }
}

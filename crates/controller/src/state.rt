ghost use Rattle.std.specs.Prelude.{◌≡◌, true, false, MatchResult};
ghost use Rattle.answers.specs.declared.Answer.TheVariants as answer;
ghost use Rattle.answers.specs.declared.Refusal.TheVariants as refusal;
ghost use Rattle.controller.specs.State.{reset_to, reset_controller, well_formed, turn, refused};

use crate::{Controller, Turn};
use answers::{Answer, Refusal};
use entries::Entries;

impl Controller {
    // well formed: id at most 15, index at most 255
    pub const LAST_ID: u32 = 15;

    pub const LAST_INDEX: u32 = 255;

    /// With settings: what is out of range is kept as it is, and the state is then not well formed.
    pub fn reset_to(id: u8) -> Controller
        ensures { result ≡ reset_to id }
    {
        Controller {
            id: id as u32,
            index: 0,
            entries: Entries::reset(),
        }
    }

    /// As in document 01.
    pub fn reset() -> Controller
        ensures { result ≡ reset_controller }
    {
        Controller::reset_to(0)
    }

    #[tactic(auto, unfolding(crate::specs::State::well_formed))]
    pub fn well_formed(self) -> bool
        ensures { result ≡ well_formed self }
    {
        (self.id <= Controller::LAST_ID)
            & (self.index <= Controller::LAST_INDEX)
            & self.entries.well_formed()
    }

    /// A refusal gives the state that came in.
    pub fn refused(self, refusal: Refusal) -> Turn
        ensures { result ≡ refused self refusal }
    {
        Turn {
            controller: self,
            answer: Answer::Refused(refusal),
        }
    }

    // A call that answers by the next state alone.
    pub(crate) fn done(self, next: Result<Controller, Refusal>) -> Turn
        ensures { MatchResult next (λ c. result ≡ turn c answer.Done) (λ r. result ≡ refused self r) }
    {
        match next {
            Ok(controller) => Turn {
                controller,
                answer: Answer::Done,
            },
            Err(refusal) => self.refused(refusal),
        }
    }

    // A call of a state that is not well formed is refused before anything else is tested.
    pub(crate) fn served<F: FnOnce(Controller) -> Turn>(self, call: F) -> Turn
        requires { F.IsAlwaysCallable call }
        ensures formed { well_formed self ≡ true → F.post call self result }
        ensures other { well_formed self ≡ false → result ≡ refused self refusal.State }
    {
        if self.well_formed() {
            call(self)
        } else {
            self.refused(Refusal::State)
        }
    }
}

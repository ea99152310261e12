// Every call of a mill: the mill is tested once, unless the call is a reset, which tests its settings; then the call is
// served.
ghost use Rattle.std.specs.Prelude.{◌≡◌, true};
ghost use Rattle.board.specs.declared.Call.TheVariants as call;
ghost use Rattle.board.specs.Events.{other, end, delivery_of};
ghost use Rattle.mill.specs.declared.MillCall.TheVariants as millcall;
ghost use Rattle.mill.specs.Mill.{mill, reset_to, reset_mill, well_formed, turn as mill_turn, refused, by_event};
ghost use Rattle.mill.specs.Mill.{takes, served_of, turn_of};

use crate::{Mill, MillCall, MillTurn, Screen};
use answers::{Answer, Refusal};
use board::{Board, Call, Turn};
use settings::Settings;

/// The board's turn as the mill's, beside this screen.
// Screen and turn stay two parameters, here and below: the screen before, the board after, as `by_event` takes them.
fn beside(screen: Screen, turn: Turn) -> MillTurn
    ensures { result ≡ mill_turn (mill turn.board screen) turn.answer }
{
    MillTurn {
        mill: Mill {
            board: turn.board,
            screen,
        },
        answer: turn.answer,
    }
}

/// The screen after a call that was neither a delivery step nor an end of interrupt.
fn seen(screen: Screen, turn: Turn) -> MillTurn
    ensures { result ≡ by_event screen turn other }
{
    beside(screen.seen(turn.board.controller.entries.held), turn)
}

/// The screen after a delivery step.
#[tactic(auto, unfolding(crate::specs::Screen::shown_after))]
fn given(screen: Screen, turn: Turn) -> MillTurn
    ensures { result ≡ by_event screen turn (delivery_of turn.answer) }
{
    match turn.answer {
        Answer::Interrupt { pin, vector, .. } => beside(
            screen.given(turn.board.controller.entries.held, pin, vector),
            turn,
        ),
        _ => seen(screen, turn),
    }
}

/// The screen after an end of interrupt.
fn ended(screen: Screen, turn: Turn, vector: u8) -> MillTurn
    ensures { result ≡ by_event screen turn (end vector) }
{
    beside(
        screen.ended(turn.board.controller.entries.held, vector),
        turn,
    )
}

impl Mill {
    /// With settings: what is out of range is kept as it is, and the mill is then not well formed. `renew` tests it.
    pub fn reset_to(settings: Settings) -> Mill
        ensures { result ≡ reset_to settings }
    {
        Mill {
            board: Board::reset_to(settings),
            screen: Screen::blank(),
        }
    }

    /// As in document 01.
    pub fn reset() -> Mill
        ensures { result ≡ reset_mill }
    {
        Mill::reset_to(Settings::standard())
    }

    #[tactic(auto, unfolding(crate::specs::Mill::well_formed))]
    pub fn well_formed(self) -> bool
        ensures { result ≡ well_formed self }
    {
        self.board.well_formed() & self.screen.fits(self.board.controller.entries.held)
    }

    pub fn refused(self, refusal: Refusal) -> MillTurn
        ensures { result ≡ refused self refusal }
    {
        MillTurn {
            mill: self,
            answer: Answer::Refused(refusal),
        }
    }

    // ---- the board's calls

    pub fn read(self, window: u64, width: u64, offset: u64) -> MillTurn
        ensures { result ≡ turn_of self (millcall.Board (call.Read window width offset)) }
    {
        self.step(MillCall::Board {
            call: Call::Read {
                window,
                width,
                offset,
            },
        })
    }

    pub fn write(self, window: u64, width: u64, offset: u64, value: u64) -> MillTurn
        ensures { result ≡ turn_of self (millcall.Board (call.Write window width offset value)) }
    {
        self.step(MillCall::Board {
            call: Call::Write {
                window,
                width,
                offset,
                value,
            },
        })
    }

    pub fn wire(self, pin: u64, level: u64) -> MillTurn
        ensures { result ≡ turn_of self (millcall.Board (call.Wire pin level)) }
    {
        self.step(MillCall::Board {
            call: Call::Wire { pin, level },
        })
    }

    pub fn end(self, vector: u8) -> MillTurn
        ensures { result ≡ turn_of self (millcall.Board (call.End vector)) }
    {
        self.step(MillCall::Board {
            call: Call::End { vector },
        })
    }

    pub fn advance(self, ticks: u32) -> MillTurn
        ensures { result ≡ turn_of self (millcall.Board (call.Advance ticks)) }
    {
        self.step(MillCall::Board {
            call: Call::Advance { ticks },
        })
    }

    pub fn deliver(self) -> MillTurn
        ensures { result ≡ turn_of self (millcall.Board call.Deliver) }
    {
        self.step(MillCall::Board {
            call: Call::Deliver,
        })
    }

    /// A reset, whatever the mill was; settings out of range are 10, and the mill stays.
    #[tactic(auto, using(crate::proofs::Served::resets))]
    pub fn renew(self, settings: Settings) -> MillTurn
        ensures { result ≡ turn_of self (millcall.Board (call.Reset settings)) }
    {
        if settings.in_range() {
            MillTurn {
                mill: Mill::reset_to(settings),
                answer: Answer::Done,
            }
        } else {
            self.refused(Refusal::Range)
        }
    }

    // ---- every call, inlined into each of the others: called, the mill goes by copies, and a read took twice the time

    /// A reset takes any mill, every other call a well-formed one.
    #[inline(always)]
    fn takes(self, call: MillCall) -> bool
        ensures { result ≡ takes self call }
    {
        matches!(
            call,
            MillCall::Board {
                call: Call::Reset { .. }
            }
        ) || self.well_formed()
    }

    /// What a call of the board does to a mill that takes it. A read changes neither the board nor a screen that fits
    /// it.
    #[inline(always)]
    #[tactic(auto, using(crate::proofs::Served::board_calls))]
    fn board_served(self, call: Call) -> MillTurn
        requires { takes self (millcall.Board call) ≡ true }
        ensures { result ≡ turn_of self (millcall.Board call) }
    {
        match call {
            Call::Read {
                window,
                width,
                offset,
            } => MillTurn {
                mill: self,
                answer: self.board.reading(window, width, offset).answer,
            },
            Call::Write {
                window,
                width,
                offset,
                value,
            } => seen(
                self.screen,
                self.board.writing(window, width, offset, value),
            ),
            Call::Wire { pin, level } => seen(self.screen, self.board.wiring(pin, level)),
            Call::End { vector } => ended(self.screen, self.board.ending(vector), vector),
            Call::Advance { ticks } => seen(self.screen, self.board.advancing(ticks)),
            Call::Deliver => given(self.screen, self.board.delivering()),
            Call::Reset { settings } => self.renew(settings),
        }
    }

    /// What a call does to a mill that it takes.
    #[inline(always)]
    #[tactic(auto, unfolding(crate::specs::Mill::turn_of, crate::specs::Mill::served_of))]
    fn served(self, call: MillCall) -> MillTurn
        requires { takes self call ≡ true }
        ensures { result ≡ served_of self call }
    {
        match call {
            MillCall::Board { call } => self.board_served(call),
            MillCall::Tell { pin } => self.telling(pin),
            MillCall::Resume => self.resuming(),
        }
    }

    // As `Board::step`: a trait for both would name `takes`, `served` and `refused` and a law of each, for one `if`.
    #[inline(always)]
    #[tactic(auto, unfolding(crate::specs::Mill::turn_of))]
    pub fn step(self, call: MillCall) -> MillTurn
        ensures { result ≡ turn_of self call }
    {
        if self.takes(call) {
            self.served(call)
        } else {
            self.refused(Refusal::State)
        }
    }
}

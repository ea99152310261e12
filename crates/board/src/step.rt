// Every call: the board is tested once, unless the call is a reset, which tests its settings; then the call is served.
// A call named -ing is what the call does once the board is known to be well formed: the monitor tests it in place.
// `window, width, offset, value` and `pin, level` stay parameters: the entries for C and `turn_of` take them so.
ghost use Rattle.std.specs.Prelude.{◌≡◌, true};
ghost use Rattle.board.specs.declared.Call.TheVariants as call;
ghost use Rattle.board.specs.State.{refused};
ghost use Rattle.board.specs.Step.{by_controller, reading_of, writing_of, ending_of, delivering_on_board, resetting_of};
ghost use Rattle.board.specs.Step.{takes, served_of, turn_of};
ghost use Rattle.board.specs.At.{wiring_at};

use crate::{Board, Call, Turn};
use answers::{Answer, Refusal};
use settings::Settings;

impl Board {
    pub const CONTROLLER: u64 = 0;

    pub const TIMERS: u64 = 1;

    pub fn refused(self, refusal: Refusal) -> Turn
        ensures { result ≡ refused self refusal }
    {
        Turn {
            board: self,
            answer: Answer::Refused(refusal),
        }
    }

    /// The controller's turn as the board's.
    fn by_controller(self, turn: controller::Turn) -> Turn
        ensures { result ≡ by_controller self turn }
    {
        Turn {
            board: Board {
                controller: turn.controller,
                ..self
            },
            answer: turn.answer,
        }
    }

    #[tactic(auto, unfolding(crate::specs::Step::reading_of))]
    pub fn reading(self, window: u64, width: u64, offset: u64) -> Turn
        ensures { result ≡ reading_of self window width offset }
    {
        match window {
            Board::CONTROLLER => self.by_controller(self.controller.reading(width, offset)),
            Board::TIMERS => Turn {
                board: self,
                answer: self.timers.reading(width, offset).answer,
            },
            _ => self.refused(Refusal::Window),
        }
    }

    #[tactic(auto, unfolding(crate::specs::Step::writing_of))]
    pub fn writing(self, window: u64, width: u64, offset: u64, value: u64) -> Turn
        ensures { result ≡ writing_of self window width offset value }
    {
        // Ifs that return: as one match, a write to a timer's register takes a twentieth more instructions through the
        // monitor's entry.
        if window == Board::CONTROLLER {
            return self.by_controller(self.controller.writing(width, offset, value));
        }
        if window == Board::TIMERS {
            let turn = self.timers.writing(width, offset, value);
            return Turn {
                board: Board::joined(self.controller, turn.timers, self.outside),
                answer: turn.answer,
            };
        }
        self.refused(Refusal::Window)
    }

    /// One wire changes, so one pin can: the other levels of a well-formed board are the rule's already.
    pub fn wiring(self, pin: u64, level: u64) -> Turn
        ensures { result ≡ wiring_at self pin level }
    {
        let mut controller = self.controller;
        let mut entries = controller.entries;
        let mut levels = entries.level;
        let mut held = entries.held;
        let mut outside = self.outside;
        let answer = self.wire_in_place(pin, level, &mut levels, &mut held, &mut outside);
        entries.level = levels;
        entries.held = held;
        controller.entries = entries;
        Turn {
            board: Board {
                controller,
                outside,
                ..self
            },
            answer,
        }
    }

    #[tactic(auto, unfolding(crate::specs::Step::ending_of))]
    pub fn ending(self, vector: u8) -> Turn
        ensures { result ≡ ending_of self vector }
    {
        Turn {
            board: Board {
                controller: self.controller.ending(vector),
                ..self
            },
            answer: Answer::Done,
        }
    }

    #[tactic(auto, unfolding(crate::specs::Step::delivering_on_board))]
    pub fn delivering(self) -> Turn
        ensures { result ≡ delivering_on_board self }
    {
        self.by_controller(self.controller.delivering())
    }

    /// A reset takes any board; settings out of range are 10, and the board stays.
    #[tactic(auto, unfolding(crate::specs::Step::resetting_of))]
    pub fn resetting(self, settings: Settings) -> Turn
        ensures { result ≡ resetting_of self settings }
    {
        if !settings.in_range() {
            return self.refused(Refusal::Range);
        }
        Turn {
            board: Board::reset_to(settings),
            answer: Answer::Done,
        }
    }

    pub fn read(self, window: u64, width: u64, offset: u64) -> Turn
        ensures { result ≡ turn_of self (call.Read window width offset) }
    {
        self.step(Call::Read {
            window,
            width,
            offset,
        })
    }

    pub fn write(self, window: u64, width: u64, offset: u64, value: u64) -> Turn
        ensures { result ≡ turn_of self (call.Write window width offset value) }
    {
        self.step(Call::Write {
            window,
            width,
            offset,
            value,
        })
    }

    pub fn wire(self, pin: u64, level: u64) -> Turn
        ensures { result ≡ turn_of self (call.Wire pin level) }
    {
        self.step(Call::Wire { pin, level })
    }

    pub fn end(self, vector: u8) -> Turn
        ensures { result ≡ turn_of self (call.End vector) }
    {
        self.step(Call::End { vector })
    }

    pub fn deliver(self) -> Turn
        ensures { result ≡ turn_of self call.Deliver }
    {
        self.step(Call::Deliver)
    }

    // Inlined into each call above: called, the board goes by copies, and a read took twice the time.

    /// A reset takes any board, every other call a well-formed one.
    #[inline(always)]
    fn takes(self, call: Call) -> bool
        ensures { result ≡ takes self call }
    {
        matches!(call, Call::Reset { .. }) || self.well_formed()
    }

    /// What a call does to a board that it takes.
    #[inline(always)]
    fn served(self, call: Call) -> Turn
        requires { takes self call ≡ true }
        ensures { result ≡ served_of self call }
    {
        match call {
            Call::Read {
                window,
                width,
                offset,
            } => self.reading(window, width, offset),
            Call::Write {
                window,
                width,
                offset,
                value,
            } => self.writing(window, width, offset, value),
            Call::Wire { pin, level } => self.wiring(pin, level),
            Call::End { vector } => self.ending(vector),
            Call::Advance { ticks } => self.advancing(ticks),
            Call::Deliver => self.delivering(),
            Call::Reset { settings } => self.resetting(settings),
        }
    }

    #[inline(always)]
    #[tactic(auto, unfolding(crate::specs::Step::turn_of))]
    pub fn step(self, call: Call) -> Turn
        ensures { result ≡ turn_of self call }
    {
        if self.takes(call) {
            self.served(call)
        } else {
            self.refused(Refusal::State)
        }
    }
}

// Every call. "Refusal 5 is tested first"; "A reset takes any state and tests only 10, never 5; …" (K6)
// Functions and no methods of a board: `Board` is another crate's type.
ghost use Rattle.std.specs.Prelude.{◌≡◌};
ghost use Rattle.settings.specs.Settings.{in_range};
ghost use Rattle.board.specs.State.{reset_to};
ghost use Rattle.board.specs.State.{refused as refused_turn};
ghost use Rattle.board.specs.Step.{by_controller, by_timers};
ghost use Rattle.board.specs.Step.{takes as taken_by};
ghost use Rattle.board.specs.Step.{reading_of, writing_of, wiring_of, ending_of, delivering_on_board, resetting_of, served_of, turn_of};

use crate::formed::well_formed;
use crate::tick::advancing;
use crate::wires::joined;
use answers::{Answer, Refusal};
use board::{Board, Call, Turn};
use settings::Settings;

// A refusal is the answer, and the board stays: "same state".
fn refused(b: Board, refusal: Refusal) -> Turn
    ensures { result ≡ refused_turn b refusal }
{
    Turn {
        board: b,
        answer: Answer::Refused(refusal),
    }
}

// What the controller did, as the board's turn: a call of the controller moves no wire.
fn by_controller(b: Board, t: controller::Turn) -> Turn
    ensures { result ≡ by_controller b t }
{
    Turn {
        board: Board {
            controller: t.controller,
            ..b
        },
        answer: t.answer,
    }
}

// What a write did to the timers, as the board's turn. A timer register may move a wire, and one of the "Mistakes we
// have made already" is "Letting a register write that changes a level timer's wire pass without an edge."
fn by_timers(b: Board, t: timers::Turn) -> Turn
    ensures { result ≡ by_timers b t }
{
    Turn {
        board: joined(b.controller, t.timers, b.outside),
        answer: t.answer,
    }
}

// A read. "An access then tests 1 for an unknown window, …"; "window (0 controller, 1 timers)".
#[tactic(auto, unfolding(board::specs::Step::reading_of))]
fn reading(b: Board, window: u64, width: u64, offset: u64) -> Turn
    ensures { result ≡ reading_of b window width offset }
{
    match window {
        0 => by_controller(b, plain_controller::reading(b.controller, width, offset)),
        1 => Turn {
            board: b,
            answer: plain_timers::reading(b.timers, width, offset).answer,
        },
        _ => refused(b, Refusal::Window),
    }
}

// A write. "An access then tests 1 for an unknown window, …"; "window (0 controller, 1 timers)".
#[tactic(auto, unfolding(board::specs::Step::writing_of))]
fn writing(b: Board, window: u64, width: u64, offset: u64, value: u64) -> Turn
    ensures { result ≡ writing_of b window width offset value }
{
    match window {
        0 => by_controller(
            b,
            plain_controller::writing(b.controller, width, offset, value),
        ),
        1 => by_timers(b, plain_timers::writing(b.timers, width, offset, value)),
        _ => refused(b, Refusal::Window),
    }
}

// "A wire change tests 3, then 4."
#[tactic(auto, unfolding(board::specs::Step::wiring_of))]
fn wiring(b: Board, pin: u64, level: u64) -> Turn
    ensures { result ≡ wiring_of b pin level }
{
    if 24 <= pin {
        return refused(b, Refusal::Pin);
    }
    if 1 < level {
        return refused(b, Refusal::Level);
    }
    let mut outside = b.outside;
    outside[pin as usize] = level as u8;
    Turn {
        board: joined(b.controller, b.timers, outside),
        answer: Answer::Done,
    }
}

// "End of interrupt with vector v: every level entry whose present vector is v gets remote IRR 0. …"
#[tactic(auto, unfolding(board::specs::Step::ending_of))]
fn ending(b: Board, vector: u8) -> Turn
    ensures { result ≡ ending_of b vector }
{
    Turn {
        board: Board {
            controller: plain_controller::ended(b.controller, vector),
            ..b
        },
        answer: Answer::Done,
    }
}

// "Delivery step: the lowest-numbered eligible pin gives its pin number, vector, destination and bit 11. …"
#[tactic(auto, unfolding(board::specs::Step::delivering_on_board))]
fn delivering(b: Board) -> Turn
    ensures { result ≡ delivering_on_board b }
{
    by_controller(b, plain_controller::delivering(b.controller))
}

// "The period is 1 to 100,000,000, each mask is nonzero and below 2^24, the id is at most 15." (K6)
#[tactic(auto, unfolding(settings::specs::Settings::in_range, settings::specs::Settings::vendor_ok, settings::specs::Settings::period_ok, settings::specs::Settings::id_ok))]
fn in_range(settings: Settings) -> bool
    ensures { result ≡ in_range settings }
{
    1 <= settings.period
        && settings.period <= 100000000
        && plain_timers::mask_ok(settings.mask0)
        && plain_timers::mask_ok(settings.mask1)
        && plain_timers::mask_ok(settings.mask2)
        && settings.id <= 15
}

// The controller: "Reset: every low word 0x00010000, high 0, …, index 0, outside wires low." The timers: "Reset:
// everything writable 0, except comparators, which are 2^64 - 1." The rest is the settings' (K6).
fn reset(settings: Settings) -> Board
    ensures { result ≡ reset_to settings }
{
    Board {
        timers: plain_timers::reset(settings),
        controller: plain_controller::reset(settings.id),
        outside: [0; 24],
    }
}

// "A reset … tests only 10, never 5; refused, it hands that state back." (K6)
#[tactic(auto, unfolding(board::specs::Step::resetting_of))]
fn resetting(b: Board, settings: Settings) -> Turn
    ensures { result ≡ resetting_of b settings }
{
    if in_range(settings) {
        Turn {
            board: reset(settings),
            answer: Answer::Done,
        }
    } else {
        refused(b, Refusal::Range)
    }
}

// What a call does to a board that it takes.
#[tactic(auto, unfolding(board::specs::Step::served_of))]
fn served(b: Board, call: Call) -> Turn
    ensures { result ≡ served_of b call }
{
    match call {
        Call::Read {
            window,
            width,
            offset,
        } => reading(b, window, width, offset),
        Call::Write {
            window,
            width,
            offset,
            value,
        } => writing(b, window, width, offset, value),
        Call::Wire { pin, level } => wiring(b, pin, level),
        Call::End { vector } => ending(b, vector),
        Call::Advance { ticks } => advancing(b, ticks),
        Call::Deliver => delivering(b),
        Call::Reset { settings } => resetting(b, settings),
    }
}

// 5 is given at a "state not well formed" by every call but a reset, which takes any board.
fn takes(b: Board, call: Call) -> bool
    ensures { result ≡ taken_by b call }
{
    matches!(call, Call::Reset { .. }) || well_formed(b)
}

// "Refusal 5 is tested first."
#[tactic(auto, unfolding(board::specs::Step::turn_of))]
pub fn step(b: Board, call: Call) -> Turn
    ensures { result ≡ turn_of b call }
{
    if takes(b, call) {
        served(b, call)
    } else {
        refused(b, Refusal::State)
    }
}

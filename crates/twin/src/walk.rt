// The plain engine's calls, a long advance in portions, so that it can be shown how far it is.
// `rt`, board and ticks stay parameters: the runtime only shows how far it is, and the ticks are those of the call.
ghost use Rattle.std.specs.Prelude.{◌≡◌, ◌≤◌, true};
ghost use Rattle.board.specs.declared.Call.TheVariants as call;
ghost use Rattle.board.specs.Formed.{well_formed};
ghost use Rattle.board.specs.Step.{turn_of};

use crate::progress;
use answers::{Answer, Numbers};
use board::{Board, Call, Turn};

// An advance above so many ticks is shown, and cut into portions of so many.
const SHOWN: u32 = 4096;

const PORTION: u32 = 1048576;

fn least(ticks: u32) -> u32
    ensures upper_bound { result ≤ ticks }
    ensures lower_bound { 1 ≤ ticks → 1 ≤ result }
{
    if PORTION < ticks { PORTION } else { ticks }
}

fn plain_advance(b: Board, ticks: u32) -> Turn
    ensures { result ≡ turn_of b (call.Advance ticks) }
{
    plain::step(b, Call::Advance { ticks })
}

// "Cut the advance into any portions, zeros too, with no other call between: the end state is the same and each timer's
// firings add up to the same number."
fn in_portions(rt: &HostRuntime, b: Board, ticks: u32, record: u64) -> Turn
    requires { well_formed b ≡ true }
    ensures { result ≡ turn_of b (call.Advance ticks) }
{
    let mut board = b;
    let mut fired0: u32 = 0;
    let mut fired1: u32 = 0;
    let mut fired2: u32 = 0;
    let mut done: u32 = 0;
    // No index counts here: a turn makes a whole portion of ticks, and the last one what is left.
    while done < ticks {
        progress::shown(rt, record, done, ticks);
        let portion = least(ticks - done);
        let turn = plain_advance(board, portion);
        let answer = turn.answer;
        let numbers = Numbers::from(answer);
        fired0 += numbers.fired[0];
        fired1 += numbers.fired[1];
        fired2 += numbers.fired[2];
        board = turn.board;
        done += portion;
    }
    progress::cleared(rt);
    Turn {
        board,
        answer: Answer::Fired(fired0, fired1, fired2),
    }
}

fn advanced(rt: &HostRuntime, b: Board, ticks: u32, record: u64) -> Turn
    ensures { result ≡ turn_of b (call.Advance ticks) }
{
    if ticks <= SHOWN {
        return plain_advance(b, ticks);
    }
    if !plain::well_formed(b) {
        return plain_advance(b, ticks);
    }
    in_portions(rt, b, ticks, record)
}

pub(crate) fn walked(rt: &HostRuntime, b: Board, call: Call, record: u64) -> Turn
    ensures { result ≡ turn_of b call }
{
    match call {
        Call::Advance { ticks } => advanced(rt, b, ticks, record),
        _ => plain::step(b, call),
    }
}

// A board's calls by value, each by the number of its kind in a log, all by the plain engine.
ghost use Rattle.std.specs.Prelude.{◌≡◌};
ghost use Rattle.board.specs.Numbers.{named_by};
ghost use Rattle.board.specs.State.{refused as refused_turn};
ghost use Rattle.nataqvoju_plain.specs.Kinds.{called_of};

use answers::{Answer, Refusal};
use board::{Board, Call, CallNumbers, Turn};
use settings::Settings;

// Not the board's own: the plain engine's library shares no code with it.
fn refused(b: Board, refusal: Refusal) -> Turn
    ensures { result ≡ refused_turn b refusal }
{
    Turn {
        board: b,
        answer: Answer::Refused(refusal),
    }
}

/// The call that the numbers are.
// Not the board's `Call::try_from`: a test bench sets this library beside the board's own entries, so it reads a call's
// numbers by code of its own.
#[tactic(auto, unfolding(board::specs::Numbers::named_by))]
fn named(numbers: CallNumbers) -> Result<Call, Refusal>
    ensures { result ≡ named_by numbers }
{
    let CallNumbers { kind, p, q, r, s } = numbers;
    match kind {
        1 => Ok(Call::Read {
            window: p,
            width: q,
            offset: r,
        }),
        2 => Ok(Call::Write {
            window: p,
            width: q,
            offset: r,
            value: s,
        }),
        3 => Ok(Call::Wire { pin: p, level: q }),
        4 => Ok(Call::End {
            vector: (p % 256) as u8,
        }),
        5 => Ok(Call::Advance {
            ticks: (p % 4294967296) as u32,
        }),
        6 => Ok(Call::Deliver),
        7 => Ok(Call::Reset {
            settings: Settings::standard(),
        }),
        _ => Err(Refusal::Kind),
    }
}

/// Refusal 5 is tested first, for an unknown kind too.
pub fn call(b: Board, numbers: CallNumbers) -> Turn
    ensures { result ≡ called_of b numbers.kind numbers.p numbers.q numbers.r numbers.s }
{
    match named(numbers) {
        Ok(call) => plain::step(b, call),
        Err(refusal) => {
            if plain::well_formed(b) {
                refused(b, refusal)
            } else {
                refused(b, Refusal::State)
            }
        }
    }
}

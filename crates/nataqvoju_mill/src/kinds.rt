// A mill's calls by value, each by the number of its kind: the board's, then those that no log has. A reset by a lent
// settings record is a call of its own.
ghost use Rattle.std.specs.Prelude.{◌≡◌};
ghost use Rattle.settings.specs.Record.{reading_of};
ghost use Rattle.nataqvoju_mill.specs.Kinds.{named_by, called_of};
ghost use Rattle.nataqvoju_mill.specs.Reset.{reset_with};

use answers::Refusal;
use board::{Call, CallNumbers};
use mill::{Mill, MillCall, MillTurn};
use settings::Settings;

/// The call that the numbers are.
#[tactic(auto, unfolding(crate::specs::Kinds::named_by))]
fn named(numbers: CallNumbers) -> Result<MillCall, Refusal>
    ensures { result ≡ named_by numbers }
{
    Ok(match numbers.kind {
        8 => MillCall::Tell { pin: numbers.p },
        9 => MillCall::Resume,
        _ => MillCall::Board {
            call: Call::try_from(numbers)?,
        },
    })
}

/// Refusal 5 is tested first, for an unknown kind too.
pub fn call(m: Mill, numbers: CallNumbers) -> MillTurn
    ensures { result ≡ called_of m numbers.kind numbers.p numbers.q numbers.r numbers.s }
{
    match named(numbers) {
        Ok(call) => m.step(call),
        Err(refusal) => {
            if m.well_formed() {
                m.refused(refusal)
            } else {
                m.refused(Refusal::State)
            }
        }
    }
}

/// A reset by what the settings' reader gave: its refusal leaves the mill.
// As `reset_with` of nataqvoju, and not generic: see `left` in lib.rt.
pub fn reset_with(m: Mill, read: Result<Settings, Refusal>) -> MillTurn
    ensures { result ≡ reset_with m (reading_of read) }
{
    match read {
        Ok(settings) => m.renew(settings),
        Err(refusal) => m.refused(refusal),
    }
}

// The monitor's entry to a mill: the mill lent by the monitor and changed where it lies, by one function over a call's
// kind, and by one for a reset with settings. Every byte pattern of the lent memory is a mill: one that is not well
// formed gets 5 and stays as it is, unless the call is a reset.
//
// It is a library of its own, beside the board's entries: compiled with them, what both call would be copied into
// neither, and the board's calls would be slower.
#![tactic(auto)]

mod kinds;

ghost use Rattle.nataqvoju_mill.specs.Kinds.{called_of};
ghost use Rattle.nataqvoju_mill.specs.Lent.{Gives};
ghost use Rattle.nataqvoju_mill.specs.Reset.{reset_by};

use answers::{Answer, Numbers};
use board::CallNumbers;
use mill::{Mill, MillTurn};
use settings::Settings;

/// The lent mill is left as the turn's, and the numbers are those of its answer.
// As `left` of nataqvoju, and not generic: a trait that `Turn` and `MillTurn` have in common would be longer.
fn left(m: &mut Mill, turn: MillTurn) -> Numbers
    ensures { Gives turn m.new result }
{
    *m = turn.mill;
    Numbers::from(turn.answer)
}

// document 01's reset
const RESET: u64 = 7;

/// A call's kind, and the four numbers that go with it.
#[unsafe(no_mangle)]
pub extern "C" fn nataqvoju_mill(m: &mut Mill, kind: u64, p: u64, q: u64, r: u64, s: u64) -> Numbers
    ensures { Gives (called_of m.old kind p q r s) m.new result }
{
    // Where it lies: by value the mill that is thrown away would be copied.
    if kind == RESET {
        *m = Mill::reset();
        return Numbers::from(Answer::Done);
    }
    let turn = kinds::call(*m, CallNumbers { kind, p, q, r, s });
    left(m, turn)
}

/// A reset by a lent settings record, whatever was there. A record that the reader refuses leaves the mill.
#[tactic(auto, unfolding(crate::specs::Reset::reset_by))]
#[unsafe(no_mangle)]
pub extern "C" fn nataqvoju_mill_reset_settings(m: &mut Mill, bytes: &[u8]) -> Numbers
    ensures { Gives (reset_by m.old bytes.now) m.new result }
{
    let turn = kinds::reset_with(*m, Settings::accepted(bytes));
    left(m, turn)
}

// The plain engine from C or Rust, for a test bench that sets it beside the board's own entries (crate nataqvoju) or
// beside an engine of its own: the board lent by the bench and changed where it lies, by one function over a call's
// kind.
// Every byte pattern of the lent memory is a board: one that is not well formed gets 5 and stays as it is.
//
// It is a library of its own: who wants the board's entries alone gets no second engine with them.
#![tactic(auto)]

mod kinds;

ghost use Rattle.nataqvoju_plain.specs.Kinds.{called_of};
ghost use Rattle.nataqvoju_plain.specs.Lent.{Gives};

use answers::Numbers;
use board::{Board, CallNumbers};

/// A call's kind, and the four numbers that go with it.
#[unsafe(no_mangle)]
pub extern "C" fn nataqvoju_plain(
    b: &mut Board,
    kind: u64,
    p: u64,
    q: u64,
    r: u64,
    s: u64,
) -> Numbers
    ensures { Gives (called_of b.old kind p q r s) b.new result }
{
    let turn = kinds::call(*b, CallNumbers { kind, p, q, r, s });
    *b = turn.board;
    Numbers::from(turn.answer)
}

// Two engines compared (document 02, K3): two turns of a board are the same where the answers are, and the boards after
// them, field by field. That both engines make the same turn of any board and call is proofs/Engines.antt.
#![tactic(auto)]

ghost use Rattle.std.specs.Prelude.{◌≡◌};
ghost use Rattle.compare.specs.Same.{same_turn};

use board::Turn;

/// Whether two turns are the same: the answers, and the boards.
pub fn same(x: Turn, y: Turn) -> bool
    ensures { result ≡ same_turn x y }
{
    x == y
}

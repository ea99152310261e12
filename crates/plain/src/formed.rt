// "Well formed", the board's part.
ghost use Rattle.std.specs.Prelude.{◌≡◌, nat_eq, slice_index};
ghost use Rattle.pins.specs.Pins.{every};
ghost use Rattle.entries.specs.Table.{levels_ok};
ghost use Rattle.board.specs.Formed.{well_formed};

use crate::wires::wires;
use board::Board;

// "… outside wire levels are 0 or 1, …"
fn outside_ok(outside: [u8; 24]) -> bool
    ensures { result ≡ levels_ok outside }
{
    for i in 0..24 {
        if 1 < outside[i] {
            return false;
        }
    }
    true
}

// "… a pin level kept on the board is the one the wire rule gives; …"
#[tactic(auto, using(crate::proofs::Kept::same_lists))]
fn kept(level: [u8; 24], wires: [u8; 24]) -> bool
    ensures { result ≡ every (λ i. nat_eq (slice_index level i) (slice_index wires i)) }
{
    level == wires
}

// "Well formed": the controller's part, the timers' part, the outside wires and the kept pin levels.
pub fn well_formed(b: Board) -> bool
    ensures { result ≡ well_formed b }
{
    plain_controller::well_formed(b.controller)
        & (plain_timers::well_formed(b.timers)
            & (outside_ok(b.outside)
                & kept(b.controller.entries.level, wires(b.outside, b.timers))))
}

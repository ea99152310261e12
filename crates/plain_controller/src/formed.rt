// "Well formed", the controller's part.
ghost use Rattle.std.specs.Prelude.{◌≡◌};
ghost use Rattle.entries.specs.Table.{entries_ok};
ghost use Rattle.controller.specs.State.{well_formed};

use crate::pin::pin_ok;
use controller::Controller;
use entries::Entries;

// "… no edge held on a level pin; stored entry words contain writable bits only, beside remote IRR; …", at each of
// the 24 pins.
#[tactic(auto, unfolding(entries::specs::Table::entries_ok, pins::specs::Pins::all_from))]
fn entries_ok(e: Entries) -> bool
    ensures { result ≡ entries_ok e }
{
    for i in 0..24 {
        if !pin_ok(e.low[i], e.level[i], e.held[i]) {
            return false;
        }
    }
    true
}

// "Well formed: controller id at most 15, index at most 255; …"
#[tactic(auto, unfolding(controller::specs::State::well_formed))]
pub fn well_formed(c: Controller) -> bool
    ensures { result ≡ well_formed c }
{
    c.id <= 15 && c.index <= 255 && entries_ok(c.entries)
}

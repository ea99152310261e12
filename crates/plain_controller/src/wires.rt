// "Edges. After every step other than a low-word write, each unmasked edge pin that went from not asserted to asserted
// holds an edge."
ghost use Rattle.std.specs.Prelude.{◌≡◌};
ghost use Rattle.entries.specs.Table.{wired};
ghost use Rattle.controller.specs.Steps.{rewired};

use crate::pin::held_after;
use controller::Controller;
use entries::Entries;
use std::array;

// The wires change to these levels, all at once.
fn wired(e: Entries, levels: [u8; 24]) -> Entries
    ensures { result ≡ wired e levels }
{
    let low = e.low;
    let level = e.level;
    let held = e.held;
    Entries {
        held: array::from_fn(|i| held_after(low[i], level[i], levels[i], held[i])),
        level: levels,
        ..e
    }
}

// The controller after a step that leaves the wires at these levels: "After every step other than a low-word write,
// each unmasked edge pin that went from not asserted to asserted holds an edge."
pub fn rewired(c: Controller, levels: [u8; 24]) -> Controller
    ensures { result ≡ rewired c levels }
{
    Controller {
        entries: wired(c.entries, levels),
        ..c
    }
}

// The wires of the pins change.
ghost use Rattle.std.specs.Prelude.{◌≡◌};
ghost use Rattle.entries.specs.Table.{wired};
ghost use Rattle.entries.specs.Inner.{edge_pins, active_lows};

use crate::pin::held_by;
use crate::{Entries, Low};
use std::array;

impl Entries {
    // Which pins take edges, and which are active low, a byte each: the words are taken apart in vectors of their own
    // width.
    fn edge_pins(low: [u32; 24]) -> [u8; 24]
        ensures { result ≡ edge_pins low }
    {
        array::from_fn(|i| Low(low[i]).takes_edges() as u8)
    }

    fn active_lows(low: [u32; 24]) -> [u8; 24]
        ensures { result ≡ active_lows low }
    {
        array::from_fn(|i| Low(low[i]).active_low())
    }

    pub fn wired(self, levels: [u8; 24]) -> Entries
        ensures { result ≡ wired self levels }
    {
        let low = self.low;
        let level = self.level;
        let edges = Entries::edge_pins(low);
        let lows = Entries::active_lows(low);
        let held = self.held;
        Entries {
            level: levels,
            held: array::from_fn(|i| held_by(edges[i], lows[i], level[i], levels[i], held[i])),
            ..self
        }
    }
}

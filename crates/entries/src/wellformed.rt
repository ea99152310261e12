// Whether the entries are well formed.
ghost use Rattle.std.specs.Prelude.{◌≡◌};
ghost use Rattle.entries.specs.Table.{entries_ok, levels_ok};
ghost use Rattle.entries.specs.Inner.{words_ok, edges_ok};

use crate::{Entries, Low};

impl Entries {
    fn words_ok(low: [u32; 24]) -> bool
        ensures { result ≡ words_ok low }
    {
        let mut ok = true;
        for word in low {
            ok &= Low(word).word_ok();
        }
        ok
    }

    // Held edges are 0 or 1, and 0 on a level pin: one comparison for both.
    fn edges_ok(low: [u32; 24], held: [u8; 24]) -> bool
        ensures { result ≡ edges_ok low held }
    {
        let mut ok = true;
        for i in 0..Entries::PINS {
            ok &= held[i] <= (!Low(low[i]).is_level()) as u8;
        }
        ok
    }

    /// A test of its own for each kind of part, so that each loop is worked out in vectors of one width.
    // `&=` and no `all`: a loop that may end early is not worked out in vectors.
    pub fn well_formed(self) -> bool
        ensures { result ≡ entries_ok self }
    {
        let low = self.low;
        let level = self.level;
        let held = self.held;
        Entries::words_ok(low) & (Entries::edges_ok(low, held) & Entries::levels_ok(level))
    }

    pub fn levels_ok(levels: [u8; 24]) -> bool
        ensures { result ≡ levels_ok levels }
    {
        let mut ok = true;
        for level in levels {
            ok &= level <= 1;
        }
        ok
    }
}

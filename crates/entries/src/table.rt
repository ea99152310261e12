// The 24 entries, and what each step makes of them.
ghost use Rattle.std.specs.Prelude.{◌≡◌};
ghost use Rattle.entries.specs.Table.{reset_entries, destination_at, ended, low_shown, high_shown, low_written, high_written};

use crate::{Entries, EntryDecision, Low};
use std::array;

impl Entries {
    pub const PINS: usize = 24;

    // a high word's destination: bits 31:24, writable
    pub const DESTINATION_AT: u32 = 24;

    pub fn reset() -> Entries
        ensures { result ≡ reset_entries }
    {
        Entries {
            low: [Low::RESET; 24],
            destination: [0; 24],
            level: [0; 24],
            held: [0; 24],
        }
    }

    pub fn ended(self, vector: u8) -> Entries
        ensures { result ≡ ended self vector }
    {
        let low = self.low;
        Entries {
            low: array::from_fn(|i| Low(low[i]).ended(vector)),
            ..self
        }
    }

    // There is no pin above 23: from here on its words read as 0, and nothing changes.

    fn destination_at(self, n: usize) -> u8
        ensures { result ≡ destination_at self n }
    {
        let destination = self.destination;
        destination.get(n).copied().unwrap_or(0)
    }

    pub fn low_shown(self, n: usize) -> u32
        ensures { result ≡ low_shown self n }
    {
        if Entries::PINS <= n {
            return 0;
        }
        let words = self.low;
        let level = self.level;
        let held = self.held;
        let low = Low(words[n]);
        low.shown(low.eligible(level[n], held[n]))
    }

    pub fn high_shown(self, n: usize) -> u32
        ensures { result ≡ high_shown self n }
    {
        (self.destination_at(n) as u32) << Entries::DESTINATION_AT
    }

    // `n, value` stay two parameters, here and below: what is written and where, as specs/Table.antt#low_written says.
    pub fn low_written(self, n: usize, value: u32) -> Entries
        ensures { result ≡ low_written self n value }
    {
        let low = self.low;
        let held = self.held;
        self.renewed(EntryDecision::write(n, value, &low, &held))
    }

    pub fn high_written(self, n: usize, value: u32) -> Entries
        ensures { result ≡ high_written self n value }
    {
        if Entries::PINS <= n {
            return self;
        }
        let mut destination = self.destination;
        destination[n] = (value >> Entries::DESTINATION_AT) as u8;
        Entries {
            destination,
            ..self
        }
    }
}

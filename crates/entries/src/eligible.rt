// The eligible pins as one number, and the lowest of them: its trailing zeros.
ghost use Rattle.std.specs.Prelude.{◌≡◌, ◌≤◌, ◌*◌};
ghost use mir.Val.{bool_byte};
ghost use Rattle.pins.specs.Pins.{bits_from, pin_at};
ghost use Rattle.entries.specs.Pin.{eligible};
ghost use Rattle.entries.specs.Table.{first_eligible};
ghost use Rattle.entries.specs.Inner.{eligible_pins, edge_eligible, level_eligible, key_of, keys_of, eligible_by_key};

use crate::{Entries, Low};
use std::array;

// Bits 16:1 of a low word: all of the word that decides whether its pin is eligible. With half the width twice as many
// fit the processor's vectors; docs/BENCHMARKS.md has what other forms cost. Arrays hold plain u16, not `Key`.
#[derive(Clone, Copy)]
struct Key(u16);

impl Key {
    // ---- its bits: the low word's, a place lower

    // 12 active low
    const ACTIVE_LOW_AT: u32 = 12;
    // 15 mask, 14 level, 9:7 delivery mode: all 0 in an eligible edge entry
    const EDGE: u16 = 0xc380;
    // these and 13 remote IRR: all 0 but 14 in an eligible level entry
    const LEVEL: u16 = 0xe380;
    // 14 alone
    const LEVEL_ALONE: u16 = 0x4000;

    // Neither mask has a bit below 7. A bit that stands in the way makes this sum 128 or more, whatever is held.
    fn by_edge(self, held: u8) -> bool
        ensures { result ≡ edge_eligible (self.0 * 2) held }
    {
        (self.0 & Key::EDGE) + held as u16 == 1
    }

    // A bit that stands in the way, a missing level bit too, makes the left side 128 or more. The right side is 0 where
    // the pin is not asserted, and 3 at most. A level that is neither 0 nor 1 differs from either polarity, as 2 does.
    fn by_level(self, level: u8) -> bool
        ensures { result ≡ level_eligible (self.0 * 2) level }
    {
        let differs = level.min(2) as u16 ^ ((self.0 >> Key::ACTIVE_LOW_AT) & 1);
        (self.0 & Key::LEVEL) ^ Key::LEVEL_ALONE < differs
    }

    // 0 or 1, to be shifted to its pin's place.
    fn eligible(self, level: u8, held: u8) -> u16
        ensures { result ≡ bool_byte (eligible (self.0 * 2) level held) }
    {
        self.by_edge(held) as u16 | self.by_level(level) as u16
    }
}

impl Low {
    // its key: bits 16:1, shifted down
    const KEY_AT: u32 = 1;

    const KEY: u32 = 0xffff;

    #[tactic(auto, unfolding(crate::specs::Inner::key_of))]
    fn key(self) -> u16
        ensures { result ≡ key_of self.0 }
    {
        ((self.0 >> Low::KEY_AT) & Low::KEY) as u16
    }
}

impl Entries {
    // bit 24, after the last pin's
    const AFTER: u32 = 0x0100_0000;

    fn keys(low: [u32; 24]) -> [u16; 24]
        ensures { result ≡ keys_of low }
    {
        // Not low.map(..), which is not worked in vectors: a delivery took twice as long.
        array::from_fn(|i| Low(low[i]).key())
    }

    // Pins from `at` on, the lowest in bit 0.
    fn sixteen_from(keys: [u16; 24], level: [u8; 24], held: [u8; 24], at: usize) -> u16
        requires { at ≤ 8 }
        ensures { result ≡ bits_from (eligible_by_key keys level held) at 16 }
    {
        let mut mask: u16 = 0;
        for i in 0..16 {
            mask |= Key(keys[at + i]).eligible(level[at + i], held[at + i]) << (i as u32);
        }
        mask
    }

    /// Pins 8 to 15 stand in both. docs/BENCHMARKS.md has other ways to part the pins.
    pub fn eligible_pins(self) -> u32
        ensures { result ≡ eligible_pins self }
    {
        let low = self.low;
        let keys = Entries::keys(low);
        let level = self.level;
        let held = self.held;
        let first = Entries::sixteen_from(keys, level, held, 0);
        let last = Entries::sixteen_from(keys, level, held, 8);
        first as u32 | (last as u32) << 8
    }

    /// The lowest-numbered eligible pin, if any is. With bit 24 put in, the count is 24 where none is.
    pub fn first_eligible(self) -> Option<usize>
        ensures { result ≡ pin_at (first_eligible self) }
    {
        let pin = u32::trailing_zeros(self.eligible_pins() | Entries::AFTER) as usize;
        if pin < Entries::PINS { Some(pin) } else { None }
    }
}

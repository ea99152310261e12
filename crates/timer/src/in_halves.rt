// Registers in halves.
ghost use Rattle.std.specs.Prelude.{◌≡◌};
ghost use Rattle.timer.specs.Halves.{half_of, replaced};

use crate::Half;

impl Half {
    /// A half has so many bits.
    pub const BITS: u64 = 32;
    /// bits 31:0
    pub const LOW_BITS: u64 = 0x00000000FFFFFFFF;

    /// This half of a number.
    pub fn of(self, x: u64) -> u64
        ensures { result ≡ half_of self x }
    {
        match self {
            Half::Low => x & Half::LOW_BITS,
            Half::High => x >> Half::BITS,
        }
    }

    /// A number with this half replaced.
    pub fn replaced(self, x: u64, value: u32) -> u64
        ensures { result ≡ replaced self x value }
    {
        let v = u64::from(value);
        match self {
            Half::Low => ((x >> Half::BITS) << Half::BITS) | v,
            Half::High => (v << Half::BITS) | (x & Half::LOW_BITS),
        }
    }
}

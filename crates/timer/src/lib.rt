// One timer of the block, by value: its registers, its firing, and many ticks of it at once.
#![tactic(auto)]

mod in_halves;
mod mask;
mod registers;
mod tick;

ghost use Rattle.std.specs.Prelude.{◌≡◌, ◌/◌, ◌%◌, ◌^◌, if◌then◌else◌};
ghost use Rattle.timer.specs.State.{reduced, blank, reset_timer};
ghost use Rattle.timer.specs.Formed.{narrow_fits, timer_formed};
ghost use Rattle.timer.specs.Mask.{in_mask};
ghost use Rattle.timer.specs.Registers.{bit, placed};
ghost use Rattle.timer.specs.Closed.{times};

use settings::Settings;

// Flags are numbers, 0 or 1, and no bools: any byte pattern of lent memory is a timer, and one with another value is
// not well formed. No byte of it is padding.
#[repr(C)]
#[derive(Clone, Copy, Default, PartialEq, Eq)]
pub struct Timer {
    pub comparator: u64,
    pub period: u64,
    // the pin that it is routed to
    pub route: u16,
    pub level_type: u8,
    pub interrupt: u8,
    pub periodic: u8,
    pub set_comparator: u8,
    // 32-bit mode
    pub narrow: u8,
    pub status: u8,
}

// Which half of a register a 4-byte access names: bits 31:0 or bits 63:32.
#[derive(Clone, Copy)]
pub enum Half {
    Low,
    High,
}

// A timer after many ticks: itself, how often it fired, and at which tick first, from 1 (0: not at all).
// 0, and no Option: so `run_of` says it (specs/Alone.antt#begun), which the clause of `ran` names.
#[derive(Clone, Copy)]
pub struct Run {
    pub timer: Timer,
    pub fired: u32,
    pub first: u32,
}

// x, in 32-bit mode modulo 2^32.
#[tactic(auto, unfolding(crate::specs::State::reduced))]
fn reduced(narrow: bool, x: u64) -> u64
    ensures { result ≡ reduced narrow x }
{
    if narrow { x % Timer::NARROW_END } else { x }
}

/// Bit k of v: a number of 64 bits has none above 63.
pub fn bit(v: u64, k: u32) -> u8
    ensures { result ≡ bit k v }
{
    (v.checked_shr(k).unwrap_or(0) & 1) as u8
}

/// Bit k by itself, where the flag is set; modulo 2^64, which takes a bit above 63 away.
pub fn placed(f: u8, k: u32) -> u64
    ensures { result ≡ placed k f % 2 ^ 64 }
{
    u64::from(f == 1).checked_shl(k).unwrap_or(0)
}

// How often a timer fires in n ticks whose first firing is due in d, and that then goes on by s. 0 is no tick and no
// step, and stands for none in specs/Closed.antt#times too.
fn firings(d: u64, s: u64, n: u32) -> u64
    ensures { result ≡ times d s n }
{
    if d == 0 {
        return 0;
    }
    let m = u64::from(n);
    if m < d {
        return 0;
    }
    if s == 0 {
        return 1;
    }
    1 + (m - d) / s
}

// The route that a write to the configuration leaves.
fn routed(mask: u32, v: u64, old: u16) -> u16
    ensures { result ≡ (if in_mask mask (v / 2 ^ 9 % 2 ^ 5) then v / 2 ^ 9 % 2 ^ 5 else old) }
{
    let x = ((v >> Timer::ROUTE) & Timer::ROUTE_MASK) as u16;
    if mask::has(mask, x) { x } else { old }
}

impl Timer {
    // ---- the configuration register, by bit position
    // Numbers, and no enum: the places of bits, by which the register is shifted.

    // 1 level type, writable
    pub const LEVEL_TYPE: u32 = 1;
    // 2 interrupt enable, writable
    pub const INTERRUPT: u32 = 2;
    // 3 periodic, writable
    pub const PERIODIC: u32 = 3;
    // 6 set-comparator, writable: kept only if bit 3 is written 1
    pub const SET_COMPARATOR: u32 = 6;
    // 8 32-bit mode, writable
    pub const NARROW: u32 = 8;
    // 13:9 route, writable: one outside the mask keeps the old one
    pub const ROUTE: u64 = 9;
    // its five bits, shifted down
    pub const ROUTE_MASK: u64 = 0x1F;
    // bits 5 and 4 read 1
    pub const CAPABLE: u64 = 0x30;
    // bits 63:32 read the mask
    pub const MASK: u64 = 32;

    // ---- ranges

    // a route is one of so many pins
    pub const PINS: u16 = 24;
    // 2^32: in 32-bit mode comparator and period are below it
    pub const NARROW_END: u64 = 4294967296;

    // ---- reset

    pub const RESET_COMPARATOR: u64 = 0xFFFFFFFFFFFFFFFF;

    /// Every number 0.
    pub fn blank() -> Timer
        ensures { result ≡ blank }
    {
        Timer::default()
    }

    /// Everything writable 0, except the comparator and the route, which is its mask's lowest pin.
    #[tactic(auto, unfolding(crate::specs::State::reset_timer))]
    pub fn reset(mask: u32) -> Timer
        ensures { result ≡ reset_timer mask }
    {
        Timer {
            comparator: Timer::RESET_COMPARATOR,
            route: mask::lowest(mask),
            ..Timer::blank()
        }
    }

    #[tactic(auto, unfolding(crate::specs::Formed::narrow_fits))]
    fn narrow_fits(self) -> bool
        ensures { result ≡ narrow_fits self }
    {
        (self.narrow == 0)
            | ((self.comparator < Timer::NARROW_END) & (self.period < Timer::NARROW_END))
    }

    /// With this mask. Every call tests this: a bit that is 1 only beside another is compared with it, and a mask
    /// that has the route isn't 0.
    pub fn well_formed(self, mask: u32) -> bool
        ensures { result ≡ timer_formed mask self }
    {
        let flags = (self.level_type <= 1)
            & ((self.interrupt <= 1) & ((self.periodic <= 1) & (self.narrow <= 1)));
        let paired = (self.set_comparator <= self.periodic) & (self.status <= self.level_type);
        let routed = (mask < Settings::MASK_END) & mask::has(mask, self.route);
        paired & (self.narrow_fits() & (routed & flags))
    }
}

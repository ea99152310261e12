// "Timer registers in halves" (document 02, K1).
ghost use Rattle.std.specs.Prelude.{◌≡◌, ◌^◌, ◌<◌, ◌≢◌};
ghost use Rattle.timer.specs.Halves.{half_of};
ghost use Rattle.timer.specs.Halves.{replaced as replaced_in};
ghost use Rattle.timer.specs.Registers.{half_compared_of};
ghost use Rattle.timers.specs.Registers.{half_at, half_written, shown_of, stored_of};

use crate::registers::set;
use crate::window::{register, register_written, with_timer};
use timer::{Half, Timer};
use timers::Timers;

// Which half a 4-byte access names: the low half stands at a multiple of 8, the high half 4 above.
fn half_at(offset: u64) -> Half
    ensures { result ≡ half_at offset }
{
    if offset % 8 == 0 {
        Half::Low
    } else {
        Half::High
    }
}

// "A half read gives that half of the 8-byte value."
fn half_of(half: Half, x: u64) -> u64
    ensures { result ≡ half_of half x }
{
    match half {
        Half::Low => x % 4294967296,
        Half::High => x / 4294967296,
    }
}

// "A half write replaces that half …": x with one half replaced.
fn replaced(half: Half, x: u64, value: u32) -> u64
    ensures { result ≡ replaced_in half x value }
{
    match half {
        Half::Low => x / 4294967296 * 4294967296 + value as u64,
        Half::High => value as u64 * 4294967296 + x % 4294967296,
    }
}

// What a read gives: at width 8 the whole register, at width 4 a half. "A half read gives that half of the 8-byte
// value."
#[tactic(auto, unfolding(timers::specs::Registers::shown_of))]
pub(crate) fn shown(s: Timers, width: u64, offset: u64) -> u64
    ensures { result ≡ shown_of s width offset }
{
    if width == 8 {
        register(s, offset)
    } else {
        half_of(half_at(offset), register(s, offset - offset % 8))
    }
}

// "For a comparator, the half is replaced in whatever the whole write would set: comparator, period or both. Bit 6
// clears at the first half. A high half in 32-bit mode stores 0." Both come about in `set`: each half write is a
// write, and so it is the first one that sets bit 6 to 0; and in 32-bit mode the number with its half replaced is
// reduced modulo 2^32, which leaves 0 as its high half.
fn half_compared(t: Timer, half: Half, value: u32) -> Timer
    ensures { result ≡ half_compared_of t half value }
{
    set(
        t,
        replaced(half, t.comparator, value),
        replaced(half, t.period, value),
    )
}

// "A half write replaces that half of a counter or configuration and then follows the rule for the whole register; a
// status write takes the missing half as zeros." The offset is the whole register's.
#[tactic(auto, using(crate::proofs::Cases::replaces), unfolding(timers::specs::Registers::half_written))]
fn half_written(s: Timers, half: Half, offset: u64, value: u32) -> Timers
    ensures { result ≡ half_written s half offset value }
{
    match offset {
        0x020 => register_written(s, offset, replaced(half, 0, value)),
        0x108 => with_timer(s, 0, half_compared(s.timer[0], half, value)),
        0x128 => with_timer(s, 1, half_compared(s.timer[1], half, value)),
        0x148 => with_timer(s, 2, half_compared(s.timer[2], half, value)),
        _ => register_written(s, offset, replaced(half, register(s, offset), value)),
    }
}

// What a write leaves: at width 8 "the rule for the whole register", at width 4 "A half write replaces that half …".
#[tactic(auto, unfolding(timers::specs::Registers::stored_of))]
pub(crate) fn stored(s: Timers, width: u64, offset: u64, value: u64) -> Timers
    requires { (width ≢ 8) → value < 2 ^ 32 }
    ensures { result ≡ stored_of s width offset value }
{
    if width == 8 {
        register_written(s, offset, value)
    } else {
        half_written(s, half_at(offset), offset - offset % 8, value as u32)
    }
}

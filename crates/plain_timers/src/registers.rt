// One timer's registers: its configuration and its comparator.
ghost use Rattle.std.specs.Prelude.{◌≡◌, ◌/◌, ◌%◌, ◌^◌, ◌≤◌, if◌then◌else◌, ◌==◌};
ghost use mir.Val.{bool_byte};
ghost use Rattle.timer.specs.Mask.{in_mask};
ghost use Rattle.timer.specs.State.{flag};
ghost use Rattle.timer.specs.State.{reduced as reduced_to};
ghost use Rattle.timer.specs.Registers.{configuration_of, configured_of, set_of, compared_of, cleared_of};

use crate::mask::has;
use timer::Timer;

// A flag as a number.
pub(crate) fn one(flag: u8) -> u64
    ensures value { result ≡ bool_byte (flag == 1) }
    ensures upper_bound { result ≤ 1 }
{
    (flag == 1) as u64
}

// "Writable: 1 level type, 2 interrupt enable, 3 periodic, 6 set-comparator …, 8 32-bit mode, 13:9 route. Bits 5 and 4
// read 1; …; the rest read 0." Bits 63:32 read the mask (K6).
#[tactic(auto, unfolding(timer::specs::Registers::configuration_of))]
pub(crate) fn configuration(mask: u32, t: Timer) -> u64
    ensures { result ≡ configuration_of mask t }
{
    mask as u64 * 4294967296
        + (t.route as u64 * 512
            + (one(t.narrow) * 256
                + (one(t.set_comparator) * 64
                    + (48
                        + (one(t.periodic) * 8 + (one(t.interrupt) * 4 + one(t.level_type) * 2))))))
}

// x, in 32-bit mode modulo 2^32.
fn reduced(narrow: bool, x: u64) -> u64
    ensures { result ≡ reduced_to narrow x }
{
    if narrow { x % 4294967296 } else { x }
}

// "… a written route outside the mask keeps the old one" (K6); "the other bits are taken."
fn routed(mask: u32, value: u64, old: u16) -> u16
    ensures { result ≡ (if in_mask mask (value / 2 ^ 9 % 2 ^ 5) then value / 2 ^ 9 % 2 ^ 5 else old) }
{
    let route = (value / 512 % 32) as u16;
    if has(mask, route) { route } else { old }
}

// "… 6 set-comparator (kept only if bit 3 is written 1), …"
fn set_kept(value: u64) -> u8
    ensures { result ≡ (if flag (value / 2 ^ 3 % 2) then value / 2 ^ 6 % 2 else 0) }
{
    if value / 8 % 2 == 1 {
        (value / 64 % 2) as u8
    } else {
        0
    }
}

// "Writing edge type clears the status."
fn status_kept(value: u64, status: u8) -> u8
    ensures { result ≡ (if flag (value / 2 ^ 1 % 2) then status else 0) }
{
    if value / 2 % 2 == 1 { status } else { 0 }
}

// A write to its configuration register. "Writing 32-bit mode reduces comparator and period modulo 2^32."
#[tactic(auto, unfolding(timer::specs::Registers::configured_of))]
pub(crate) fn configured(mask: u32, t: Timer, value: u64) -> Timer
    ensures { result ≡ configured_of mask t value }
{
    let narrow = value / 256 % 2 == 1;
    Timer {
        comparator: reduced(narrow, t.comparator),
        period: reduced(narrow, t.period),
        route: routed(mask, value, t.route),
        level_type: (value / 2 % 2) as u8,
        interrupt: (value / 4 % 2) as u8,
        periodic: (value / 8 % 2) as u8,
        set_comparator: set_kept(value),
        narrow: (value / 256 % 2) as u8,
        status: status_kept(value, t.status),
    }
}

// A write to its comparator register, which makes one number of the comparator and one of the period: for a whole
// register they are the same. "In 32-bit mode the written number is first reduced modulo 2^32."
#[tactic(auto, unfolding(timer::specs::Registers::set_of))]
pub(crate) fn set(t: Timer, comparator: u64, period: u64) -> Timer
    ensures { result ≡ set_of t comparator period }
{
    let narrow = t.narrow == 1;
    // "One-shot: the write sets it."
    if t.periodic != 1 {
        return Timer {
            comparator: reduced(narrow, comparator),
            ..t
        };
    }
    // "Periodic: the write sets the period, and also the comparator if bit 6 is 1; bit 6 then becomes 0."
    let comparator = if t.set_comparator == 1 {
        reduced(narrow, comparator)
    } else {
        t.comparator
    };
    Timer {
        comparator,
        period: reduced(narrow, period),
        set_comparator: 0,
        ..t
    }
}

// A write to the whole comparator register: the written number is the one for the comparator and the one for the
// period.
pub(crate) fn compared(t: Timer, value: u64) -> Timer
    ensures { result ≡ compared_of t value }
{
    set(t, value, value)
}

// "Writing 1 to it clears it", where b is the bit that was written.
#[tactic(auto, unfolding(timer::specs::Registers::cleared_of))]
pub(crate) fn cleared(t: Timer, b: u64) -> Timer
    ensures { result ≡ (if flag b then cleared_of t else t) }
{
    if b == 1 { Timer { status: 0, ..t } } else { t }
}

// The window: "Width 8, offset a multiple of 8, below 0x400", and width 4 (K1).
// The block and an access's width, offset and value go together here, as the paper names them: a struct of them would
// be made in one line and taken apart in the next.
ghost use Rattle.std.specs.Prelude.{◌≡◌, ◌<◌, if◌then◌else◌};
ghost use Rattle.timer.specs.State.{reset_timer};
ghost use Rattle.timer.specs.Registers.{bit};
ghost use Rattle.timers.specs.State.{is_enabled, with_counter, with_enabled, with_timers, reset_to};
ghost use Rattle.timers.specs.State.{with_timer as replacing};
ghost use Rattle.timers.specs.Registers.{cleared_by, capabilities_of, status_of, register_of, written_of};
ghost use Rattle.timers.specs.Registers.{aligned as aligned_to};
ghost use Rattle.timers.specs.Call.{reading_of, writing_of};
ghost use Rattle.timers.specs.Call.{refused as refused_turn};

use crate::in_halves::{shown, stored};
use crate::mask::lowest;
use crate::registers::{cleared, compared, configuration, configured, one};
use answers::{Answer, Refusal};
use settings::Settings;
use timer::Timer;
use timers::{Timers, Turn};

// "Reset: everything writable 0, except comparators, which are 2^64 - 1." "… a timer's reset route is its mask's lowest
// pin, …" (K6)
#[tactic(auto, unfolding(timer::specs::State::reset_timer))]
fn reset_timer(mask: u32) -> Timer
    ensures { result ≡ reset_timer mask }
{
    Timer {
        comparator: 0xFFFFFFFFFFFFFFFF,
        period: 0,
        // A mask with no pin, which no settings in range have, leaves a route to no pin.
        route: lowest(mask).unwrap_or(24),
        level_type: 0,
        interrupt: 0,
        periodic: 0,
        set_comparator: 0,
        narrow: 0,
        status: 0,
    }
}

// "Reset: everything writable 0, …": the block, with its settings and its three timers.
#[tactic(auto, unfolding(timers::specs::State::reset_to))]
pub fn reset(settings: Settings) -> Timers
    ensures { result ≡ reset_to settings }
{
    let masks = [settings.mask0, settings.mask1, settings.mask2];
    Timers {
        counter: 0,
        tick_period: settings.period,
        vendor: settings.vendor as u32,
        masks,
        enabled: 0,
        timer: masks.map(reset_timer),
    }
}

// The block with another timer m.
#[tactic(auto, using(crate::proofs::Cases::put))]
pub(crate) fn with_timer(s: Timers, m: usize, t: Timer) -> Timers
    requires { m < 3 }
    ensures { result ≡ replacing s m t }
{
    let mut next = s;
    next.timer[m] = t;
    next
}

// "0x020: bit n is timer n's status. … Other bits read 0."
// Written out for each timer, as the paper gives each its bit: a fold over them, tried in crate timers, is not proved.
#[tactic(auto, unfolding(timers::specs::Registers::status_of))]
fn status(s: Timers) -> u64
    ensures { result ≡ status_of s }
{
    one(s.timer[2].status) * 4 + (one(s.timer[1].status) * 2 + one(s.timer[0].status))
}

// "… (period …, vendor …, 64-bit counter, three timers, revision 1)": bits 63:32 and 31:16 are the settings' (K6).
#[tactic(auto, unfolding(timers::specs::Registers::capabilities_of))]
fn capabilities(s: Timers) -> u64
    ensures { result ≡ capabilities_of s }
{
    let vendor = s.vendor % 65536;
    s.tick_period as u64 * 4294967296 + (vendor as u64 * 65536 + 0x2201)
}

// What a whole register reads. "Offsets not listed read 0 and ignore writes."
#[tactic(auto, using(crate::proofs::Cases::reads_0), unfolding(timers::specs::Registers::register_of, timers::specs::Registers::timer_register))]
pub(crate) fn register(s: Timers, offset: u64) -> u64
    ensures { result ≡ register_of s offset }
{
    match offset {
        0x000 => capabilities(s),
        0x010 => (s.enabled == 1) as u64,
        0x020 => status(s),
        0x0F0 => s.counter,
        0x100 => configuration(s.masks[0], s.timer[0]),
        0x108 => s.timer[0].comparator,
        0x120 => configuration(s.masks[1], s.timer[1]),
        0x128 => s.timer[1].comparator,
        0x140 => configuration(s.masks[2], s.timer[2]),
        0x148 => s.timer[2].comparator,
        _ => 0,
    }
}

// "0x020: bit n is timer n's status. Writing 1 to it clears it. …", at each timer.
#[tactic(auto, using(crate::proofs::Cases::low_bit))]
fn statuses_cleared(s: Timers, value: u64) -> Timers
    ensures { result ≡ with_timers s (cleared_by value s) }
{
    Timers {
        timer: [
            cleared(s.timer[0], value % 2),
            cleared(s.timer[1], value / 2 % 2),
            cleared(s.timer[2], value / 4 % 2),
        ],
        ..s
    }
}

// "0x010: bit 0 enable."
fn enabled_written(s: Timers, value: u64) -> Timers
    ensures { result ≡ with_enabled s (bit 0 value) }
{
    Timers {
        enabled: (value % 2) as u32,
        ..s
    }
}

// "0x0F0: main counter. A write while enabled is ignored."
fn counter_written(s: Timers, value: u64) -> Timers
    ensures { result ≡ (if is_enabled s then s else with_counter s value) }
{
    if s.enabled == 1 {
        s
    } else {
        Timers {
            counter: value,
            ..s
        }
    }
}

// A write to a whole register. "Offsets not listed read 0 and ignore writes."
#[tactic(auto, using(crate::proofs::Cases::ignores), unfolding(timers::specs::Registers::written_of, timers::specs::Registers::timer_written))]
pub(crate) fn register_written(s: Timers, offset: u64, value: u64) -> Timers
    ensures { result ≡ written_of s offset value }
{
    match offset {
        0x010 => enabled_written(s, value),
        0x020 => statuses_cleared(s, value),
        0x0F0 => counter_written(s, value),
        0x100 => with_timer(s, 0, configured(s.masks[0], s.timer[0], value)),
        0x108 => with_timer(s, 0, compared(s.timer[0], value)),
        0x120 => with_timer(s, 1, configured(s.masks[1], s.timer[1], value)),
        0x128 => with_timer(s, 1, compared(s.timer[1], value)),
        0x140 => with_timer(s, 2, configured(s.masks[2], s.timer[2], value)),
        0x148 => with_timer(s, 2, compared(s.timer[2], value)),
        _ => s,
    }
}

// ---- the calls

// A refusal is the answer, and the timers stay: "same state".
fn refused(s: Timers, refusal: Refusal) -> Turn
    ensures { result ≡ refused_turn s refusal }
{
    Turn {
        timers: s,
        answer: Answer::Refused(refusal),
    }
}

// "2 is now given at the timers for any width but 4 and 8, or an offset that isn't a multiple of the width."
fn aligned(width: u64, offset: u64) -> bool
    ensures { result ≡ aligned_to width offset }
{
    match width {
        4 => offset % 4 == 0,
        8 => offset % 8 == 0,
        _ => false,
    }
}

// "An access then tests … 2, 1 for the offset, …": "Width or alignment wrong: 2; 0x400 and above: 1."
#[tactic(auto, unfolding(timers::specs::Call::reading_of))]
pub fn reading(s: Timers, width: u64, offset: u64) -> Turn
    ensures { result ≡ reading_of s width offset }
{
    if !aligned(width, offset) {
        return refused(s, Refusal::Width);
    }
    if 0x400 <= offset {
        return refused(s, Refusal::Offset);
    }
    Turn {
        timers: s,
        answer: Answer::Value(shown(s, width, offset)),
    }
}

// "An access then tests … 2, 1 for the offset, 4."
#[tactic(auto, unfolding(timers::specs::Call::writing_of))]
pub fn writing(s: Timers, width: u64, offset: u64, value: u64) -> Turn
    ensures { result ≡ writing_of s width offset value }
{
    if !aligned(width, offset) {
        return refused(s, Refusal::Width);
    }
    if 0x400 <= offset {
        return refused(s, Refusal::Offset);
    }
    if (width == 4) & (4294967295 < value) {
        return refused(s, Refusal::Value);
    }
    Turn {
        timers: stored(s, width, offset, value),
        answer: Answer::Done,
    }
}

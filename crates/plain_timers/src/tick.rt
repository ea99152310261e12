// "One tick", what one timer does in it.
ghost use Rattle.std.specs.Prelude.{◌≡◌, ◌+◌, ◌%◌, ◌^◌, ◌&&◌, if◌then◌else◌, Some, None};
ghost use Rattle.timer.specs.State.{flag, width, narrowed};
ghost use Rattle.timer.specs.Inner.{holding};
ghost use Rattle.timer.specs.Tick.{meets as meets_at, firing, pulsing};
ghost use Rattle.timers.specs.State.{is_enabled};

use timer::Timer;
use timers::Timers;

// "… a timer fires if counter and comparator are equal (in 32-bit mode, modulo 2^32)."
#[tactic(auto, unfolding(timer::specs::Tick::meets))]
pub fn meets(counter: u64, t: Timer) -> bool
    ensures { result ≡ meets_at counter t }
{
    if t.narrow == 1 {
        counter % 4294967296 == t.comparator % 4294967296
    } else {
        counter == t.comparator
    }
}

// "A firing periodic timer's comparator goes up by its period, wrapping at its width."
fn comparator_after(t: Timer) -> u64
    ensures { result ≡ (if flag t.periodic then (t.comparator + t.period) % 2 ^ width (narrowed t) else t.comparator) }
{
    if t.periodic != 1 {
        return t.comparator;
    }
    let sum = t.comparator.wrapping_add(t.period);
    if t.narrow == 1 { sum % 4294967296 } else { sum }
}

// "A firing level timer sets its status, even with its interrupt disabled."
fn status_after(t: Timer) -> u8
    ensures { result ≡ (if flag t.level_type then 1 else t.status) }
{
    if t.level_type == 1 { 1 } else { t.status }
}

// What a firing leaves of the timer: its comparator and its status, each by its sentence above.
#[tactic(auto, unfolding(timer::specs::Tick::firing))]
pub fn fired(t: Timer) -> Timer
    ensures { result ≡ firing t }
{
    Timer {
        comparator: comparator_after(t),
        status: status_after(t),
        ..t
    }
}

// Whether a firing makes a pulse: "A firing edge timer with its interrupt enabled raises the wire of its pin and
// drops it again, two steps."
#[tactic(auto, unfolding(timer::specs::Tick::pulsing))]
pub fn pulses(t: Timer) -> bool
    ensures { result ≡ pulsing t }
{
    t.level_type != 1 && t.interrupt == 1
}

// The pin whose wire the timer holds high: "… some timer routed there has level type, interrupt enable and status, with
// the block enabled, …".
#[tactic(auto, unfolding(timer::specs::Inner::holding))]
pub fn driven(s: Timers, t: Timer) -> Option<u16>
    ensures { result ≡ (if is_enabled s && holding t then Some t.route else None) }
{
    if s.enabled == 1 && t.level_type == 1 && t.interrupt == 1 && t.status == 1 {
        Some(t.route)
    } else {
        None
    }
}

// "Well formed", the timers' part.
ghost use Rattle.std.specs.Prelude.{◌≡◌};
ghost use Rattle.timer.specs.Formed.{flags_fit, narrow_fits, timer_formed};
ghost use Rattle.settings.specs.Settings.{mask_ok};
ghost use Rattle.timers.specs.Formed.{settings_fit, well_formed};

use crate::mask::has;
use timer::Timer;
use timers::Timers;

// "… any other kept number fits its register or setting.": flags are 0 or 1.
#[tactic(auto, unfolding(timer::specs::Formed::flags_fit))]
fn flags_fit(t: Timer) -> bool
    ensures { result ≡ flags_fit t }
{
    (t.level_type <= 1)
        & ((t.interrupt <= 1)
            & ((t.periodic <= 1) & ((t.set_comparator <= 1) & ((t.narrow <= 1) & (t.status <= 1)))))
}

// "… its comparator and period are below 2^32 in 32-bit mode; …"
#[tactic(auto, unfolding(timer::specs::Formed::narrow_fits))]
fn narrow_fits(t: Timer) -> bool
    ensures { result ≡ narrow_fits t }
{
    (t.narrow == 0) | ((t.comparator < 4294967296) & (t.period < 4294967296))
}

// "… each mask is nonzero and below 2^24, …" (K6)
#[tactic(auto, unfolding(settings::specs::Settings::mask_ok))]
pub fn mask_ok(mask: u32) -> bool
    ensures { result ≡ mask_ok mask }
{
    (mask != 0) & (mask < 16777216)
}

// "The period is 1 to 100,000,000, …" (K6); the vendor is a number of 16 bits.
#[tactic(auto, unfolding(timers::specs::Formed::settings_fit, settings::specs::Settings::vendor_ok, settings::specs::Settings::period_ok))]
fn settings_fit(vendor: u32, period: u32) -> bool
    ensures { result ≡ settings_fit vendor period }
{
    (vendor < 65536) & ((1 <= period) & (period <= 100000000))
}

// "… each timer's set-comparator bit is 0 unless it is periodic; … its route is at most 23; its status is 0 if it is
// edge type; …"; "A well-formed state has settings in range and each route in its mask" (K6).
// Mask and timer stay two parameters, in registers.rt too: they stand in two arrays of the state, which C lends.
#[tactic(auto, unfolding(timer::specs::Formed::timer_formed))]
fn timer_ok(mask: u32, t: Timer) -> bool
    ensures { result ≡ timer_formed mask t }
{
    let set = (t.set_comparator == 0) | (t.periodic == 1);
    let status = (t.status == 0) | (t.level_type == 1);
    let routed = mask_ok(mask) & has(mask, t.route);
    set & (narrow_fits(t) & ((t.route < 24) & (routed & (status & flags_fit(t)))))
}

// Each timer is well formed, and "… any other kept number fits its register or setting.": the enable bit is 0 or 1.
#[tactic(auto, unfolding(timers::specs::Formed::well_formed))]
pub fn well_formed(s: Timers) -> bool
    ensures { result ≡ well_formed s }
{
    s.enabled <= 1
        && settings_fit(s.vendor, s.tick_period)
        && s.masks
            .iter()
            .zip(&s.timer)
            .all(|(mask, t)| timer_ok(*mask, *t))
}

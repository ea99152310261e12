// A timer's route mask (document 02, K6): pin n is in it where bit n is 1.
ghost use Rattle.std.specs.Prelude.{◌≡◌, ◌<◌};
ghost use Rattle.std.specs.Option.{IfSome, unwrap_or};
ghost use Rattle.timer.specs.Mask.{in_mask};
ghost use Rattle.timer.specs.Mask.{lowest as lowest_of};

// The pin's bit is brought down, one place at a time.
pub(crate) fn has(mask: u32, pin: u16) -> bool
    ensures { result ≡ in_mask mask pin }
{
    let mut rest = mask;
    for _i in 0..pin {
        rest /= 2;
    }
    rest % 2 == 1
}

// "… its mask's lowest pin, …": each is tried in turn.
pub(crate) fn lowest(mask: u32) -> Option<u16>
    ensures lowest { unwrap_or result 24 ≡ lowest_of mask }
    ensures on_a_pin { IfSome result (λ n. n < 24) }
{
    for pin in 0..24 {
        if has(mask, pin) {
            return Some(pin);
        }
    }
    None
}

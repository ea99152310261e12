// A route mask: the pins that a timer can be routed to, pin n at bit n.
ghost use Rattle.std.specs.Prelude.{◌≡◌};
ghost use Rattle.timer.specs.Mask.{in_mask, lowest};

// The pin is in the mask: a number of 32 bits has none above 31. Without a branch, since every call tests a route so.
pub(crate) fn has(mask: u32, pin: u16) -> bool
    ensures { result ≡ in_mask mask pin }
{
    (pin < 32) & ((mask >> (pin & 31)) & 1 == 1)
}

// The lowest pin of the mask, or 24: the bit above the pins stops the count there. 24 and no Option: it is what a
// reset by such a mask leaves as the route, a number of the state (specs/State.antt#reset_timer).
pub(crate) fn lowest(mask: u32) -> u16
    ensures { result ≡ lowest mask }
{
    ((mask & 0x00FF_FFFF) + 0x0100_0000).trailing_zeros() as u16
}

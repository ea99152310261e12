// The wires between timers and pins.
ghost use Rattle.std.specs.Prelude.{◌≡◌, ◌<◌, ◌==◌};
ghost use Rattle.std.specs.Option.{unwrap_or};
ghost use Rattle.board.specs.Wires.{wires_of};
ghost use Rattle.board.specs.Wires.{joined as joined_of};

use board::Board;
use controller::Controller;
use std::array;
use timers::Timers;

// Whether the pin that a timer drives, if it drives one, is this pin.
fn is_pin(driven: Option<u16>, pin: u16) -> bool
    requires { pin < 24 }
    ensures { result ≡ (unwrap_or driven 24 == pin) }
{
    match driven {
        Some(route) => route == pin,
        None => false,
    }
}

// "A pin's wire is high if its outside wire is, or if some timer routed there has level type, interrupt enable and
// status, with the block enabled, or during a pulse." The pulse is in tick.rt: these are the wires without one.
pub(crate) fn wires(outside: [u8; 24], timers: Timers) -> [u8; 24]
    ensures { result ≡ wires_of outside timers }
{
    let [a, b, c] = timers.timer.map(|t| plain_timers::driven(timers, t));
    array::from_fn(|pin| {
        let at = pin as u16;
        let by_timer = is_pin(a, at) | (is_pin(b, at) | is_pin(c, at));
        ((outside[pin] == 1) | by_timer) as u8
    })
}

// A step that changed the timers or the outside wires: the wires are worked out anew, and edges are held.
#[tactic(auto, unfolding(board::specs::Wires::joined))]
pub(crate) fn joined(c: Controller, timers: Timers, outside: [u8; 24]) -> Board
    ensures { result ≡ joined_of c timers outside }
{
    Board {
        timers,
        controller: plain_controller::rewired(c, wires(outside, timers)),
        outside,
    }
}

// Many ticks in constant time. During an advance statuses only rise, so after a timer's first firing a further one
// changes no pin: at most three firings matter, in the order of their ticks, each at one pin.
ghost use Rattle.std.specs.Prelude.{◌≡◌};
ghost use Rattle.board.specs.declared.Call.TheVariants as call;
ghost use Rattle.board.specs.Step.{turn_of};
ghost use Rattle.board.specs.At.{strike_of, ordered, strikes_of, advancing_at};

use crate::{Board, Call, Turn};
use answers::Answer;
use entries::strike::Strike;
use timers::Timers;

/// Timer m's strike, where it first fires at the tick given, 0 for never.
#[tactic(auto, unfolding(crate::specs::At::strike_of, crate::specs::At::strike_at))]
fn strike_of(s: Timers, m: usize, first: u32) -> Option<Strike>
    ensures { result ≡ strike_of s m first }
{
    // Modulo 256 is a well-formed route itself, a pin below 24; of any other specs/At.antt#strike_at says it so too.
    let pin = s.route(m) % 256;
    if first == 0 {
        None
    } else if s.pulses(m) {
        Some(Strike::Pulse(pin))
    } else if s.raises(m) {
        Some(Strike::Rise(pin))
    } else {
        None
    }
}

/// Three strikes in the order of their ticks; in one tick, as they come.
#[tactic(auto, unfolding(crate::specs::At::ordered))]
fn ordered(
    f: [u32; 3],
    a: Option<Strike>,
    b: Option<Strike>,
    c: Option<Strike>,
) -> [Option<Strike>; 3]
    ensures { result ≡ ordered f a b c }
{
    match (f[1] < f[0], f[2] < f[0], f[2] < f[1]) {
        (true, _, true) => [c, b, a],
        (true, true, false) => [b, c, a],
        (true, false, false) => [b, a, c],
        (false, true, _) => [c, a, b],
        (false, false, true) => [a, c, b],
        (false, false, false) => [a, b, c],
    }
}

/// The timers' strikes, where these are the ticks of their first firings.
#[tactic(auto, unfolding(crate::specs::At::strikes_of))]
fn strikes(s: Timers, f: [u32; 3]) -> [Option<Strike>; 3]
    ensures { result ≡ strikes_of s f }
{
    ordered(
        f,
        strike_of(s, 0, f[0]),
        strike_of(s, 1, f[1]),
        strike_of(s, 2, f[2]),
    )
}

impl Board {
    /// n ticks at once: on a well-formed board, what the n-fold single tick gives.
    #[tactic(auto, unfolding(crate::specs::At::advancing_at))]
    pub fn advancing(self, n: u32) -> Turn
        ensures { result ≡ advancing_at self n }
    {
        // The parts are taken out of the board first: else the controller is copied once more.
        let before = self.timers;
        let controller = self.controller;
        let outside = self.outside;
        let ran = before.ran(n);
        let fired = ran.fired;
        Turn {
            board: Board {
                timers: ran.timers,
                controller: controller.struck(strikes(before, ran.first)),
                outside,
            },
            answer: Answer::Fired(fired[0], fired[1], fired[2]),
        }
    }

    pub fn advance(self, ticks: u32) -> Turn
        ensures { result ≡ turn_of self (call.Advance ticks) }
    {
        self.step(Call::Advance { ticks })
    }
}

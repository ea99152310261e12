// "One tick", and many, one after the other. (The loop takes the board apart as little as it can: a tick that was a
// function of its own, from a board to a board, would copy the board at each of them, several times as slow.)
ghost use Rattle.std.specs.Prelude.{◌≡◌, ◌<◌, slice_set};
ghost use Rattle.timers.specs.Tick.{matches_of, fired_of};
ghost use Rattle.board.specs.Tick.{pulsed_at};
ghost use Rattle.board.specs.Tick.{fire as fire_of};
ghost use Rattle.board.specs.Step.{advancing_of};

use crate::wires::wires;
use answers::Answer;
use board::{Board, Turn};
use controller::Controller;
use timers::Timers;

// The wire of a pin raised. There is no pin above 23.
#[tactic(auto, using(crate::proofs::Kept::past_last))]
fn raised(wires: [u8; 24], pin: u16) -> [u8; 24]
    ensures { result ≡ slice_set wires pin 1 }
{
    let mut next = wires;
    if 24 <= pin {
        return next;
    }
    next[pin as usize] = 1;
    next
}

// "A firing edge timer with its interrupt enabled raises the wire of its pin and drops it again, two steps." Dropped,
// the wires are what they are without the pulse. "So a pulse on a wire already high shows nothing.": neither of the
// two steps changes a level then.
fn pulsed(c: Controller, wires: [u8; 24], pin: u16) -> Controller
    ensures { result ≡ pulsed_at c wires pin }
{
    let high = raised(wires, pin);
    let up = plain_controller::rewired(c, high);
    plain_controller::rewired(up, wires)
}

// "Then timers 0, 1, 2 in turn, each firing a step of its own: …": the firing of timer m.
fn fire(b: Board, m: usize) -> Board
    requires { m < 3 }
    ensures { result ≡ fire_of m b }
{
    let mut timer = b.timers.timer;
    let t = timer[m];
    timer[m] = plain_timers::fired(t);
    let timers = Timers { timer, ..b.timers };
    let levels = wires(b.outside, timers);
    // "A firing edge timer with its interrupt enabled raises the wire of its pin and drops it again, two steps."
    if plain_timers::pulses(t) {
        return Board {
            timers,
            controller: pulsed(b.controller, levels, t.route),
            ..b
        };
    }
    // "A firing level timer sets its status, even with its interrupt disabled.", which may raise its wire. An edge
    // timer with its interrupt disabled comes here too, and its firing moves no wire.
    Board {
        timers,
        controller: plain_controller::rewired(b.controller, levels),
        ..b
    }
}

// "An advance takes 0 to 4,294,967,295 ticks.": here n, and this engine "walks every tick" (K3). "A firing is counted
// in every case."
pub(crate) fn advancing(b: Board, n: u32) -> Turn
    ensures { result ≡ advancing_of b n }
{
    // "Disabled: nothing happens."
    if b.timers.enabled != 1 {
        return Turn {
            board: b,
            answer: Answer::Fired(0, 0, 0),
        };
    }
    let mut next = b;
    let mut fired0: u32 = 0;
    let mut fired1: u32 = 0;
    let mut fired2: u32 = 0;
    for _i in 0..n {
        // "Enabled: the counter goes up by one modulo 2^64. Then timers 0, 1, 2 in turn, …": "a timer fires if counter
        // and comparator are equal (in 32-bit mode, modulo 2^32)."
        // (The timers are written out, each with its count: a loop over them, with the counts in an array, was tried,
        // is proved, and walks a tick more than ten times as slow. Their array is taken out of the board before one
        // is read: a board with an element of it indexed is kept in memory, and the walk takes a third longer.)
        let counter = next.timers.counter.wrapping_add(1);
        next.timers.counter = counter;
        let timer = next.timers.timer;
        if plain_timers::meets(next.timers.counter, timer[0]) {
            next = fire(next, 0);
            fired0 += 1;
        }
        let timer = next.timers.timer;
        if plain_timers::meets(next.timers.counter, timer[1]) {
            next = fire(next, 1);
            fired1 += 1;
        }
        let timer = next.timers.timer;
        if plain_timers::meets(next.timers.counter, timer[2]) {
            next = fire(next, 2);
            fired2 += 1;
        }
    }
    Turn {
        board: next,
        answer: Answer::Fired(fired0, fired1, fired2),
    }
}

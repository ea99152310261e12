// Advances by 4,294,967,295 ticks. Each line: the answer's number, the three counts, and what comparator 0 and the
// counter read after it.
#![tactic(auto)]

ghost use Rattle.std.specs.Prelude.{◌<◌};

use answers::Numbers;
use timers::{Timers, Turn};

// What the whole register at the offset reads.
fn value(timers: Timers, offset: u64) -> u64 {
    Numbers::from(timers.read(Timers::WIDTH, offset).answer).value
}

fn set(timers: Timers, offset: u64, value: u64) -> Timers {
    timers.write(Timers::WIDTH, offset, value).timers
}

// A turn's line, and the block after it.
fn show(rt: &HostRuntime, turn: Turn) -> Timers {
    let timers = turn.timers;
    let n = Numbers::from(turn.answer);
    let [f0, f1, f2] = n.fired;
    let comparator = value(timers, Timers::TIMERS + Timers::COMPARATOR);
    let counter = value(timers, Timers::COUNTER);
    let _ = println!(rt; "{} {f0} {f1} {f2} {comparator} {counter}", n.number);
    timers
}

// Timer n with this configuration, a comparator and a period.
fn periodic(timers: Timers, n: u64, configuration: u64, comparator: u64, period: u64) -> Timers
    requires { n < 3 }
{
    let at = Timers::TIMERS + Timers::STEP * n;
    let writes = [
        (at, configuration),
        (at + Timers::COMPARATOR, comparator),
        (at + Timers::COMPARATOR, period),
    ];
    let mut timers = timers;
    for (offset, value) in writes {
        timers = set(timers, offset, value);
    }
    timers
}

fn enabled(timers: Timers) -> Timers {
    set(timers, Timers::CONFIGURATION, 1)
}

fn main(rt: HostRuntime) {
    // nothing due
    show(&rt, enabled(Timers::reset()).advance(u32::MAX));
    // three timers of period 1, twice
    let mut three = Timers::reset();
    for n in 0..3 {
        three = periodic(three, n, 0x48, 1, 1);
    }
    let once = show(&rt, enabled(three).advance(u32::MAX));
    show(&rt, once.advance(u32::MAX));
    // 32-bit mode: half a turn, and at the wrap
    let narrow = periodic(Timers::reset(), 0, 0x148, 0x80000000, 0x80000000);
    let half = show(&rt, enabled(narrow).advance(u32::MAX));
    show(&rt, half.advance(1));
    // period 0
    let still = periodic(Timers::reset(), 0, 0x48, 7, 0);
    let after = show(&rt, enabled(still).advance(u32::MAX));
    // a state that is not well formed
    let ill = Timers {
        enabled: 2,
        ..after
    };
    show(&rt, ill.advance(u32::MAX));
}

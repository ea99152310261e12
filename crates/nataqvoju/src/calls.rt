// The calls of a board that the entry has tested already, where they are more than the board's own: made on the arrays
// that are lent, with the answer as numbers, or only on a well-formed board the call.
ghost use Rattle.std.specs.Prelude.{◌≡◌, true, ◌%◌, ◌^◌};
ghost use Rattle.board.specs.Formed.{well_formed};
ghost use Rattle.board.specs.declared.Board.{Board as AnyBoard};
ghost use Rattle.board.specs.State.{with_entry, with_wires};
ghost use Rattle.board.specs.At.{low_write_at};
ghost use Rattle.board.specs.Step.{wiring_of, advancing_of, delivering_on_board};
ghost use Rattle.settings.specs.Record.{reading_of};
ghost use Rattle.nataqvoju.specs.Lent.{Gives};
ghost use Rattle.nataqvoju.specs.Reset.{reset_with};

use answers::{Numbers, Refusal};
use board::{Board, Turn};
use controller::Controller;
use settings::Settings;

/// A reset by what the settings' reader gave: its refusal leaves the board.
pub fn reset_with(b: Board, read: Result<Settings, Refusal>) -> Turn
    ensures { result ≡ reset_with b (reading_of read) }
{
    match read {
        Ok(settings) => b.resetting(settings),
        Err(refusal) => b.refused(refusal),
    }
}

/// A write of pin n's low word.
pub fn write_low(n: usize, value: u64, low: &mut [u32; 24], held: &mut [u8; 24]) -> Numbers
    ensures { (b : AnyBoard)
        → Gives (low_write_at (with_entry b low.old held.old) n (value % 2 ^ 32))
        (with_entry b low.new held.new) result }
{
    let value = (value % Controller::VALUE_END) as u32;
    Numbers::from(Board::write_in_place(n, value, low, held))
}

/// Made at its pin, which is the call on a well-formed board only.
pub fn wire(
    b: Board,
    pin: u64,
    level: u64,
    levels: &mut [u8; 24],
    held: &mut [u8; 24],
    outside: &mut [u8; 24],
) -> Numbers
    ensures { well_formed b ≡ true
        → levels.old ≡ b.controller.entries.level
        → held.old ≡ b.controller.entries.held
        → outside.old ≡ b.outside
        → Gives (wiring_of b pin level)
        (with_wires b levels.new held.new outside.new) result }
{
    Numbers::from(b.wire_in_place(pin, level, levels, held, outside))
}

/// Made at the timers' strikes, which is the call on a well-formed board only.
pub fn advance(b: Board, ticks: u32) -> Turn
    ensures { well_formed b ≡ true → result ≡ advancing_of b ticks }
{
    b.advancing(ticks)
}

pub fn deliver(b: Board, low: &mut [u32; 24], held: &mut [u8; 24]) -> Numbers
    ensures { Gives (delivering_on_board (with_entry b low.old held.old))
        (with_entry b low.new held.new) result }
{
    Numbers::from(b.deliver_in_place(low, held))
}

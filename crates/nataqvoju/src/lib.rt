// The monitor's entry: the board lent by the monitor and changed where it lies. The answers are those of the board's
// own calls, as numbers. Every byte pattern of the lent memory is a board: one that is not well formed gets 5 and stays
// as it is, unless the call is a reset. A call that changes one pin lends on the arrays that it changes; the others go
// by a copy that is stored back.
#![tactic(auto)]

mod calls;

ghost use Rattle.std.specs.Prelude.{◌≡◌};
ghost use Rattle.answers.specs.declared.Answer.TheVariants as answer;
ghost use Rattle.answers.specs.declared.Refusal.TheVariants as refusal;
ghost use Rattle.answers.specs.Numbers.{numbers_of};
ghost use Rattle.board.specs.declared.Call.TheVariants as call;
ghost use Rattle.board.specs.Formed.{well_formed};
ghost use Rattle.board.specs.Step.{plain_reset, turn_of};
ghost use Rattle.nataqvoju.specs.Lent.{Gives};
ghost use Rattle.nataqvoju.specs.Reset.{reset_by};

use answers::{Answer, Numbers, Refusal};
use board::{Board, Turn};
use settings::Settings;

/// Whether the lent board is well formed, tested where it lies: by value it would be copied first.
fn formed(b: &Board) -> bool
    ensures { result ≡ well_formed b.now }
{
    b.well_formed()
}

/// The numbers of refusal 5.
// Each call tests the board for itself, in the same two lines: a closure for what is served would take the lent board,
// of which three calls lend single arrays on.
fn refused() -> Numbers
    ensures { result ≡ numbers_of (answer.Refused refusal.State) }
{
    Numbers::from(Answer::Refused(Refusal::State))
}

/// The lent board is left as the turn's, and the numbers are those of its answer.
fn left(b: &mut Board, turn: Turn) -> Numbers
    ensures { Gives turn b.new result }
{
    *b = turn.board;
    Numbers::from(turn.answer)
}

/// As in document 01, whatever was there.
#[unsafe(no_mangle)]
pub extern "C" fn nataqvoju_reset(b: &mut Board) -> Numbers
    ensures { Gives (turn_of b.old plain_reset) b.new result }
{
    *b = Board::reset();
    Numbers::from(Answer::Done)
}

/// By a lent settings record, whatever was there. A record that the reader refuses leaves the board.
#[tactic(auto, unfolding(crate::specs::Reset::reset_by))]
#[unsafe(no_mangle)]
pub extern "C" fn nataqvoju_reset_settings(b: &mut Board, bytes: &[u8]) -> Numbers
    ensures { Gives (reset_by b.old bytes.now) b.new result }
{
    let turn = calls::reset_with(*b, Settings::accepted(bytes));
    left(b, turn)
}

/// A read leaves the board, so it is lent to be looked at only.
#[unsafe(no_mangle)]
pub extern "C" fn nataqvoju_read(b: &Board, window: u64, width: u64, offset: u64) -> Numbers
    ensures { Gives (turn_of b.now (call.Read window width offset)) b.now result }
{
    if !formed(b) {
        return refused();
    }
    Numbers::from(b.reading(window, width, offset).answer)
}

#[unsafe(no_mangle)]
pub extern "C" fn nataqvoju_write(
    b: &mut Board,
    window: u64,
    width: u64,
    offset: u64,
    value: u64,
) -> Numbers
    ensures { Gives (turn_of b.old (call.Write window width offset value)) b.new result }
{
    if !formed(b) {
        return refused();
    }
    if let Some(n) = Board::low_pin(b.controller.index, window, width, offset, value) {
        return calls::write_low(
            n,
            value,
            &mut b.controller.entries.low,
            &mut b.controller.entries.held,
        );
    }
    let turn = b.writing(window, width, offset, value);
    left(b, turn)
}

#[unsafe(no_mangle)]
pub extern "C" fn nataqvoju_wire(b: &mut Board, pin: u64, level: u64) -> Numbers
    ensures { Gives (turn_of b.old (call.Wire pin level)) b.new result }
{
    if !formed(b) {
        return refused();
    }
    let s = *b;
    calls::wire(
        s,
        pin,
        level,
        &mut b.controller.entries.level,
        &mut b.controller.entries.held,
        &mut b.outside,
    )
}

#[unsafe(no_mangle)]
pub extern "C" fn nataqvoju_end(b: &mut Board, vector: u8) -> Numbers
    ensures { Gives (turn_of b.old (call.End vector)) b.new result }
{
    if !formed(b) {
        return refused();
    }
    let turn = b.ending(vector);
    left(b, turn)
}

#[unsafe(no_mangle)]
pub extern "C" fn nataqvoju_advance(b: &mut Board, ticks: u32) -> Numbers
    ensures { Gives (turn_of b.old (call.Advance ticks)) b.new result }
{
    if !formed(b) {
        return refused();
    }
    let turn = calls::advance(*b, ticks);
    left(b, turn)
}

#[unsafe(no_mangle)]
pub extern "C" fn nataqvoju_deliver(b: &mut Board) -> Numbers
    ensures { Gives (turn_of b.old call.Deliver) b.new result }
{
    if !formed(b) {
        return refused();
    }
    let s = *b;
    calls::deliver(
        s,
        &mut b.controller.entries.low,
        &mut b.controller.entries.held,
    )
}

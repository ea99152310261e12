// The calls that change one pin, made where the arrays that they change lie: in a board that is lent, where a call by
// value would store all of an array to change one element. Each is the call on the board that has these arrays; what is
// decided is what the calls by value decide.
ghost use Rattle.std.specs.Prelude.{◌≡◌};
ghost use Rattle.pins.specs.Pins.{pin_at};
ghost use Rattle.board.specs.declared.Board.{Board as AnyBoard};
ghost use Rattle.board.specs.State.{turn, with_entry, with_wires};
ghost use Rattle.board.specs.Step.{delivering_on_board};
ghost use Rattle.board.specs.At.{wiring_at, low_pin_of, low_write_at};

use crate::Board;
use answers::{Answer, Refusal};
use controller::Controller;
use entries::{EntryDecision, WireDecision};

// `window, width, offset, value` and `pin, level` stay parameters here too: see step.rt.
impl Board {
    pub fn deliver_in_place(self, low: &mut [u32; 24], held: &mut [u8; 24]) -> Answer
        ensures { turn (with_entry self low.new held.new) result
            ≡ delivering_on_board (with_entry self low.old held.old) }
    {
        let Some(d) = self.controller.delivery(low, held) else {
            return Answer::Nothing;
        };
        d.apply(low, held);
        d.answer
    }

    /// The pin whose low word a write goes to, by the controller's index; none if it goes elsewhere or is refused.
    #[tactic(auto, unfolding(crate::specs::At::low_pin_of))]
    pub fn low_pin(index: u32, window: u64, width: u64, offset: u64, value: u64) -> Option<usize>
        ensures { result ≡ pin_at (low_pin_of index window width offset value) }
    {
        if window == Board::CONTROLLER {
            Controller::low_pin(index, width, offset, value)
        } else {
            None
        }
    }

    /// A write of pin n's low word, whatever the rest of the board is.
    pub fn write_in_place(n: usize, value: u32, low: &mut [u32; 24], held: &mut [u8; 24]) -> Answer
        ensures { (b : AnyBoard) → turn (with_entry b low.new held.new) result
            ≡ low_write_at (with_entry b low.old held.old) n value }
    {
        let d = EntryDecision::write(n, value, low, held);
        d.apply(low, held);
        d.answer
    }

    pub fn wire_in_place(
        self,
        pin: u64,
        level: u64,
        levels: &mut [u8; 24],
        held: &mut [u8; 24],
        outside: &mut [u8; 24],
    ) -> Answer
        ensures { turn (with_wires self levels.new held.new outside.new) result
            ≡ wiring_at (with_wires self levels.old held.old outside.old) pin level }
    {
        if Controller::PINS <= pin {
            return Answer::Refused(Refusal::Pin);
        }
        if Controller::LAST_LEVEL < level {
            return Answer::Refused(Refusal::Level);
        }
        let n = pin as usize;
        let low = self.controller.entries.low;
        let high = (level == 1) | self.timers.drives(pin as u16);
        let d = WireDecision::change(n, high as u8, &low, levels, held);
        d.apply(levels, held);
        outside[n] = level as u8;
        Answer::Done
    }
}

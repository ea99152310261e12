// The screen's four words, and what moves it from one to the next.
ghost use Rattle.std.specs.Prelude.{◌≡◌};
ghost use Rattle.board.specs.Events.{other, delivery, end};
ghost use Rattle.mill.specs.Screen.{blank, holds_in, looked_of, shown_after, fits};

use crate::Screen;

/// Whether a pin holds an edge; there is no pin above 23.
pub(crate) fn holds(held: [u8; 24], pin: u16) -> bool
    ensures { result ≡ holds_in held pin }
{
    held.get(pin as usize) == Some(&1)
}

impl Screen {
    // Numbers, and no enum: `Screen::word` is lent memory, and any number may stand there.
    pub const RUNNING: u16 = 0;

    pub const ASKED: u16 = 1;

    pub const TAKEN: u16 = 2;

    pub const PAUSED: u16 = 3;

    /// Before a telling and after a board reset.
    pub(crate) fn blank() -> Screen
        ensures { result ≡ blank }
    {
        Screen {
            told: 0,
            pin: 0,
            word: Screen::RUNNING,
            vector: 0,
        }
    }

    /// Told a pin, or resumed in paused.
    #[tactic(auto, unfolding(crate::specs::Screen::looked_of))]
    pub(crate) fn looked(pin: u16, held: bool) -> Screen
        ensures { result ≡ looked_of pin held }
    {
        Screen {
            told: 1,
            pin,
            word: if held { Screen::ASKED } else { Screen::RUNNING },
            vector: 0,
        }
    }

    /// After a call that was neither a delivery nor an end of interrupt.
    #[tactic(auto, unfolding(crate::specs::Screen::shown_after, crate::specs::Screen::moved_of))]
    pub(crate) fn seen(self, held: [u8; 24]) -> Screen
        ensures { result ≡ shown_after self held other }
    {
        let asks = (self.told == 1) & (self.word == Screen::RUNNING);
        if asks & holds(held, self.pin) {
            Screen {
                word: Screen::ASKED,
                ..self
            }
        } else {
            self
        }
    }

    /// After a delivery.
    #[tactic(auto, unfolding(crate::specs::Screen::shown_after, crate::specs::Screen::moved_of))]
    pub(crate) fn given(self, held: [u8; 24], pin: u8, vector: u8) -> Screen
        ensures { result ≡ shown_after self held (delivery pin vector) }
    {
        let waits = (self.told == 1) & (self.word == Screen::ASKED);
        if waits & (pin as u16 == self.pin) {
            return Screen {
                word: Screen::TAKEN,
                vector: vector as u16,
                ..self
            };
        }
        self.seen(held)
    }

    /// After an end of interrupt.
    #[tactic(auto, unfolding(crate::specs::Screen::shown_after, crate::specs::Screen::moved_of))]
    pub(crate) fn ended(self, held: [u8; 24], vector: u8) -> Screen
        ensures { result ≡ shown_after self held (end vector) }
    {
        let serves = (self.told == 1) & (self.word == Screen::TAKEN);
        if serves & (vector as u16 == self.vector) {
            return Screen {
                word: Screen::PAUSED,
                ..self
            };
        }
        self.seen(held)
    }

    /// Well formed beside a board that holds these edges.
    #[tactic(auto, unfolding(crate::specs::Screen::fits))]
    pub(crate) fn fits(self, held: [u8; 24]) -> bool
        ensures { result ≡ fits self held }
    {
        if self.told == 0 {
            return (self.pin == 0) & ((self.word == Screen::RUNNING) & (self.vector == 0));
        }
        let known = (self.told == 1)
            & ((self.pin <= 23) & ((self.word <= Screen::PAUSED) & (self.vector <= 255)));
        let remembers = (Screen::TAKEN <= self.word) | (self.vector == 0);
        let asked = !((self.word == Screen::RUNNING) & holds(held, self.pin));
        known & (remembers & asked)
    }
}

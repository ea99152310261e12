// The wire rule, and the test of a board.
ghost use Rattle.std.specs.Prelude.{◌≡◌, ◌&&◌, ◌||◌, eqb};
ghost use Rattle.pins.specs.Pins.{every};
ghost use Rattle.entries.specs.Table.{levels_ok};
ghost use Rattle.board.specs.State.{reset_to, reset_board};
ghost use Rattle.board.specs.Wires.{wires_of, joined};
ghost use Rattle.board.specs.Formed.{kept_at, well_formed};

use crate::Board;
use controller::Controller;
use entries::Entries;
use settings::Settings;
use timers::Timers;

// In the place of a pin, where a timer drives none: a loop over the pins that compares with an `Option` branches for
// each timer, and takes two and a half times the instructions where all three drive a pin.
const NO_PIN: u16 = 24;

/// The pin is one of the three.
fn reached(a: u16, b: u16, c: u16, pin: u16) -> bool
    ensures { result ≡ eqb a pin || (eqb b pin || eqb c pin) }
{
    (a == pin) | ((b == pin) | (c == pin))
}

/// The wire rule at every pin. The pins that the timers drive are found once.
// The pin is counted beside the index, at the width of a route, here and in `kept`: by `i as u16` the loop is not
// worked out in vectors, and a register write takes twice the instructions.
pub fn wires(outside: [u8; 24], timers: Timers) -> [u8; 24]
    ensures { result ≡ wires_of outside timers }
{
    let a = timers.driven(0).unwrap_or(NO_PIN);
    let b = timers.driven(1).unwrap_or(NO_PIN);
    let c = timers.driven(2).unwrap_or(NO_PIN);
    let mut levels: [u8; 24] = [0; 24];
    let mut pin: u16 = 0;
    for i in 0..Entries::PINS {
        levels[i] = ((outside[i] == 1) | reached(a, b, c, pin)) as u8;
        pin += 1;
    }
    levels
}

impl Board {
    /// With settings: what is out of range is kept, and the board is then not well formed. `resetting` tests it.
    pub fn reset_to(settings: Settings) -> Board
        ensures { result ≡ reset_to settings }
    {
        Board {
            timers: Timers::reset_to(settings),
            controller: Controller::reset_to(settings.id),
            outside: [0; 24],
        }
    }

    /// As in document 01.
    pub fn reset() -> Board
        ensures { result ≡ reset_board }
    {
        Board::reset_to(Settings::standard())
    }

    /// The parts joined, one step: the pins' levels are those of the wire rule, and edges are held.
    #[tactic(auto, unfolding(crate::specs::Wires::joined))]
    pub fn joined(c: Controller, timers: Timers, outside: [u8; 24]) -> Board
        ensures { result ≡ joined c timers outside }
    {
        Board {
            timers,
            controller: c.rewired(wires(outside, timers)),
            outside,
        }
    }

    /// Outside wire levels are 0 or 1, and each pin level kept is the one that the wire rule gives.
    fn kept(self) -> bool
        ensures { result ≡ levels_ok self.outside && every (kept_at self) }
    {
        let level = self.controller.entries.level;
        let outside = self.outside;
        let p = self.timers.driven(0).unwrap_or(NO_PIN);
        let q = self.timers.driven(1).unwrap_or(NO_PIN);
        let r = self.timers.driven(2).unwrap_or(NO_PIN);
        let mut ok = true;
        let mut pin: u16 = 0;
        for i in 0..Entries::PINS {
            let kept = level[i] == ((outside[i] == 1) | reached(p, q, r, pin)) as u8;
            ok &= (outside[i] <= 1) & kept;
            pin += 1;
        }
        ok
    }

    #[tactic(auto, unfolding(crate::specs::Formed::well_formed))]
    pub fn well_formed(self) -> bool
        ensures { result ≡ well_formed self }
    {
        self.controller.well_formed() & (self.timers.well_formed() & self.kept())
    }
}

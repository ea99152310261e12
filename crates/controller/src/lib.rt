// The 82093AA by itself: id, index, the window, wires, end of interrupt, delivery.
// Each call takes the state and gives the next one beside the answer. A call named -ing is what the call does once the
// state is known to be well formed: the board above has tested that already.
#![tactic(auto)]

mod state;
mod steps;
mod window;

use answers::Answer;
use entries::Entries;

/// No byte of it is padding. The id and the index are wider than their registers: what doesn't fit is not well formed.
#[repr(C)]
#[derive(Clone, Copy, PartialEq, Eq)]
pub struct Controller {
    pub id: u32,
    pub index: u32,
    pub entries: Entries,
}

// No Result: `turn_of` gives a state on a refusal too. Not generic: theorems name `Turn.controller`.
#[derive(Clone, Copy)]
pub struct Turn {
    pub controller: Controller,
    pub answer: Answer,
}

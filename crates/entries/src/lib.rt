// What every controller of this family shares: 24 redirection entries, their pins' wires and held edges.
// An array is taken out of the entries before one of its elements is read or stored: a struct with an element of it
// indexed is kept in memory and copied whole, one whose parts are only moved is not.
#![tactic(auto)]

mod decision;
mod eligible;
mod pin;
pub mod strike;
mod table;
mod wellformed;
mod wires;
mod word;

use answers::Answer;

/// The low word of an entry, taken apart by bit position.
#[derive(Clone, Copy)]
pub struct Low(pub u32);

/// By value: low words, destinations, wire levels and held edges (0 or 1).
// A level and a held edge are a byte, and no bool: any byte pattern of lent memory is a board.
#[repr(C)]
#[derive(Clone, Copy, PartialEq, Eq)]
pub struct Entries {
    pub low: [u32; 24],
    pub destination: [u8; 24],
    pub level: [u8; 24],
    pub held: [u8; 24],
}

/// What a delivery or a low-word write leaves at one pin, its low word and its held edge, and what it answers.
// No Result: nothing is refused here, and `apply` stores what is decided without a look at the answer.
#[derive(Clone, Copy)]
pub struct EntryDecision {
    pub pin: usize,
    pub low: u32,
    pub held: u8,
    pub answer: Answer,
}

/// What a change of a wire leaves at its pin.
#[derive(Clone, Copy)]
pub struct WireDecision {
    pub pin: usize,
    pub level: u8,
    pub held: u8,
}

// The board: the interrupt controller, the timer block and the wires between them.
// Everything that can be done to it is a Call, everything that can come back an Answer (crate answers).
#![tactic(auto)]

mod advance;
mod in_place;
mod numbers;
mod step;
mod wires;

use answers::Answer;
use controller::Controller;
use settings::Settings;
use timers::Timers;

/// By value, 304 bytes, none of them padding.
#[repr(C)]
#[derive(Clone, Copy, PartialEq, Eq)]
pub struct Board {
    pub timers: Timers,
    pub controller: Controller,
    pub outside: [u8; 24],
}

/// Numbers that come from outside are wide: a pin of 4,000,000,000 is a legal question, and its answer is refusal 3.
#[derive(Clone, Copy)]
pub enum Call {
    Read {
        window: u64,
        width: u64,
        offset: u64,
    },
    Write {
        window: u64,
        width: u64,
        offset: u64,
        value: u64,
    },
    Wire {
        pin: u64,
        level: u64,
    },
    End {
        vector: u8,
    },
    Advance {
        ticks: u32,
    },
    Deliver,
    /// with settings; document 01's are `Settings::standard`
    Reset {
        settings: Settings,
    },
}

/// A call as numbers: the number of its kind, and four more, of which those that the kind does not name don't count.
#[derive(Clone, Copy)]
pub struct CallNumbers {
    pub kind: u64,
    pub p: u64,
    pub q: u64,
    pub r: u64,
    pub s: u64,
}

/// The next board and the answer.
// No Result: `turn_of` gives a board on a refusal too. Not generic with other Turns: theorems name `Turn.board`.
#[derive(Clone, Copy, PartialEq, Eq)]
pub struct Turn {
    pub board: Board,
    pub answer: Answer,
}

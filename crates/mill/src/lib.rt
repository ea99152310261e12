// The mill: a board with its pause screen (document 02, K2). The screen is told which pin is the pause key, and says
// paused only once the motion program has taken the pause and ended its interrupt.
#![tactic(auto)]

mod calls;
mod telling;
mod words;

use answers::Answer;
use board::{Board, Call};

/// The screen as plain numbers, 8 bytes, none of them padding.
// No enum for the word and no Option for the pin: any bytes of lent memory are a screen, and `fits` tests them.
#[repr(C)]
#[derive(Clone, Copy, PartialEq, Eq)]
pub struct Screen {
    /// 1 once a pin is told; 0 before that, and after a board reset
    pub told: u16,
    /// the pause pin; 0 if none is told
    pub pin: u16,
    /// 0 running, 1 asked, 2 taken, 3 paused
    pub word: u16,
    /// the vector that the delivery gave; 0 unless taken or paused
    pub vector: u16,
}

/// By value, 312 bytes, none of them padding.
#[repr(C)]
#[derive(Clone, Copy, PartialEq, Eq)]
pub struct Mill {
    pub board: Board,
    pub screen: Screen,
}

/// Everything that can be done to a mill: a call of its board, telling it its pause pin, resuming.
#[derive(Clone, Copy)]
pub enum MillCall {
    Board { call: Call },
    Tell { pin: u64 },
    Resume,
}

/// The next mill and the answer.
// No Result: `turn_of` gives a mill on a refusal too. Not generic with other Turns: theorems name `MillTurn.mill`.
#[derive(Clone, Copy, PartialEq, Eq)]
pub struct MillTurn {
    pub mill: Mill,
    pub answer: Answer,
}

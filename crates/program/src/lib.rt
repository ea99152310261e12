// What every program does alike: its arguments, its input, its output and its messages.
#![tactic(auto)]

mod arguments;
mod input;
mod number;
mod output;
mod run;
mod transfer;

pub use output::Output;

/// A program that runs: its name begins each message, `NAME: the file: the reason`.
// Names, words and messages are bytes: who has some need not show that they are text.
#[derive(Clone, Copy)]
pub struct Program<'a> {
    rt: &'a HostRuntime,
    name: &'a [u8],
    usage: &'a [u8],
}

/// A failure, which is told already.
#[derive(Clone, Copy)]
pub struct Told;

/// An input that could not be read whole, which is told already.
#[derive(Clone, Copy)]
pub struct Unread {
    /// how many bytes of it were read before that
    pub read: usize,
}

impl From<Unread> for Told {
    fn from(_: Unread) -> Told {
        Told
    }
}

impl<'a> Program<'a> {
    pub fn new(rt: &'a HostRuntime, name: &'a [u8], usage: &'a [u8]) -> Program<'a> {
        Program { rt, name, usage }
    }
}

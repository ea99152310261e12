// What an argument is.
ghost use Rattle.std.specs.Prelude.{◌≡◌, ◌≤◌, length};
ghost use Rattle.program.specs.Argument.{same_text, begun_of, kind_of};

use crate::Program;
use std::env::{Env, FillError};
use std::io::{Error, Result};
use std::str::from_utf8;

// The system's numbers for what is wrong with a name, on Linux: it is missing, it is too long, it is no text.
const EINVAL: i32 = 22;

const ENAMETOOLONG: i32 = 36;

const EILSEQ: i32 = 84;

// Room for a file's name: Linux lets it have 4,095 bytes.
// Arrays of it, and `buf` beside an argument's number: a program has no heap (docs/DECISIONS.md, reading 91).
pub(crate) const NAME_ROOM: usize = 4096;

/// What an argument is, by its bytes.
#[derive(Clone, Copy, PartialEq, Eq)]
pub enum Argument {
    Help,
    Standard,
    Empty,
    Dashed,
    Named,
}

/// Whether two texts are the same.
#[tactic(auto, using(crate::proofs::Text::by_bytes))]
pub fn same(a: &[u8], b: &[u8]) -> bool
    ensures { result ≡ same_text a.now b.now }
{
    a == b
}

/// What an argument is that is none of the words.
#[tactic(auto, using(crate::proofs::Order::nothing, crate::proofs::Order::dashed, crate::proofs::Order::named))]
fn begins(argument: &[u8]) -> Argument
    ensures { result ≡ begun_of argument.now }
{
    match argument {
        [] => Argument::Empty,
        [b'-', ..] => Argument::Dashed,
        _ => Argument::Named,
    }
}

#[tactic(auto, unfolding(crate::specs::Argument::kind_of))]
pub fn kind(argument: &[u8]) -> Argument
    ensures { result ≡ kind_of argument.now }
{
    if same(argument, b"-h") || same(argument, b"--help") {
        return Argument::Help;
    }
    if same(argument, b"-") {
        return Argument::Standard;
    }
    begins(argument)
}

impl Program<'_> {
    /// How many arguments there are, the program's own name among them.
    fn arg_count(&self) -> usize {
        for i in 0..usize::MAX {
            if let Err(FillError::NotPresent) = self.rt.arg(i, &mut []) {
                return i;
            }
        }
        usize::MAX
    }

    /// Argument i, in buf. One that is missing, or longer than buf, is taken for an empty one.
    pub fn arg<'b>(&self, i: usize, buf: &'b mut [u8]) -> &'b [u8]
        ensures { length result.now ≤ length buf.old }
    {
        let n = self.rt.arg(i, buf).unwrap_or(0);
        &buf[..n]
    }

    /// The name that argument i is, in buf, or why it is none. A file's name is text for std, which opens no other.
    pub(crate) fn named<'b>(&self, i: usize, buf: &'b mut [u8]) -> Result<&'b str> {
        let n = match self.rt.arg(i, buf) {
            Ok(n) => n,
            Err(FillError::NotPresent) => return Err(Error::from_raw_os_error(EINVAL)),
            Err(FillError::TooLong) => return Err(Error::from_raw_os_error(ENAMETOOLONG)),
        };
        from_utf8(&buf[..n]).map_err(|_| Error::from_raw_os_error(EILSEQ))
    }

    /// An argument that is missing, or longer than a file's name can be, is taken for an empty one.
    fn kind_at(&self, i: usize) -> Argument {
        let mut text = [0; NAME_ROOM];
        kind(self.arg(i, &mut text))
    }

    /// Whether `-h` or `--help` is among the arguments.
    pub fn asks_help(&self) -> bool {
        let count = self.arg_count();
        for i in 1..count {
            if self.kind_at(i) == Argument::Help {
                return true;
            }
        }
        false
    }

    /// How many arguments there are from argument i on.
    pub(crate) fn count_from(&self, i: usize) -> usize {
        self.arg_count().saturating_sub(i)
    }

    /// Whether argument i is the last one and no option, or there is none.
    pub fn one_input(&self, i: usize) -> bool {
        match self.count_from(i) {
            0 => true,
            1 => self.kind_at(i) != Argument::Dashed,
            _ => false,
        }
    }

    /// Whether argument i is the last one, and a file's name: neither an option nor standard input.
    pub fn one_file(&self, i: usize) -> bool {
        self.count_from(i) == 1 && !matches!(self.kind_at(i), Argument::Dashed | Argument::Standard)
    }

    /// Whether argument i is an input and no option, argument j another or there is none, and there is none behind
    /// it. Only one of the two can be standard input.
    pub fn two_inputs(&self, i: usize, j: usize) -> bool {
        if self.count_from(i) == 0 {
            return false;
        }
        match self.kind_at(i) {
            Argument::Dashed => false,
            Argument::Standard => self.one_file(j),
            _ => self.one_input(j),
        }
    }

    /// Whether argument i is an input and no option, and argument j the last one and a file's name.
    pub fn input_and_file(&self, i: usize, j: usize) -> bool {
        self.one_file(j) && self.kind_at(i) != Argument::Dashed
    }

    /// Whether argument i is this word.
    pub fn says(&self, i: usize, word: &[u8]) -> bool {
        let mut text = [0; NAME_ROOM];
        same(self.arg(i, &mut text), word)
    }
}

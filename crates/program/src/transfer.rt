// Bytes from a reader and to a writer, as far as they go.
ghost use Rattle.std.specs.Prelude.{◌≤◌, length, IfOk, IfErr};
ghost use Rattle.program.specs.Counts.{StepsWithin};

use std::io::{Error, ErrorKind, Read, Result, Write};

/// The error of the call that failed, and how many bytes were moved before it.
#[derive(Clone, Copy)]
pub(crate) struct Failed {
    pub(crate) error: Error,
    pub(crate) moved: usize,
}

/// What a read or a write came to.
// No `Option<Option<usize>>`: three outcomes, which both loops below match side by side.
#[derive(Clone, Copy)]
enum Step {
    Moved(usize),
    // a signal interrupted it: it is made again
    Again,
    End,
}

/// What a read or a write of part answered.
fn after(got: Result<usize>, part: &[u8]) -> Result<Step>
    ensures { IfOk result (StepsWithin (length part.now)) }
{
    match got {
        Ok(0) => Ok(Step::End),
        Ok(n) => Ok(Step::Moved(n.min(part.len()))),
        Err(error) if error.kind() == ErrorKind::Interrupted => Ok(Step::Again),
        Err(error) => Err(error),
    }
}

fn read_some<R: Read>(from: &mut R, part: &mut [u8]) -> Result<Step>
    ensures { IfOk result (StepsWithin (length part.old)) }
{
    let got = from.read(part);
    after(got, part)
}

fn write_some<W: Write>(to: &mut W, part: &[u8]) -> Result<Step>
    ensures { IfOk result (StepsWithin (length part.now)) }
{
    let got = to.write(part);
    after(got, part)
}

/// Reads until buf is full, the input ends (a read gives nothing) or a read fails, and answers how many bytes. A
/// proved loop has to end, and nothing says that the interruptions do: so the turns are bounded, by a number that no
/// run uses up.
pub(crate) fn read_all<R: Read>(from: &mut R, buf: &mut [u8]) -> std::result::Result<usize, Failed>
    ensures on_ok { IfOk result (λ n. n ≤ length buf.new) }
    ensures on_err { IfErr result (λ f. f.moved ≤ length buf.new) }
{
    let mut done = 0;
    for _ in 0..u64::MAX {
        if buf.len() <= done {
            break;
        }
        match read_some(from, &mut buf[done..]) {
            Ok(Step::Moved(n)) => done += n,
            Ok(Step::Again) => {}
            Ok(Step::End) => break,
            Err(error) => return Err(Failed { error, moved: done }),
        }
    }
    Ok(done)
}

/// Writes until all is written, nothing more is taken (a write takes nothing) or a write fails, and answers how many
/// bytes.
pub(crate) fn write_all<W: Write>(to: &mut W, text: &[u8]) -> Result<usize>
    ensures { IfOk result (λ n. n ≤ length text.now) }
{
    let mut done = 0;
    for _ in 0..u64::MAX {
        if text.len() <= done {
            break;
        }
        match write_some(to, &text[done..])? {
            Step::Moved(n) => done += n,
            Step::Again => {}
            Step::End => break,
        }
    }
    Ok(done)
}

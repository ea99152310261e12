// What a program reads.
// `buf` is lent, and a name lies in an array: a program has no heap (docs/DECISIONS.md, reading 91).
ghost use Rattle.std.specs.Prelude.{◌≤◌, length, IfOk, IfErr};

use crate::arguments::{Argument, NAME_ROOM, kind};
use crate::transfer::read_all;
use crate::{Program, Unread};
use std::fs::File;
use std::io::Read;

impl Program<'_> {
    fn take<'b, R: Read>(
        &self,
        from: &mut R,
        what: &[u8],
        buf: &'b mut [u8],
    ) -> Result<&'b [u8], Unread>
        ensures on_ok { IfOk result (λ s. length s.now ≤ length buf.old) }
        ensures on_err { IfErr result (λ u. u.read ≤ length buf.old) }
    {
        match read_all(from, buf) {
            Ok(n) => Ok(&buf[..n]),
            Err(failed) => {
                self.failed(what, failed.error);
                Err(Unread { read: failed.moved })
            }
        }
    }

    fn take_standard<'b>(&self, buf: &'b mut [u8]) -> Result<&'b [u8], Unread>
        ensures on_ok { IfOk result (λ s. length s.now ≤ length buf.old) }
        ensures on_err { IfErr result (λ u. u.read ≤ length buf.old) }
    {
        self.take(&mut self.rt.stdin(), b"standard input", buf)
    }

    fn take_file<'b>(&self, path: &str, buf: &'b mut [u8]) -> Result<&'b [u8], Unread>
        ensures on_ok { IfOk result (λ s. length s.now ≤ length buf.old) }
        ensures on_err { IfErr result (λ u. u.read ≤ length buf.old) }
    {
        match File::open(self.rt, path) {
            Ok(mut file) => self.take(&mut file, path.as_bytes(), buf),
            Err(error) => {
                self.failed(path.as_bytes(), error);
                Err(Unread { read: 0 })
            }
        }
    }

    fn take_named<'b>(&self, path: &str, buf: &'b mut [u8]) -> Result<&'b [u8], Unread>
        ensures on_ok { IfOk result (λ s. length s.now ≤ length buf.old) }
        ensures on_err { IfErr result (λ u. u.read ≤ length buf.old) }
    {
        match kind(path.as_bytes()) {
            Argument::Standard => self.take_standard(buf),
            Argument::Empty => {
                self.told(b"the file's name", b"it is empty");
                Err(Unread { read: 0 })
            }
            _ => self.take_file(path, buf),
        }
    }

    /// The input that argument i names, or standard input if there is none: what of it fits into buf. What goes wrong
    /// is told, and the answer then says how much had been read. To tell an input that is too long, buf is one byte
    /// longer than what is taken.
    pub fn read_input<'b>(&self, i: usize, buf: &'b mut [u8]) -> Result<&'b [u8], Unread>
        ensures on_ok { IfOk result (λ s. length s.now ≤ length buf.old) }
        ensures on_err { IfErr result (λ u. u.read ≤ length buf.old) }
    {
        if self.count_from(i) == 0 {
            return self.take_standard(buf);
        }
        let mut text = [0; NAME_ROOM];
        match self.named(i, &mut text) {
            Ok(path) => self.take_named(path, buf),
            Err(error) => {
                self.failed(b"the file's name", error);
                Err(Unread { read: 0 })
            }
        }
    }
}

// What a program writes: its answer, a new file, its usage, and its messages, each one line on standard error.
// A name lies in an array: a program has no heap (docs/DECISIONS.md, reading 91).
use crate::arguments::NAME_ROOM;
use crate::transfer::write_all;
use crate::{Program, Told};
use std::fmt::InlineText;
use std::fs;
use std::fs::File;
use std::io::{Error, Print, Write};

// The longest text of an error that is told. The C library's have at most 64 bytes.
const REASON: usize = 256;

/// What a program writes: the bytes of a new file, if one is made, and a text.
#[derive(Clone, Copy)]
pub struct Output<'a> {
    pub file: Option<&'a [u8]>,
    pub text: &'a [u8],
}

/// The system's text of an error: std puts the error's number behind it.
fn reason(text: &str) -> &str {
    match text.split_once(" (os error ") {
        Some((reason, _)) => reason,
        None => text,
    }
}

impl Program<'_> {
    /// A part of a message. A message that can't be written is lost: there is nowhere to tell it.
    // Not by `eprint!`: a part is bytes, which need not be text.
    fn say(&self, text: &[u8]) {
        let _ = Print::write_all(&self.rt.stderr(), text);
    }

    /// What is wrong without a call that failed.
    pub fn told(&self, what: &[u8], reason: &[u8]) -> Told {
        self.say(self.name);
        self.say(b": ");
        self.say(what);
        self.say(b": ");
        self.say(reason);
        self.say(b"\n");
        Told
    }

    /// A call on `what` failed with this error.
    pub(crate) fn failed(&self, what: &[u8], error: Error) -> Told {
        let text = InlineText::<REASON>::of(error);
        self.told(what, reason(text.as_str()).as_bytes())
    }

    /// Writes all of a text to a file, or tells why not.
    fn put<W: Write>(&self, to: &mut W, what: &[u8], text: &[u8]) -> Result<(), Told> {
        match write_all(to, text) {
            Ok(n) if n < text.len() => Err(self.told(what, b"nothing more is taken")),
            Ok(_) => Ok(()),
            Err(error) => Err(self.failed(what, error)),
        }
    }

    /// The answer, or a part of it, on standard output.
    pub fn print(&self, text: &[u8]) {
        let _ = self.put(&mut self.rt.stdout(), b"standard output", text);
    }

    /// Writes all of a text to a file that is open, brings it to its disk and closes it: what was written may be lost
    /// before. Closing it says nothing. Once a write has failed, no more is told of the file.
    fn put_and_close(&self, mut file: File, what: &[u8], text: &[u8]) -> Result<(), Told> {
        self.put(&mut file, what, text)?;
        file.sync_all().map_err(|error| self.failed(what, error))
    }

    /// Removes a file that isn't whole, or tells why not.
    fn remove(&self, path: &str) {
        if let Err(error) = fs::remove_file(self.rt, path) {
            let text = InlineText::<REASON>::of(error);
            self.say(self.name);
            self.say(b": ");
            self.say(path.as_bytes());
            self.say(b": it is not whole, and can't be removed: ");
            self.say(reason(text.as_str()).as_bytes());
            self.say(b"\n");
        }
    }

    /// Makes the file, which must not exist yet. One that can't be written whole is removed again.
    fn make_file(&self, path: &str, text: &[u8]) -> Result<(), Told> {
        let opened = File::options()
            .write(true)
            .create_new(true)
            .open(self.rt, path);
        match opened {
            Ok(file) => {
                let written = self.put_and_close(file, path.as_bytes(), text);
                if written.is_err() {
                    self.remove(path);
                }
                written
            }
            Err(error) => Err(self.failed(path.as_bytes(), error)),
        }
    }

    /// Whether argument i can name a new file. One that is empty, longer than a name can be or no text is told.
    pub fn names_file(&self, i: usize) -> Result<(), Told> {
        let mut buf = [0; NAME_ROOM];
        match self.named(i, &mut buf) {
            Ok("") => Err(self.told(b"the new file's name", b"it is empty")),
            Ok(_) => Ok(()),
            Err(error) => Err(self.failed(b"the new file's name", error)),
        }
    }

    /// Writes a text to the new file that argument i names. What goes wrong is told, and then a file that was made is
    /// removed. What stands under that name already is left alone.
    fn write_new(&self, i: usize, text: &[u8]) -> Result<(), Told> {
        let mut buf = [0; NAME_ROOM];
        match self.named(i, &mut buf) {
            Ok(path) => self.make_file(path, text),
            Err(error) => Err(self.failed(b"the new file's name", error)),
        }
    }

    /// Writes the new file, if one is made, under the name that argument i is, and prints the text of a file that is
    /// whole.
    pub fn write(&self, i: usize, output: Output) -> Result<(), Told> {
        if let Some(bytes) = output.file {
            self.write_new(i, bytes)?;
        }
        self.print(output.text);
        Ok(())
    }

    /// The usage that was asked for, on standard output.
    pub fn usage(&self) {
        self.print(self.usage);
    }

    /// The usage after a wrong use, on standard error.
    pub fn misused(&self) {
        self.say(self.usage);
    }
}

// A run: what is read, and what is made of it.
use crate::{Program, Told};

// One byte more than a log has at most, to tell a longer one, and one more than a record of settings has.
// Arrays of fixed size: a program has no heap (docs/DECISIONS.md, reading 91).
const LOG_ROOM: usize = 65537;

const RECORD_ROOM: usize = 23;

impl Program<'_> {
    /// Calls f with the settings record that argument i names.
    pub fn with_record<F: FnOnce(&[u8])>(&self, i: usize, f: F)
        requires { F.IsAlwaysCallable f }
    {
        let mut record = [0u8; RECORD_ROOM];
        if let Ok(record) = self.read_input(i, &mut record) {
            f(record);
        }
    }

    /// Calls f with the log that argument i names, or where no log is asked for with an empty one, and none is read.
    pub fn with_log<F: FnOnce(&[u8])>(&self, asked: bool, i: usize, f: F)
        requires { F.IsAlwaysCallable f }
    {
        if !asked {
            f(b"");
            return;
        }
        let mut log = [0u8; LOG_ROOM];
        if let Ok(log) = self.read_input(i, &mut log) {
            f(log);
        }
    }

    /// Runs `NAME [--settings FILE] [FILE]`: f is called with the settings record, if there is one, and with the log,
    /// which is read if there is no record or it is accepted.
    pub fn run<A: Fn(&[u8]) -> bool, F: Fn(Option<&[u8]>, &[u8])>(&self, accepts: A, f: F)
        requires accepts_called { A.IsAlwaysCallable accepts }
        requires f_called { F.IsAlwaysCallable f }
    {
        if self.asks_help() {
            self.usage();
            return;
        }
        if self.says(1, b"--settings") {
            if !self.two_inputs(2, 3) {
                self.misused();
                return;
            }
            self.with_record(2, |record| {
                self.with_log(accepts(record), 3, |log| f(Some(record), log))
            });
            return;
        }
        if !self.one_input(1) {
            self.misused();
            return;
        }
        self.with_log(true, 1, |log| f(None, log));
    }
}

// Replays an event log on two boards from reset, one by each engine, and writes the text of the replay as long as they
// agree (document 02, K3):
//
//     twin [--settings FILE] [FILE]
//
// The log is the file, or standard input. The boards are reset with the settings of a record, or with document 01's. A
// record that is refused is said, and no log is read. At most 65,536 bytes are taken; of a longer log the program
// says only `too long`.
#![tactic(auto)]

mod play;
mod progress;
mod walk;

ghost use Rattle.std.specs.Prelude.{◌≡◌, true, is_ok, IfOk};
ghost use Rattle.board.specs.State.{reset_to};
ghost use Rattle.event_log.specs.Output.{output_from, output_of, output_with, accepts};

use board::Board;
use program::Program;
use settings::Settings;

/// What both engines made of a log.
#[derive(Clone, Copy)]
pub struct Twin {
    pub first: Board,
    pub second: Board,
    // the place in the log, how many records were played, and how many bytes of text were written
    pub at: usize,
    pub records: u64,
    pub written: usize,
}

/// The engines differ on a record, which is written too: how many bytes of text there are then.
#[derive(Clone, Copy)]
pub struct Differ {
    pub written: usize,
}

// 64 bytes for each of the 21,845 records that a log of 65,536 bytes can hold, and for three lines more: the last
// one, or the three that tell a difference. The text is put into an array that is lent: a program has no heap
// (docs/DECISIONS.md, reading 91).
const ROOM: usize = 1398272;

const USAGE: &[u8] =
    b"usage: twin [--settings FILE] [FILE]\nReplays an event log on two engines side by side, and prints a line for each record.\nAt the first record where they differ it prints 'differ RECORD at OFFSET' and the\nline of each, and stops. The second engine walks every tick of an advance.\nFILE is the log, of at most 65,536 bytes; no FILE or - is standard input.\n--settings resets both boards with the settings of a record, which is a file too, or -\nif the log is none.\n";

// `rt` stays a parameter beside the log: it only shows how far a walk is, and no clause speaks of it.
/// What a log prints on a board and its twin; where they differ, the text is an error.
fn played<'b>(
    rt: &HostRuntime,
    log: &[u8],
    board: Board,
    out: &'b mut [u8; ROOM],
) -> Result<&'b [u8], &'b [u8]>
    ensures { (is_ok result ≡ true) × IfOk result (λ s. s.now ≡ output_from board log.now) }
{
    if 65536 < log.len() {
        let n = lines::too_long(out, 0);
        return Ok(&out[..n]);
    }
    match play::fill(rt, log, board, out) {
        Ok(twin) => {
            let n = twin.written;
            Ok(&out[..n])
        }
        Err(differ) => {
            let n = differ.written;
            Err(&out[..n])
        }
    }
}

// This and the next three are alike in `replay`, and not generic: what a log prints would be a closure, whose
// contract says as much as each of them does. `accepts` would make `program` stand on `event_log`, whose definition
// it keeps.
/// What it prints on boards that are reset with settings.
fn output_from<'b>(
    rt: &HostRuntime,
    settings: Settings,
    log: &[u8],
    out: &'b mut [u8; ROOM],
) -> Result<&'b [u8], &'b [u8]>
    ensures { (is_ok result ≡ true) × IfOk result (λ s. s.now ≡ output_from (reset_to settings) log.now) }
{
    played(rt, log, Board::reset_to(settings), out)
}

/// The whole output for a log: what `replay` writes.
fn output<'b>(rt: &HostRuntime, log: &[u8], out: &'b mut [u8; ROOM]) -> Result<&'b [u8], &'b [u8]>
    ensures { (is_ok result ≡ true) × IfOk result (λ s. s.now ≡ output_of log.now) }
{
    output_from(rt, Settings::standard(), log, out)
}

/// The whole output for a settings record and a log: what `replay` writes.
fn output_with<'b>(
    rt: &HostRuntime,
    bytes: &[u8],
    log: &[u8],
    out: &'b mut [u8; ROOM],
) -> Result<&'b [u8], &'b [u8]>
    ensures { (is_ok result ≡ true) × IfOk result (λ s. s.now ≡ output_with bytes.now log.now) }
{
    match Settings::accepted(bytes) {
        Ok(settings) => output_from(rt, settings, log, out),
        Err(refusal) => {
            let n = lines::setting::refused(refusal, out, 0);
            Ok(&out[..n])
        }
    }
}

/// Whether the record is accepted: only then the log is read.
fn accepts(bytes: &[u8]) -> bool
    ensures { result ≡ accepts bytes.now }
{
    Settings::accepted(bytes).is_ok()
}

/// Prints the text. A difference is told on standard error too.
fn tell(program: &Program, output: Result<&[u8], &[u8]>) {
    match output {
        Ok(text) => program.print(text),
        Err(text) => {
            program.print(text);
            program.told(b"the engines", b"they differ");
        }
    }
}

fn main(rt: HostRuntime) {
    let program = Program::new(&rt, b"twin", USAGE);
    program.run(accepts, |record, log| {
        let mut out = [0; ROOM];
        let output = match record {
            Some(bytes) => output_with(&rt, bytes, log, &mut out),
            None => output(&rt, log, &mut out),
        };
        tell(&program, output);
    });
}

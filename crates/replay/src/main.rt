// Replays an event log on a board from reset, and writes the text of the replay:
//
//     replay [--settings FILE] [FILE]
//
// The log is the file, or standard input. The board is reset with the settings of a record, or with document 01's. A
// record that is refused is said, and no log is read. At most 65,536 bytes are taken; of a longer log the program
// says only `too long`.
#![tactic(auto)]

ghost use Rattle.std.specs.Prelude.{◌≡◌, true};
ghost use Rattle.board.specs.Formed.{well_formed};
ghost use Rattle.settings.specs.Settings.{in_range};
ghost use Rattle.board.specs.State.{reset_to};
ghost use Rattle.event_log.specs.Output.{output_from, output_of, output_with, accepts};

use board::Board;
use program::Program;
use settings::Settings;

// 64 bytes for each of the 21,845 records that a log of 65,536 bytes can hold, and for the last line: the bound that
// is proved. Counted by hand, no log prints more than 928,244 bytes. A delivery's line is the longest for its bytes
// of log, 38 bytes and the digits of its number for 3; 21,845 of them are 928,225, and `stopped 8 at 65535` is 19.
// The text is put into an array that is lent: a program has no heap (docs/DECISIONS.md, reading 91).
const ROOM: usize = 1398144;

const USAGE: &[u8] =
    b"usage: replay [--settings FILE] [FILE]\nReplays an event log on a board from reset, and prints a line for each record.\nFILE is the log, of at most 65,536 bytes; no FILE or - is standard input.\n--settings resets the board with the settings of a record, which is a file too, or -\nif the log is none.\n";

/// What a log prints on a board.
fn played<'b>(log: &[u8], board: Board, out: &'b mut [u8; ROOM]) -> &'b [u8]
    requires { well_formed board ≡ true }
    ensures { result.now ≡ output_from board log.now }
{
    if 65536 < log.len() {
        let n = lines::too_long(out, 0);
        return &out[..n];
    }
    let r = reader::replay(log, board, out);
    let n = r.written;
    &out[..n]
}

/// What it prints on a board that is reset with settings.
fn output_from<'b>(settings: Settings, log: &[u8], out: &'b mut [u8; ROOM]) -> &'b [u8]
    requires { in_range settings ≡ true }
    ensures { result.now ≡ output_from (reset_to settings) log.now }
{
    played(log, Board::reset_to(settings), out)
}

/// The whole output for a log.
fn output<'b>(log: &[u8], out: &'b mut [u8; ROOM]) -> &'b [u8]
    ensures { result.now ≡ output_of log.now }
{
    output_from(Settings::standard(), log, out)
}

/// The whole output for a settings record and a log.
fn output_with<'b>(bytes: &[u8], log: &[u8], out: &'b mut [u8; ROOM]) -> &'b [u8]
    ensures { result.now ≡ output_with bytes.now log.now }
{
    match Settings::accepted(bytes) {
        Ok(settings) => output_from(settings, log, out),
        Err(refusal) => {
            let n = lines::setting::refused(refusal, out, 0);
            &out[..n]
        }
    }
}

/// Whether the record is accepted: only then the log is read.
fn accepts(bytes: &[u8]) -> bool
    ensures { result ≡ accepts bytes.now }
{
    Settings::accepted(bytes).is_ok()
}

fn main(rt: HostRuntime) {
    let program = Program::new(&rt, b"replay", USAGE);
    program.run(accepts, |record, log| {
        let mut out = [0; ROOM];
        program.print(match record {
            Some(bytes) => output_with(bytes, log, &mut out),
            None => output(log, &mut out),
        });
    });
}

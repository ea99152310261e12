// Replays an event log on a mill from reset that is told its pause pin, and writes the text of the replay with the
// pause screen's words:
//
//     screen [--settings FILE] PIN [FILE]
//
// The log is the file, or standard input. The mill is reset with the settings of a record, or with document 01's. A
// record that is refused, or a PIN above 23, is said, and no log is read. At most 65,536 bytes are taken; of a longer
// log the program says only `too long`.
#![tactic(auto)]

ghost use Rattle.std.specs.Prelude.{◌≡◌, true};
ghost use Rattle.mill.specs.Mill.{well_formed};
ghost use Rattle.settings.specs.Settings.{in_range};
ghost use Rattle.screen.specs.Output.{told_from, played_of, output_from, output_of, output_with, takes_from, takes_with};

use answers::Answer;
use mill::{Mill, MillTurn};
use program::Program;
use settings::Settings;

// 80 bytes for each of the 21,845 records that a log of 65,536 bytes can hold, and for the first line and the last.
// The text is put into an array that is lent: a program has no heap (docs/DECISIONS.md, reading 91).
const ROOM: usize = 1747680;

const USAGE: &[u8] =
    b"usage: screen [--settings FILE] PIN [FILE]\nReplays an event log on a board from reset, and prints a line for each record\nand for each word of the pause screen: running, asked, taken, paused.\nPIN is the pause key's pin, a decimal number from 0 to 23.\nFILE is the log, of at most 65,536 bytes; no FILE or - is standard input.\nThe FILE of --settings is a settings record of 22 bytes, with which the board is\nreset; it is standard input for -, if the log is a file.\n";

/// A mill reset with settings, and told its pin.
// Settings, pin and log stay parameters: they come one by one, and where one is refused the next is not read.
fn told(settings: Settings, pin: u64) -> MillTurn
    ensures { result ≡ told_from settings pin }
{
    Mill::reset_to(settings).tell(pin)
}

/// Whether the mill takes the pin: only then the log is read.
#[tactic(auto, unfolding(answers::specs::Numbers::is_done))]
fn takes(settings: Settings, pin: u64) -> bool
    ensures { result ≡ takes_from settings pin }
{
    !matches!(told(settings, pin).answer, Answer::Refused(_))
}

/// What a log prints on a mill that was told its pin.
// Like `played` of `replay`, and not generic: the run would be a closure, whose contract says as much as this one's.
fn played<'b>(log: &[u8], mill: Mill, out: &'b mut [u8; ROOM]) -> &'b [u8]
    requires { well_formed mill ≡ true }
    ensures { result.now ≡ played_of log.now mill }
{
    if 65536 < log.len() {
        let n = lines::too_long(out, 0);
        return &out[..n];
    }
    let w = watch::watch(log, mill, out);
    let n = w.written;
    &out[..n]
}

/// What a pin and a log print on a mill that is reset with settings.
fn output_from<'b>(settings: Settings, pin: u64, log: &[u8], out: &'b mut [u8; ROOM]) -> &'b [u8]
    requires { in_range settings ≡ true }
    ensures { result.now ≡ output_from settings pin log.now }
{
    let turn = told(settings, pin);
    match turn.answer {
        Answer::Refused(refusal) => {
            let n = lines::refused(refusal, out, 0);
            &out[..n]
        }
        _ => played(log, turn.mill, out),
    }
}

/// The whole output for a pin and a log.
fn output<'b>(pin: u64, log: &[u8], out: &'b mut [u8; ROOM]) -> &'b [u8]
    ensures { result.now ≡ output_of pin log.now }
{
    output_from(Settings::standard(), pin, log, out)
}

/// The whole output for a settings record, a pin and a log.
fn output_with<'b>(bytes: &[u8], pin: u64, log: &[u8], out: &'b mut [u8; ROOM]) -> &'b [u8]
    ensures { result.now ≡ output_with bytes.now pin log.now }
{
    match Settings::accepted(bytes) {
        Ok(settings) => output_from(settings, pin, log, out),
        Err(refusal) => {
            let n = lines::setting::refused(refusal, out, 0);
            &out[..n]
        }
    }
}

/// Whether the record is accepted and the mill takes the pin: only then the log is read.
fn takes_with(bytes: &[u8], pin: u64) -> bool
    ensures { result ≡ takes_with bytes.now pin }
{
    match Settings::accepted(bytes) {
        Ok(settings) => takes(settings, pin),
        Err(_) => false,
    }
}

fn run(program: &Program, pin: u64) {
    program.with_log(takes(Settings::standard(), pin), 2, |log| {
        let mut out = [0; ROOM];
        program.print(output(pin, log, &mut out));
    });
}

/// The same with a settings record.
fn run_with(program: &Program, pin: u64) {
    program.with_record(2, |record| {
        program.with_log(takes_with(record, pin), 4, |log| {
            let mut out = [0; ROOM];
            program.print(output_with(record, pin, log, &mut out));
        });
    });
}

fn with_settings(program: &Program) {
    match program.number(3) {
        Some(pin) if program.two_inputs(2, 4) => run_with(program, pin),
        _ => program.misused(),
    }
}

fn without(program: &Program) {
    match program.number(1) {
        Some(pin) if program.one_input(2) => run(program, pin),
        _ => program.misused(),
    }
}

// Not `Program::run`, which knows no argument but the two files: PIN stands between them.
fn main(rt: HostRuntime) {
    let program = Program::new(&rt, b"screen", USAGE);
    if program.asks_help() {
        program.usage();
    } else if program.says(1, b"--settings") {
        with_settings(&program);
    } else {
        without(&program);
    }
}

// Shows the settings that a record has, or makes a record of six numbers:
//
//     settings show [FILE]
//     settings make VENDOR PERIOD MASK0 MASK1 MASK2 ID OUT
//
// A record that is refused prints only `refused R`, and a number that is too large for its field or out of range only
// `refused 10`: then no file is made. OUT is made before anything is printed; what exists already is left alone.
#![tactic(auto)]

ghost use Rattle.std.specs.Prelude.{◌≡◌, true, is_some, IfSome, SomeIff};
ghost use Rattle.settings_file.specs.Output.{shown_of, fits, settings_of, takes, made_of, file_of};

use answers::Refusal;
use program::{Output, Program, Told};
use settings::Settings;

// Room for the text of a record.
// The text is put into an array that is lent: a program has no heap (docs/DECISIONS.md, reading 91).
const TEXT: usize = 128;

const USAGE: &[u8] =
    b"usage: settings show [FILE]\n       settings make VENDOR PERIOD MASK0 MASK1 MASK2 ID OUT\nshow prints the settings that a record of 22 bytes has, a line for each number.\nFILE is the record; no FILE or - is standard input.\nmake writes the record of six numbers to the new file OUT, and prints the same.\nA number is decimal, or hexadecimal after 0x. VENDOR has 16 bits, PERIOD is 1 to\n100,000,000 femtoseconds, a mask is nonzero and below 2^24, ID is at most 15.\nOUT must not exist yet.\n";

/// Six numbers, as the arguments say them.
#[derive(Clone, Copy)]
struct Asked {
    vendor: u64,
    period: u64,
    mask0: u64,
    mask1: u64,
    mask2: u64,
    id: u64,
}

impl Asked {
    /// The numbers that the arguments say, if each says one.
    fn of(program: &Program) -> Option<Asked> {
        Some(Asked {
            vendor: program.either(2)?,
            period: program.either(3)?,
            mask0: program.either(4)?,
            mask1: program.either(5)?,
            mask2: program.either(6)?,
            id: program.either(7)?,
        })
    }
}

/// The whole output for a record.
fn shown<'b>(bytes: &[u8], out: &'b mut [u8; TEXT]) -> &'b [u8]
    ensures { result.now ≡ shown_of bytes.now }
{
    match Settings::accepted(bytes) {
        Ok(settings) => {
            let n = lines::setting::text(settings, out, 0);
            &out[..n]
        }
        Err(refusal) => {
            let n = lines::refused(refusal, out, 0);
            &out[..n]
        }
    }
}

/// Each number in its field, if each fits.
fn fields(asked: Asked) -> Option<Settings>
    ensures { SomeIff result (fits asked ≡ true) (settings_of asked) }
{
    Some(Settings {
        vendor: u16::try_from(asked.vendor).ok()?,
        period: u32::try_from(asked.period).ok()?,
        mask0: u32::try_from(asked.mask0).ok()?,
        mask1: u32::try_from(asked.mask1).ok()?,
        mask2: u32::try_from(asked.mask2).ok()?,
        id: u8::try_from(asked.id).ok()?,
    })
}

/// The settings of six numbers, if each fits its field and is in its range.
fn taken(asked: Asked) -> Option<Settings>
    ensures { SomeIff result (takes asked ≡ true) (settings_of asked) }
{
    let settings = fields(asked)?;
    if !settings.in_range() {
        return None;
    }
    Some(settings)
}

/// The whole output for six numbers.
fn made<'b>(asked: Asked, file: &'b mut [u8; 22], out: &'b mut [u8; TEXT]) -> Output<'b>
    ensures text_value { result.text.now ≡ made_of asked }
    ensures file_value { (is_some result.file ≡ takes asked) × IfSome result.file (λ s. s.now ≡ file_of asked) }
{
    match taken(asked) {
        Some(settings) => {
            settings.write(file);
            let n = lines::setting::text(settings, out, 0);
            Output {
                file: Some(file),
                text: &out[..n],
            }
        }
        None => {
            let n = lines::refused(Refusal::Range, out, 0);
            Output {
                file: None,
                text: &out[..n],
            }
        }
    }
}

/// One byte more than a record has is read, to tell a longer one.
fn show(program: &Program) {
    program.with_record(2, |record| {
        let mut out = [0; TEXT];
        program.print(shown(record, &mut out));
    });
}

fn make(program: &Program, asked: Asked) -> Result<(), Told> {
    program.names_file(8)?;
    let mut file = [0; 22];
    let mut out = [0; TEXT];
    program.write(8, made(asked, &mut file, &mut out))
}

fn shows(program: &Program) {
    if program.one_input(2) {
        show(program);
    } else {
        program.misused();
    }
}

fn makes(program: &Program) {
    match Asked::of(program) {
        Some(asked) if program.one_file(8) => {
            let _ = make(program, asked);
        }
        _ => program.misused(),
    }
}

fn main(rt: HostRuntime) {
    let program = Program::new(&rt, b"settings", USAGE);
    if program.asks_help() {
        program.usage();
    } else if program.says(1, b"show") {
        shows(&program);
    } else if program.says(1, b"make") {
        makes(&program);
    } else {
        program.misused();
    }
}

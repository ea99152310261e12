// Gets what can be got from a damaged event log: copies its records to a new file, and prints what was skipped.
//
//     salvage FILE OUT
//
// The log is the file, or standard input where FILE is `-`. At most 262,144 bytes are taken; of a longer log the
// program says only `too long`, and makes no file. OUT is made before anything is printed; what exists already is left
// alone.
#![tactic(auto)]

mod report;

ghost use Rattle.std.specs.Prelude.{◌≡◌, is_some, IfSome};
ghost use Rattle.salvage_log.specs.Output.{takes, output_of, file_of};

use program::{Output, Program, Told};

// One byte more than is taken, to tell a longer log.
// Arrays of fixed size, here and below: a program has no heap (docs/DECISIONS.md, reading 91).
const LOG: usize = 262145;

// The records that are kept are no more bytes than the log has.
const KEPT: usize = 262144;

// Two numbers for each of the 65,536 stretches that a log of 262,144 bytes can have: between two of them stands a
// record, of 3 bytes or more.
const LIST: usize = 131072;

// 33 bytes for the line of each stretch, and 128 for the heading and the last line, with the 64 that each line asks
// for.
const TEXT: usize = 2162816;

const USAGE: &[u8] =
    b"usage: salvage FILE OUT\nCopies the records that a damaged event log still has to the new file OUT, and\nprints a line for each stretch that was skipped, and how many records were kept.\nFILE is the log, of at most 262,144 bytes; - is standard input.\nOUT must not exist yet.\n";

/// The whole output for a log.
fn output<'b>(
    log: &[u8],
    kept: &'b mut [u8; KEPT],
    list: &mut [u64; LIST],
    out: &'b mut [u8; TEXT],
) -> Output<'b>
    ensures text_value { result.text.now ≡ output_of log.now }
    ensures file_value { (is_some result.file ≡ takes log.now) × IfSome result.file (λ s. s.now ≡ file_of log.now) }
{
    if 262144 < log.len() {
        let n = lines::too_long(out, 0);
        return Output {
            file: None,
            text: &out[..n],
        };
    }
    match salvage::salvage(log, kept, list) {
        Ok(got) => {
            let n = report::report(list, got.stretches, got.records as u64, out);
            Output {
                file: Some(&kept[..got.bytes]),
                text: &out[..n],
            }
        }
        // it is proved that there is always room
        Err(_) => Output {
            file: None,
            text: &[],
        },
    }
}

fn answer(program: &Program, log: &[u8]) -> Result<(), Told> {
    let mut kept = [0; KEPT];
    let mut list = [0; LIST];
    let mut out = [0; TEXT];
    program.write(2, output(log, &mut kept, &mut list, &mut out))
}

fn run(program: &Program) -> Result<(), Told> {
    program.names_file(2)?;
    let mut log = [0; LOG];
    answer(program, program.read_input(1, &mut log)?)
}

fn main(rt: HostRuntime) {
    let program = Program::new(&rt, b"salvage", USAGE);
    if program.asks_help() {
        program.usage();
    } else if !program.input_and_file(1, 2) {
        program.misused();
    } else {
        let _ = run(&program);
    }
}

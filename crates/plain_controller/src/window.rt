// The window: "Width 4 only; alignment isn't tested. Offset 0x00 is the index (bits 7:0 kept, the rest read 0).
// Offset 0x10 is the data window; … Any other offset: 1."
// A controller and an access's width, offset and value go together here, as the paper names them: a struct of them
// would be made in one line and taken apart in the next.
ghost use Rattle.std.specs.Prelude.{◌≡◌, ◌<◌, ◌/◌, ◌%◌, ◌^◌};
ghost use Rattle.answers.specs.declared.Answer.TheVariants as answer;
ghost use Rattle.controller.specs.State.{reset_to, with_id, with_index, turn};
ghost use Rattle.controller.specs.State.{refused as refused_turn};
ghost use Rattle.controller.specs.Window.{id_shown, data_read, data_written, reading_of, writing_of};

use crate::pin::{held_written, low_shown};
use crate::word::written;
use answers::{Answer, Refusal};
use controller::{Controller, Turn};
use entries::Entries;

// "Reset: every low word 0x00010000, high 0, …, index 0, outside wires low." The id is the settings' (K6).
pub fn reset(id: u8) -> Controller
    ensures { result ≡ reset_to id }
{
    Controller {
        id: id as u32,
        index: 0,
        entries: Entries {
            low: [0x10000; 24],
            destination: [0; 24],
            level: [0; 24],
            held: [0; 24],
        },
    }
}

// A write that is done: "the answer and the next state".
fn done(c: Controller) -> Turn
    ensures { result ≡ turn c answer.Done }
{
    Turn {
        controller: c,
        answer: Answer::Done,
    }
}

// A read that is done: the answer is the value, and the state is the one that came.
fn valued(c: Controller, value: u32) -> Turn
    ensures { result ≡ turn c (answer.Value value) }
{
    Turn {
        controller: c,
        answer: Answer::Value(value as u64),
    }
}

// A refusal is the answer, and the controller stays: "same state".
fn refused(c: Controller, refusal: Refusal) -> Turn
    ensures { result ≡ refused_turn c refusal }
{
    Turn {
        controller: c,
        answer: Answer::Refused(refusal),
    }
}

// ---- reading

// Index 0x00, "id, bits 27:24, writable", and 0x02, "bits 27:24 equal the id, read only".
fn id_shown(c: Controller) -> u32
    ensures { result ≡ id_shown c }
{
    c.id % 16 * 0x1000000
}

// The register that the index names. Index 0x10+2n is "entry n, low word", 0x11+2n "entry n, high word: destination,
// bits 31:24". "Other indexes read 0."
#[tactic(auto, unfolding(controller::specs::Window::data_read, entries::specs::Table::low_shown))]
fn data_read(c: Controller) -> u32
    ensures { result ≡ data_read c }
{
    let e = c.entries;
    let index = c.index;
    match index {
        0x00 | 0x02 => id_shown(c),
        0x01 => 0x0017_0011,
        0x10..=0x3f => {
            let n = (index as usize - 0x10) / 2;
            if index % 2 == 0 {
                low_shown(e.low[n], e.level[n], e.held[n])
            } else {
                e.destination[n] as u32 * 0x1000000
            }
        }
        _ => 0,
    }
}

// "An access then tests … 2, 1 for the offset, …": "Width 4 only; …", and "Any other offset: 1."
#[tactic(auto, unfolding(controller::specs::Window::reading_of))]
pub fn reading(c: Controller, width: u64, offset: u64) -> Turn
    ensures { result ≡ reading_of c width offset }
{
    if width != 4 {
        return refused(c, Refusal::Width);
    }
    match offset {
        0x00 => valued(c, c.index),
        0x10 => valued(c, data_read(c)),
        _ => refused(c, Refusal::Offset),
    }
}

// ---- writing

// Index 0x00: "id, bits 27:24, writable".
fn id_written(c: Controller, value: u32) -> Controller
    ensures { result ≡ with_id c (value / 2 ^ 24 % 16) }
{
    Controller {
        id: value / 0x1000000 % 16,
        ..c
    }
}

// The register that the index names, an entry's words as in data_read. "Other indexes read 0. Writes to them and to
// read-only bits answer 0 and change nothing."
#[tactic(auto, unfolding(controller::specs::Window::data_written, entries::specs::Table::low_written))]
fn data_written(c: Controller, value: u32) -> Controller
    ensures { result ≡ data_written c value }
{
    let mut entries = c.entries;
    let index = c.index;
    match index {
        0x00 => id_written(c, value),
        0x10..=0x3f => {
            let n = (index as usize - 0x10) / 2;
            if index % 2 == 0 {
                let low = written(entries.low[n], value);
                entries.low[n] = low;
                entries.held[n] = held_written(low, entries.held[n]);
            } else {
                entries.destination[n] = (value / 0x1000000) as u8;
            }
            Controller { entries, ..c }
        }
        _ => c,
    }
}

// "Offset 0x00 is the index (bits 7:0 kept, the rest read 0)."
fn index_written(c: Controller, value: u64) -> Controller
    ensures { result ≡ with_index c (value % 256) }
{
    Controller {
        index: (value % 256) as u32,
        ..c
    }
}

// "An access then tests … 2, 1 for the offset, 4."
#[tactic(auto, unfolding(controller::specs::Window::writing_of))]
pub fn writing(c: Controller, width: u64, offset: u64, value: u64) -> Turn
    ensures { result ≡ writing_of c width offset value }
{
    if width != 4 {
        return refused(c, Refusal::Width);
    }
    if !matches!(offset, 0x00 | 0x10) {
        return refused(c, Refusal::Offset);
    }
    if 4294967296 <= value {
        return refused(c, Refusal::Value);
    }
    if offset == 0x00 {
        return done(index_written(c, value));
    }
    done(data_written(c, value as u32))
}

// "Delivery step" and "End of interrupt".
ghost use Rattle.std.specs.Prelude.{◌≡◌, ◌<◌};
ghost use Rattle.std.specs.Option.{IfSome, unwrap_or};
ghost use Rattle.entries.specs.Table.{first_eligible};
ghost use Rattle.entries.specs.Table.{ended as ended_entries};
ghost use Rattle.controller.specs.Steps.{after_end, delivering_of};

use crate::pin::{eligible, ended_word};
use crate::word::{is_level, logical, vector, with_remote};
use answers::Answer;
use controller::{Controller, Turn};
use entries::Entries;
use std::array;

// "Delivery step: the lowest-numbered eligible pin …": each is tried in turn.
fn first_eligible(e: Entries) -> Option<usize>
    ensures lowest { unwrap_or result 24 ≡ first_eligible e }
    ensures on_a_pin { IfSome result (λ n. n < 24) }
{
    for i in 0..24 {
        if eligible(e.low[i], e.level[i], e.held[i]) {
            return Some(i);
        }
    }
    None
}

// The delivery step. "… gives its pin number, vector, destination and bit 11. An edge pin loses its held edge; a level
// pin gets remote IRR 1. No eligible pin: none, same state."
#[tactic(auto, unfolding(controller::specs::Steps::delivering_of, entries::specs::Table::taken))]
pub fn delivering(c: Controller) -> Turn
    ensures { result ≡ delivering_of c }
{
    let Some(n) = first_eligible(c.entries) else {
        return Turn {
            controller: c,
            answer: Answer::Nothing,
        };
    };
    let mut entries = c.entries;
    let low = entries.low[n];
    if is_level(low) {
        entries.low[n] = with_remote(low);
    } else {
        entries.held[n] = 0;
    }
    Turn {
        controller: Controller { entries, ..c },
        answer: Answer::Interrupt {
            pin: n as u8,
            vector: vector(low),
            destination: c.entries.destination[n],
            logical: logical(low),
        },
    }
}

// "End of interrupt with vector v: …", at each entry.
fn ended_entries(e: Entries, v: u8) -> Entries
    ensures { result ≡ ended_entries e v }
{
    let low = e.low;
    Entries {
        low: array::from_fn(|i| ended_word(low[i], v)),
        ..e
    }
}

// "End of interrupt with vector v: every level entry whose present vector is v gets remote IRR 0. …" The rest of the
// controller stays.
pub fn ended(c: Controller, v: u8) -> Controller
    ensures { result ≡ after_end c v }
{
    Controller {
        entries: ended_entries(c.entries, v),
        ..c
    }
}

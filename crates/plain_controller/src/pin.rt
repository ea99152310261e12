// One pin: its entry's low word, the level of its wire, and whether it holds an edge, 0 or 1.
// They stay parameters: they stand in three arrays of the state, and a struct would be built for each question.
ghost use Rattle.std.specs.Prelude.{◌≡◌};
ghost use Rattle.entries.specs.Pin.{asserted, makes_edge, held_after, eligible, ended_word, pin_ok};
ghost use Rattle.entries.specs.Word.{shown as shown_of};
ghost use Rattle.entries.specs.Table.{held_after_write};

use crate::word::{
    active_low, is_level, is_masked, is_remote, mode, shown, vector, without_remote, word_ok,
};

// "A pin is asserted when its wire differs from its active-low bit."
#[tactic(auto, unfolding(entries::specs::Pin::asserted))]
fn asserted(low: u32, level: u8) -> bool
    ensures { result ≡ asserted low level }
{
    level != active_low(low)
}

// "… each unmasked edge pin that went from not asserted to asserted holds an edge. Edges on a masked pin are ignored."
#[tactic(auto, unfolding(entries::specs::Pin::makes_edge))]
fn makes_edge(low: u32, before: u8, after: u8) -> bool
    ensures { result ≡ makes_edge low before after }
{
    !is_masked(low) & !is_level(low) & !asserted(low, before) & asserted(low, after)
}

// A pin that makes an edge "holds an edge" after the step; any other holds what it held.
#[tactic(auto, unfolding(entries::specs::Pin::held_after))]
pub(crate) fn held_after(low: u32, before: u8, after: u8, held: u8) -> u8
    ensures { result ≡ held_after low before after held }
{
    if makes_edge(low, before, after) {
        1
    } else {
        held
    }
}

// "Eligible: unmasked, delivery mode 000, and either edge with an edge held, or level, asserted, remote IRR 0."
#[tactic(auto, unfolding(entries::specs::Pin::eligible))]
pub(crate) fn eligible(low: u32, level: u8, held: u8) -> bool
    ensures { result ≡ eligible low level held }
{
    !is_masked(low)
        & (mode(low) == 0)
        & (!is_level(low) & (held == 1) | is_level(low) & asserted(low, level) & !is_remote(low))
}

// A low word as it reads: "Bit 12 reads 1 exactly for an eligible pin."
pub(crate) fn low_shown(low: u32, level: u8, held: u8) -> u32
    ensures { result ≡ shown_of low (eligible low level held) }
{
    shown(low, eligible(low, level, held))
}

// What a low-word write that leaves this word leaves of the held edge: "A low-word write never makes an edge. If it
// leaves the pin level, a held edge is dropped; otherwise the held edge stays, masked or not."
pub(crate) fn held_written(low: u32, held: u8) -> u8
    ensures { result ≡ held_after_write low held }
{
    if is_level(low) { 0 } else { held }
}

// "End of interrupt with vector v: every level entry whose present vector is v gets remote IRR 0. Edge entries are
// untouched."
#[tactic(auto, unfolding(entries::specs::Pin::ended_word))]
pub(crate) fn ended_word(low: u32, v: u8) -> u32
    ensures { result ≡ ended_word low v }
{
    if is_level(low) & (vector(low) == v) {
        without_remote(low)
    } else {
        low
    }
}

// "Well formed: … no edge held on a level pin; stored entry words contain writable bits only, beside remote IRR; … any
// other kept number fits its register or setting.": levels and held edges are 0 or 1.
#[tactic(auto, unfolding(entries::specs::Pin::pin_ok))]
pub(crate) fn pin_ok(low: u32, level: u8, held: u8) -> bool
    ensures { result ≡ pin_ok low level held }
{
    word_ok(low) & !(is_level(low) & (held == 1)) & (level <= 1) & (held <= 1)
}

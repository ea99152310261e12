// "Each low word is taken apart by bit position: 7:0 vector, 10:8 delivery mode, 11 logical destination, 12 delivery
// status (read only), 13 active low, 14 remote IRR (read only), 15 level, 16 mask." A word divided by BIT_n has its bit
// n lowest.
ghost use Rattle.std.specs.Prelude.{◌≡◌};
ghost use Rattle.entries.specs.Word.{vector_of, mode_of, logical_of, active_low_of, remote_of, level_of, masked_of, with_remote, without_remote, writable, written, shown, word_ok};

const BIT_8: u32 = 0x100;

const BIT_11: u32 = 0x800;

const BIT_12: u32 = 0x1000;

const BIT_13: u32 = 0x2000;

const BIT_14: u32 = 0x4000;

const BIT_15: u32 = 0x8000;

const BIT_16: u32 = 0x10000;

const BIT_17: u32 = 0x20000;

// "7:0 vector"
pub(crate) fn vector(low: u32) -> u8
    ensures { result ≡ vector_of low }
{
    (low % BIT_8) as u8
}

// "10:8 delivery mode"
#[tactic(auto, unfolding(entries::specs::Word::mode_of))]
pub(crate) fn mode(low: u32) -> u32
    ensures { result ≡ mode_of low }
{
    low / BIT_8 % 8
}

// "11 logical destination"
pub(crate) fn logical(low: u32) -> u8
    ensures { result ≡ logical_of low }
{
    (low / BIT_11 % 2) as u8
}

// "13 active low"
pub(crate) fn active_low(low: u32) -> u8
    ensures { result ≡ active_low_of low }
{
    (low / BIT_13 % 2) as u8
}

// "14 remote IRR (read only)"
#[tactic(auto, unfolding(entries::specs::Word::remote_of))]
pub(crate) fn is_remote(low: u32) -> bool
    ensures { result ≡ remote_of low }
{
    low / BIT_14 % 2 == 1
}

// "15 level"
#[tactic(auto, unfolding(entries::specs::Word::level_of))]
pub(crate) fn is_level(low: u32) -> bool
    ensures { result ≡ level_of low }
{
    low / BIT_15 % 2 == 1
}

// "16 mask"
#[tactic(auto, unfolding(entries::specs::Word::masked_of))]
pub(crate) fn is_masked(low: u32) -> bool
    ensures { result ≡ masked_of low }
{
    low / BIT_16 % 2 == 1
}

// The word with remote IRR 0.
#[tactic(auto, unfolding(entries::specs::Word::without_remote))]
pub(crate) fn without_remote(low: u32) -> u32
    ensures { result ≡ without_remote low }
{
    low - low / BIT_14 % 2 * BIT_14
}

// The word with remote IRR 1.
#[tactic(auto, unfolding(entries::specs::Word::with_remote))]
pub(crate) fn with_remote(low: u32) -> u32
    ensures { result ≡ with_remote low }
{
    low - low / BIT_14 % 2 * BIT_14 + BIT_14
}

// The writable bits of a value: 11:0, 13 and 16:15.
#[tactic(auto, unfolding(entries::specs::Word::writable))]
fn writable(value: u32) -> u32
    ensures { result ≡ writable value }
{
    value % BIT_12 + value / BIT_13 % 2 * BIT_13 + value / BIT_15 % 4 * BIT_15
}

// "… a low-word write that leaves the entry edge sets remote IRR to 0; one that leaves it level keeps the bit."
#[tactic(auto, unfolding(entries::specs::Word::writable, entries::specs::Word::written))]
pub(crate) fn written(low: u32, value: u32) -> u32
    ensures { result ≡ written low value }
{
    if is_level(value) {
        writable(value) + low / BIT_14 % 2 * BIT_14
    } else {
        writable(value)
    }
}

// "Bit 12 reads 1 exactly for an eligible pin."
#[tactic(auto, unfolding(entries::specs::Word::shown))]
pub(crate) fn shown(low: u32, eligible: bool) -> u32
    ensures { result ≡ shown low eligible }
{
    if eligible {
        low - low / BIT_12 % 2 * BIT_12 + BIT_12
    } else {
        low
    }
}

// "… stored entry words contain writable bits only, beside remote IRR; …" "An edge entry now always reads bit 14 as 0,
// and a state where it doesn't is not well formed."
#[tactic(auto, unfolding(entries::specs::Word::word_ok))]
pub(crate) fn word_ok(low: u32) -> bool
    ensures { result ≡ word_ok low }
{
    (low / BIT_12 % 2 == 0) & (low / BIT_17 == 0) & !(!is_level(low) & is_remote(low))
}

// A number as an argument, decimal or hexadecimal.
ghost use Rattle.std.specs.Prelude.{◌≡◌, ◌+◌, ◌*◌, ◌≤◌, ◌<◌};
ghost use Rattle.program.specs.Number.{digit, capped, number_in, number_of, is_hex, either_of};

use crate::Program;

// Linux lets an argument have 131,071 bytes.
// An array has room for one: a program has no heap (docs/DECISIONS.md, reading 91).
const ROOM: usize = 131072;

/// What a digit says, decimal or hexadecimal.
// By hand: where a letter counts from is what the edit hex_letter_counts_from_0 turns.
#[tactic(auto, using(crate::proofs::Numbers::decimal_digit, crate::proofs::Numbers::lower_digit, crate::proofs::Numbers::upper_digit, crate::proofs::Numbers::below_digits, crate::proofs::Numbers::before_upper, crate::proofs::Numbers::before_lower, crate::proofs::Numbers::above_digits))]
fn digit(x: u8) -> Option<u64>
    ensures { result ≡ digit x }
{
    match x {
        b'0'..=b'9' => Some((x - b'0') as u64),
        b'a'..=b'f' => Some((x - 87) as u64),
        b'A'..=b'F' => Some((x - 55) as u64),
        _ => None,
    }
}

/// The number with one digit more.
fn longer(base: u64, n: u64, digit: u64) -> u64
    requires { (0 < base) × (digit < base) }
    ensures { result ≡ capped (n * base + digit) }
{
    if (u64::MAX - digit) / base < n {
        return u64::MAX;
    }
    n * base + digit
}

/// The number that a text says, if it says one; u64::MAX stands for each one above it.
// Not by std's `parse`: of a number above u64::MAX that is an error, and here u64::MAX.
#[tactic(auto, using(crate::proofs::Numbers::empty, crate::proofs::Numbers::other, crate::proofs::Numbers::no_digit, crate::proofs::Numbers::next, crate::proofs::Numbers::all_read))]
fn number_in(base: u64, text: &[u8]) -> Option<u64>
    requires { (0 < base) × (base ≤ 16) }
    ensures { result ≡ number_in base text.now }
{
    if text.is_empty() {
        return None;
    }
    let mut n = 0;
    for x in text {
        match digit(*x) {
            Some(d) if d < base => n = longer(base, n, d),
            _ => return None,
        }
    }
    Some(n)
}

/// A decimal number.
#[tactic(auto, unfolding(crate::specs::Number::number_of))]
pub fn number_of(text: &[u8]) -> Option<u64>
    ensures { result ≡ number_of text.now }
{
    number_in(10, text)
}

/// Whether a text begins with `0x` or `0X`.
#[tactic(auto, using(crate::proofs::Numbers::too_short, crate::proofs::Numbers::by_mark, crate::proofs::Numbers::by_zero))]
fn is_hex(text: &[u8]) -> bool
    ensures { result ≡ is_hex text.now }
{
    match text {
        [b'0', mark, ..] => (*mark == b'x') | (*mark == b'X'),
        _ => false,
    }
}

/// A number that is decimal or, after `0x`, hexadecimal.
#[tactic(auto, using(crate::proofs::Numbers::two_or_more), unfolding(crate::specs::Number::either_of))]
pub fn either_of(text: &[u8]) -> Option<u64>
    ensures { result ≡ either_of text.now }
{
    if is_hex(text) {
        return number_in(16, &text[2..]);
    }
    number_of(text)
}

impl Program<'_> {
    /// The decimal number that argument i says; a missing argument says none.
    // Inlined, so that its array lies in no frame on top of the program's own: `screen` would need as much more stack.
    #[inline(always)]
    pub fn number(&self, i: usize) -> Option<u64> {
        let mut text = [0; ROOM];
        number_of(self.arg(i, &mut text))
    }

    /// The number that argument i says, in decimal or, after `0x`, in hexadecimal.
    pub fn either(&self, i: usize) -> Option<u64> {
        let mut text = [0; ROOM];
        either_of(self.arg(i, &mut text))
    }
}

// Decide, then apply. A delivery, a low-word write and a change of a wire each concern one pin. What it leaves there is
// decided first; then it is stored at the pin's elements, wherever the arrays lie: in copies, by value, or in a board
// that is lent. There is no pin above 23: its elements read as 0, which nothing shows, and nothing is stored.
ghost use Rattle.std.specs.Prelude.{◌≡◌, cond, ltb, slice_index_or, slice_set};
ghost use Rattle.entries.specs.Table.{held_after_write};
ghost use Rattle.entries.specs.Decision.{value_at, stored_at, delivered, delivery_at, write_at, change_at, renewed};

use crate::{Entries, EntryDecision, Low, WireDecision};
use answers::Answer;

// Pin n's element, or none.
// No Option: above pin 23 the clauses too say a value (`value_at`), which the caller gives.
fn at<T: Copy>(all: &[T; 24], n: usize, none: T) -> T
    ensures { result ≡ cond (ltb n 24) (slice_index_or all.now n none) none }
{
    all.get(n).copied().unwrap_or(none)
}

fn store<T: Copy>(all: &mut [T; 24], n: usize, value: T)
    ensures { all.new ≡ cond (ltb n 24) (slice_set all.old n value) all.old }
{
    if n < Entries::PINS {
        all[n] = value;
    }
}

// What the delivery step answers: none, if there is no such pin.
// Its caller has a pin; the test stays since no public function asks for one: docs/DECISIONS.md, C4.
#[tactic(auto, unfolding(crate::specs::Decision::delivered))]
fn delivered(n: usize, low: u32, destination: u8) -> Answer
    ensures { result ≡ delivered n low destination }
{
    if n < Entries::PINS {
        Answer::Interrupt {
            pin: n as u8,
            vector: Low(low).vector(),
            destination,
            logical: Low(low).logical(),
        }
    } else {
        Answer::Nothing
    }
}

// What a write that leaves the word so leaves of pin n's held edge, which is read only if it stays.
#[tactic(auto, unfolding(crate::specs::Decision::value_at))]
fn held_written(low: u32, held: &[u8; 24], n: usize) -> u8
    ensures { result ≡ held_after_write low (value_at held.now n) }
{
    if Low(low).is_level() {
        0
    } else {
        at(held, n, 0)
    }
}

impl EntryDecision {
    /// A delivery of pin n.
    #[tactic(auto, unfolding(crate::specs::Decision::delivery_at, crate::specs::Decision::value_at))]
    pub fn delivery(
        n: usize,
        destination: &[u8; 24],
        low: &[u32; 24],
        held: &[u8; 24],
    ) -> EntryDecision
        ensures { result ≡ delivery_at n destination.now low.now held.now }
    {
        let word = at(low, n, 0);
        EntryDecision {
            pin: n,
            low: Low(word).taken(),
            held: Low(word).held_taken(at(held, n, 0)),
            answer: delivered(n, word, at(destination, n, 0)),
        }
    }

    /// A write of pin n's low word.
    #[tactic(auto, unfolding(crate::specs::Decision::write_at, crate::specs::Decision::value_at))]
    pub fn write(n: usize, value: u32, low: &[u32; 24], held: &[u8; 24]) -> EntryDecision
        ensures { result ≡ write_at n value low.now held.now }
    {
        let word = Low(at(low, n, 0)).written(value);
        EntryDecision {
            pin: n,
            low: word,
            held: held_written(word, held, n),
            answer: Answer::Done,
        }
    }

    #[tactic(auto, unfolding(crate::specs::Decision::stored_at))]
    pub fn apply(self, low: &mut [u32; 24], held: &mut [u8; 24])
        ensures { (low.new ≡ stored_at low.old self.pin self.low)
            × (held.new ≡ stored_at held.old self.pin self.held) }
    {
        let n = self.pin;
        store(low, n, self.low);
        store(held, n, self.held);
    }
}

impl WireDecision {
    /// Pin n's wire changes to a level.
    #[tactic(auto, unfolding(crate::specs::Decision::change_at, crate::specs::Decision::value_at))]
    pub fn change(
        n: usize,
        level: u8,
        low: &[u32; 24],
        levels: &[u8; 24],
        held: &[u8; 24],
    ) -> WireDecision
        ensures { result ≡ change_at n level low.now levels.now held.now }
    {
        let word = at(low, n, 0);
        WireDecision {
            pin: n,
            level,
            held: Low(word).held_after(at(levels, n, 0), level, at(held, n, 0)),
        }
    }

    // As the one above, and not generic: the fields and the first array's type differ, and what is alike is `store`.
    #[tactic(auto, unfolding(crate::specs::Decision::stored_at))]
    pub fn apply(self, levels: &mut [u8; 24], held: &mut [u8; 24])
        ensures { (levels.new ≡ stored_at levels.old self.pin self.level)
            × (held.new ≡ stored_at held.old self.pin self.held) }
    {
        let n = self.pin;
        store(levels, n, self.level);
        store(held, n, self.held);
    }
}

// By value.
impl Entries {
    pub fn renewed(self, d: EntryDecision) -> Entries
        ensures { result ≡ renewed self d }
    {
        let mut low = self.low;
        let mut held = self.held;
        d.apply(&mut low, &mut held);
        Entries { low, held, ..self }
    }
}

// One pin: its low word with the level of its wire and its held edge.
// `before, after` stay two parameters: a wire's levels around a change, as specs/Pin.antt#makes_edge takes them.
ghost use Rattle.std.specs.Prelude.{◌≡◌};
ghost use Rattle.entries.specs.Pin.{asserted, makes_edge, held_after, eligible, ended_word};
ghost use Rattle.entries.specs.Inner.{takes_edges, held_by, taken_word, held_taken};

use crate::Low;

/// The held edge after a change of the wire, by whether the pin takes edges and whether it is active low, 0 or 1.
#[tactic(auto, unfolding(crate::specs::Inner::held_by))]
pub fn held_by(edge: u8, active_low: u8, before: u8, after: u8, held: u8) -> u8
    ensures { result ≡ held_by edge active_low before after held }
{
    if (edge == 1) & (before == active_low) & (after != active_low) {
        1
    } else {
        held
    }
}

impl Low {
    #[tactic(auto, unfolding(crate::specs::Pin::asserted))]
    pub fn asserted(self, level: u8) -> bool
        ensures { result ≡ asserted self.0 level }
    {
        level != self.active_low()
    }

    #[tactic(auto, unfolding(crate::specs::Pin::makes_edge))]
    pub fn makes_edge(self, before: u8, after: u8) -> bool
        ensures { result ≡ makes_edge self.0 before after }
    {
        !self.is_masked() & !self.is_level() & !self.asserted(before) & self.asserted(after)
    }

    /// Unmasked, and edge.
    #[tactic(auto, unfolding(crate::specs::Inner::takes_edges))]
    pub fn takes_edges(self) -> bool
        ensures { result ≡ takes_edges self.0 }
    {
        !self.is_masked() & !self.is_level()
    }

    #[tactic(auto, unfolding(crate::specs::Pin::held_after))]
    pub fn held_after(self, before: u8, after: u8, held: u8) -> u8
        ensures { result ≡ held_after self.0 before after held }
    {
        if self.makes_edge(before, after) {
            1
        } else {
            held
        }
    }

    #[tactic(auto, unfolding(crate::specs::Pin::eligible))]
    pub fn eligible(self, level: u8, held: u8) -> bool
        ensures { result ≡ eligible self.0 level held }
    {
        let is_level = self.is_level();
        !self.is_masked()
            & (self.mode() == 0)
            & (!is_level & (held == 1) | is_level & self.asserted(level) & !self.is_remote())
    }

    #[tactic(auto, unfolding(crate::specs::Pin::ended_word))]
    pub fn ended(self, vector: u8) -> u32
        ensures { result ≡ ended_word self.0 vector }
    {
        if self.is_level() & (self.vector() == vector) {
            self.without_remote()
        } else {
            self.0
        }
    }

    /// What its delivery leaves of the word, and of a held edge.
    #[tactic(auto, unfolding(crate::specs::Inner::taken_word))]
    pub fn taken(self) -> u32
        ensures { result ≡ taken_word self.0 }
    {
        if self.is_level() {
            self.with_remote()
        } else {
            self.0
        }
    }

    #[tactic(auto, unfolding(crate::specs::Inner::held_taken))]
    pub fn held_taken(self, held: u8) -> u8
        ensures { result ≡ held_taken self.0 held }
    {
        if self.is_level() { held } else { 0 }
    }
}

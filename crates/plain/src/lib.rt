// The plain engine (document 02, K3): a second engine for the board, which walks every tick of an advance, one after
// the other, and does every other call in the most obvious way. It takes and gives the same Board, Call and Turn as the
// first engine, and calls none of its functions. Both promise the same, `turn_of`, so they are equal: crate compare
// says so. Functions here that look like the first engine's stay apart from them, and are no twins: they are a second
// implementation, with which the first is compared.
#![tactic(auto)]

mod calls;
mod formed;
mod tick;
mod wires;

pub use calls::step;
pub use formed::well_formed;

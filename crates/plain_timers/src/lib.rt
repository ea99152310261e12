// The plain engine's timer block (document 02, K3): "Timer registers" and a timer's part of "One tick" of document 01,
// and registers in halves (K1), in the most obvious way. It calls no function of the first engine. The types, and the
// definitions in the promises, are the same. Functions here that look like the first engine's stay apart from them, and
// are no twins: they are a second implementation, with which the first is compared.
// Functions and no methods: the types are other crates'. `width, offset, value` are taken as the paper says them.
#![tactic(auto)]

mod formed;
mod in_halves;
mod mask;
mod registers;
mod tick;
mod window;

pub use formed::{mask_ok, well_formed};
pub use tick::{driven, fired, meets, pulses};
pub use window::{reading, reset, writing};

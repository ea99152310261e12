// The plain engine's interrupt controller (document 02, K3): "Controller registers" of document 01, in the most obvious
// way. It calls no function of the first engine. The types, and the definitions in the promises, are the same.
// Functions here that look like the first engine's stay apart from them, and are no twins: they are a second
// implementation, with which the first is compared.
// Functions and no methods: the types are other crates'.
#![tactic(auto)]

mod delivery;
mod formed;
mod pin;
mod window;
mod wires;
mod word;

pub use delivery::{delivering, ended};
pub use formed::well_formed;
pub use window::{reading, reset, writing};
pub use wires::rewired;

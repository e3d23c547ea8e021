//! The items of a C file: what its brackets hold together, and which of its items are functions with a body.
#![tactic(auto)]

mod division;
mod item;
mod laws;
mod mark;

pub use division::{Division, divide};
pub use item::Item;
pub use laws::one_division;
pub use mark::{Bracket, Mark};

//! The names of a function while it is read: its variables, arrays and labels, and where they are known
//! (docs/MEANING.md, "Functions of C").
#![tactic(auto, using(crate::proofs::results::Binds::then_ok, crate::proofs::results::Binds::then_err))]

mod entry;
mod known;
mod labels;
mod sizes;
mod table;

pub use entry::Thing;
pub use known::Known;
pub use sizes::sized;

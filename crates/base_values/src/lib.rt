//! Long JSON texts, of which an element of a list at a time is a value: the whole is tested once, and never stands as a tree.
#![tactic(auto)]

mod check;
mod document;
mod elements;
mod fault;
mod members;
mod number;
mod outline;
mod tree;

pub use document::Document;
pub use elements::Elements;
pub use fault::Fault;

//! Theory: to take tokens one by one is to walk the tree that they read as.
#![tactic(auto)]

mod laws;

pub use laws::{every_text_means, expressions_are_walked, programs_are_walked};

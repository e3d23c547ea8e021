//! What the tokens of a text mean: the program that they read as, or the first fault.
//!
//! Names, kinds and limits are one walk over the tree that the grammar reads (`specs/Walk.antt`, `specs/Meaning.antt`); `specs/Feed.antt`
//! is the same token by token, as the parser goes.
#![tactic(auto)]

mod fault;
mod laws;

pub use fault::{Limit, ParseFault};
pub use laws::{expressions_within_limits, one_expression, one_meaning, programs_within_limits};

//! What the tables of tests share: texts that are put together, and runs over files and streams in memory.
#![tactic(auto)]

mod runs;
mod texts;

pub use runs::{Written, is_as_wanted, shelf};
pub use texts::{front, joined, repeated, strings, words_of};

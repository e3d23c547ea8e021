//! Dictionaries of linear problems whose rows keep only the entries that are not zero.
#![tactic(auto)]

mod build;
mod formulas;
mod leave;
mod merge;
mod push;
mod row;
mod rows;
mod sparse;
mod unit;

pub use sparse::Sparse;

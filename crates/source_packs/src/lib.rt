//! Which variables of a function of C stand together: those of a comparison, of a change and of a loop.
#![tactic(auto)]

mod find;
mod goal;
mod part;
mod search;

pub use find::groups;

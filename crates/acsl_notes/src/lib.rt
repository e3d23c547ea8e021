//! Bounds as annotations of the text of a program.
#![tactic(auto)]

mod clause;
mod indent;
mod known;
mod laws;
mod list;
mod meet;
mod note;
mod relation;

pub use laws::{clauses_hold, comments_may_stand};
pub use list::comments;

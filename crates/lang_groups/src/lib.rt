//! Groups of variables: which variables stand together, and how the groups of an expression's comparisons are found.
#![tactic(auto)]

mod collector;
mod groups;
mod law;
mod mark;
mod run;

pub use collector::Collector;
pub use groups::{Group, Groups};
pub use law::{groups_of_marks, groups_of_tied_marks};
pub use mark::Mark;

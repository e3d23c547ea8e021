//! What changes the variables of a function, and its conditions, read from tokens, each within the limits of a statement
//! (docs/MEANING.md, "Functions of C").
#![tactic(auto)]

mod arrays;
mod changes;
mod conditions;
mod declarations;
mod deeds;
mod effects;
mod limits;
mod names;
mod nexts;
mod places;
mod pushed;
mod ranges;

pub use arrays::sizes;
pub use changes::{update, updates};
pub use conditions::{Test, parenthesised, read_test};
pub use declarations::{bare, declarators};
pub use names::{Named, take_name};
pub use pushed::{push_deeds, push_evaluated};

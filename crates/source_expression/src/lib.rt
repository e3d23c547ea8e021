//! Expressions of functions of C, read from tokens into what stands for them in the core
//! (docs/MEANING.md, "Functions of C").
#![tactic(auto)]

mod ends;
mod expressions;
mod filled;
mod lists;
mod names;
mod operands;
mod sides;
mod signs;
mod subscripts;

pub use expressions::{condition, expression};
pub use filled::values;
pub use lists::arguments;
pub use subscripts::element;

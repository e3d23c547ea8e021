//! The grammar of programs, and whether tokens keep to it.
#![tactic(auto)]

mod expression;
mod goal;
mod laws;
mod machine;
mod symbol;

pub use expression::{Extent, examine_expression};
pub use laws::{every_front, one_program};
pub use machine::{Syntax, examine};
pub use symbol::{Change, Demand, Direction, Jump, Op, Relation, Symbol, symbol_of};

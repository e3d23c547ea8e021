//! The grammar of one function of a C file, and whether tokens keep to it.
#![tactic(auto)]

mod change;
mod declaration;
mod enter;
mod expression;
mod goal;
mod head;
mod laws;
mod machine;
mod statement;
mod symbol;

pub use laws::{every_front, one_body, one_depth, one_expression, one_function, signs_group};
pub use machine::{Syntax, examine};
pub use symbol::{Change, Demand, Direction, Jump, Op, Piece, Relation, Symbol};

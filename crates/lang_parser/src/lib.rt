//! The parser: the program that tokens read as, or their first fault.
#![tactic(auto)]

mod alone;
mod parser;
mod pass;
mod turn;
mod width;

pub use alone::{Expr, Read, condition, expression};
pub use lang_meaning::{Limit, ParseFault, one_expression, one_meaning};
pub use parser::parse;

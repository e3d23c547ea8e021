//! Statements, token by token.
#![tactic(auto)]

mod beginning;
mod behind;
mod ending;
mod head;
mod jumps;
mod next;

pub use beginning::begun;
pub use behind::{behind_declarator, behind_name, behind_statement, behind_step};
pub use head::{a_declarator, in_first, in_heading, in_last, in_return};
pub use next::Next;

//! Expressions, token by token, and what comes of one that ends.
#![tactic(auto)]

mod behind;
mod demands;
mod operand;
mod sides;

pub use behind::behind_value;
pub use operand::wanted;

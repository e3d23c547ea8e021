//! Tokens at other places read as the same function.
#![tactic(auto)]

mod law;

pub use law::tokens_may_move;

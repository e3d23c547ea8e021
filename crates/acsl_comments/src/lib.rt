//! Texts with comments put in.
#![tactic(auto)]

mod comment;
mod laws;
mod write;

pub use comment::{Bytes, Comment};
pub use laws::{comments_come_out, programs_stay, tokens_stay};
pub use write::with_comments;

//! The function that its tokens are, read as a program: its statements, with their names resolved and within the limits
//! (docs/MEANING.md, "Functions of C").
#![tactic(auto)]

mod body;
mod branch;
mod call;
mod demand;
mod functions;
mod head;
mod items;
mod jump;
mod loops;
mod parameters;
mod simple;
mod starts;

pub use functions::function;

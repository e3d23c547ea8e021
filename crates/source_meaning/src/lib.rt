//! What a function of a C file means: its variables and its statements, or the first fault of its names, kinds and limits.
#![tactic(auto)]

mod fault;
mod laws;

pub use fault::{FunctionFault, Limit};
pub use laws::{functions_are_within_limits, functions_keep_runs, names_are_resolved};

//! What functions of C are as programs of the core: preludes and forms in place of expressions, their runs, and the laws of both.
#![tactic(auto)]

mod laws;

pub use laws::{expressions_are_kept, runs_are_kept};

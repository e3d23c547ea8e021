//! What bounds and checks of a program say of the runs of the function of C that it is.
#![tactic(auto)]

mod laws;

pub use laws::{bounds_hold_by_c, checks_hold_by_c, runs_are_by_all};

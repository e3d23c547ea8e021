//! Which variables stand together in the function of a C file that is asked about.
#![tactic(auto)]

mod grouping;
mod laws;

pub use grouping::groups;
pub use laws::one_grouping;

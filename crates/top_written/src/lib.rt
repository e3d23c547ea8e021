//! Outputs in the format that is asked for.
#![tactic(auto)]

mod written;

pub use written::{written_checks, written_claims, written_report, written_values};

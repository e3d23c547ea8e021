//! Reports, values and states as JSON (docs/FORMATS.md, "JSON").
#![tactic(auto)]

mod law;
mod members;
mod points;
mod state;
mod uri;
mod valuation;
mod whole;

pub use law::{reports_are_told, values_are_told};
pub use valuation::values_json;
pub use whole::report_json;

// For what other outputs have in common with them.
pub use state::push_state;
pub use uri::uri_of;

//! Verdicts as JSON and as SARIF (docs/FORMATS.md, "JSON" and "SARIF").
#![tactic(auto)]

mod checks;
mod claims;
mod law;
mod sarif;
mod source;
mod verdicts;

pub use checks::checks_json;
pub use claims::claims_json;
pub use law::{checks_are_told, claims_are_told};
pub use sarif::checks_sarif;

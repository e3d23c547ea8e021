//! The report of a system's bounds as bytes (docs/FORMATS.md, "The report"), the heads of points alone, and the values of names.
#![tactic(auto)]

mod heads;
mod rows;
mod valuation;
mod whole;

pub use heads::point_heads;
pub use valuation::values;
pub use whole::{point_text, report};

// For what other outputs have in common with it.
pub use heads::push_footer;
pub use rows::{push_number, push_row};

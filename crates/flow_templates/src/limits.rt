//! How many rows a template may have.

/// The greatest number of rows of a template.
pub const MOST_ROWS: u32 = 2048;

//! How far a certificate expands.

/// The most values that the traces of a certificate of format 2 or 3 may hold: start values and free values, counted once
/// for each naming of a trace; in format 3 those that aren't 0.
pub const MOST_VALUES: usize = 4_194_304;

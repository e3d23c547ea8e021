//! How many equations, alternatives and sums there may be.

/// The greatest number of equations.
pub const MOST_EQUATIONS: usize = 11;

/// The greatest number of alternatives of all equations together.
pub const MOST_ALTERNATIVES: usize = 255;

/// The greatest number of sums of one minimum.
pub const MOST_SUMS: usize = 16;

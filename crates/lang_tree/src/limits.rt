//! How many variables a program may have.

/// The greatest number of variables of a program.
pub const MOST_VARIABLES: usize = 64;

/// The greatest number of hidden variables, which are numbered after those of the program.
pub const MOST_HIDDEN: usize = 64;

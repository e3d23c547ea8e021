//! The limits (docs/FORMATS.md, "Limits").

/// How many bytes a program has at most.
pub const MOST_PROGRAM_BYTES: usize = 1048576;

/// How many bytes any other text has at most: a file of rows or of claims, a transition system, equations.
pub const MOST_TEXT_BYTES: usize = 65536;

/// How many bytes a certificate has at most.
pub const MOST_CERTIFICATE_BYTES: usize = 16777216;

/// How many improvements are made at most.
pub const MOST_IMPROVEMENTS: u32 = 1000000;

/// How many improvements `bench` makes at most: a generated program of `MOST_LOOPS` loops takes 1,001.
pub const MOST_BENCH_IMPROVEMENTS: u32 = 2000;

/// How many cells a joint problem has at most that is solved by the simplex method.
pub const MOST_CELLS: u64 = 50000000;

/// How many loops a generated program has at most.
pub const MOST_LOOPS: u32 = 500;

/// How many statements a text of the language has at most, which is what generated programs are written in: one of `MOST_LOOPS` loops
/// has 2,003.
pub const MOST_STATEMENTS: u32 = 2048;

//! What the files of a request hold, and why one isn't read.

/// A file that the words name.
#[derive(Clone, Copy, Debug, PartialEq, Eq)]
pub enum Which {
    Program,
    /// The file of the template's rows.
    Rows,
    Certificate,
    /// The file of claims.
    Claims,
    /// The file of a transition system.
    System,
    /// The file of equations.
    Equations,
}

/// Why a named file isn't read.
#[derive(Clone, Copy, Debug, PartialEq, Eq)]
pub enum ReadCause {
    /// The load of this file failed.
    Failed(Which),
    /// This file has more bytes than it may have.
    TooLong(Which),
}

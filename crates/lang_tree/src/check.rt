//! What is checked in a program.

/// What a check is for.
#[derive(Clone, Copy, Debug, PartialEq, Eq)]
pub enum CheckKind {
    /// An `assert` of the text.
    Assert,
    /// A divisor that isn't 0.
    Divisor,
    /// A place that isn't to be reached.
    Error,
    /// An index of an array's element.
    Index,
    /// A result that the machine's integers have.
    Range,
}

/// A check of a program: what it is for, and its place, how many bytes of the text stand before it. No two checks of a text have one place.
#[derive(Clone, Copy, Debug, PartialEq, Eq)]
pub struct Check {
    pub kind: CheckKind,
    pub at: u32,
}

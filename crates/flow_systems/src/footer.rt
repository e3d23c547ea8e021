//! How a report ends.

/// The last line of a report.
#[derive(Clone, Copy, Debug, PartialEq, Eq)]
pub enum Footer {
    /// How many improvements were made.
    Improvements(u32),
    /// The bounds are those of a certificate that was accepted.
    Accepted,
}

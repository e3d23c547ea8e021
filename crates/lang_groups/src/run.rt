//! A run: what stands between two signs that hold looser than comparisons.

/// A run that has begun.
#[derive(Clone, Copy, Debug, PartialEq, Eq)]
pub(crate) struct Run {
    /// How many variables had occurred before it.
    pub start: usize,
    /// There is the sign of a comparison in it, outside of the brackets in it.
    pub compared: bool,
}

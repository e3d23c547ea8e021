//! How many elements arrays have.

/// How many elements an array has (`specs/Extents.antt`).
#[derive(Clone, Copy, Debug, PartialEq, Eq)]
pub enum Extent {
    /// One at each index from 0 on.
    Endless,
    /// So many.
    Elements(u32),
}

//! Rows as lists of entries.
use lp_dictionary::Entry;

/// A row: its entries that are not zero, by rising column.
#[derive(Drop)]
pub struct SparseRow<F> {
    pub entries: Vec<Entry<F>>,
}

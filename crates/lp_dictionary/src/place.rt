//! Entries by column.
ghost use Rattle.std.specs.Prelude.{◌≡◌, ℕ, ◌<◌, ◌≤◌, length};
ghost use Rattle.lp_dictionary.specs.Entries.{value_at, col_at, IsRising};

use crate::entry::Entry;
use base_fractions::OrderedField;

/// The place of the first entry whose column is at least `col`.
pub fn place_of<F: OrderedField>(entries: &[Entry<F>], col: u32) -> usize
    requires { IsRising entries.now }
    ensures within { result ≤ length entries.now }
    ensures before { (k : ℕ) → k < result → col_at entries.now k < col }
    ensures behind { (k : ℕ) → result ≤ k → k < length entries.now → col ≤ col_at entries.now k }
{
    let mut low = 0;
    let mut high = entries.len();
    while low < high {
        let middle = low + (high - low) / 2;
        if entries[middle].col < col {
            low = middle + 1;
        } else {
            high = middle;
        }
    }
    low
}

/// The number at a column: 0 where there is no entry.
pub fn value_in<F: OrderedField>(entries: &[Entry<F>], col: u32) -> F
    requires { IsRising entries.now }
    ensures { F.meaning result ≡ value_at F.meaning entries.now col }
{
    let place = place_of(entries, col);
    if place < entries.len() && entries[place].col == col {
        entries[place].value
    } else {
        F::zero()
    }
}

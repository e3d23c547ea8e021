//! A column and a row that are left out.
ghost use Rattle.std.specs.Prelude.{◌≡◌, ℕ, suc, ◌<◌, length};
ghost use Rattle.lp_theory.specs.Table.{skip};
ghost use Rattle.lp_sparse.specs.Entries.{left_out};
ghost use Rattle.lp_sparse.specs.Rows.{row_at};

use crate::row::SparseRow;
use base_fractions::OrderedField;
use lp_dictionary::Entry;

/// Leaves out a column of a row; later columns move one place down.
fn leave_out<F: OrderedField>(row: &mut SparseRow<F>, col: u32)
    ensures { row.new.entries.items ≡ left_out col row.old.entries.items }
{
    let mut kept = 0;
    for i in 0..row.entries.len() {
        let entry = row.entries[i];
        if entry.col != col {
            let place = if entry.col < col {
                entry.col
            } else {
                entry.col - 1
            };
            row.entries[kept] = Entry {
                col: place,
                value: entry.value,
            };
            kept += 1;
        }
    }
    row.entries.truncate(kept);
}

/// Leaves out a column of each row.
fn leave_out_of_each<F: OrderedField>(rows: &mut [SparseRow<F>], col: u32)
    ensures { (i : ℕ) → row_at rows.new i ≡ left_out col (row_at rows.old i) }
{
    for i in 0..rows.len() {
        leave_out(&mut rows[i], col);
    }
}

/// Leaves out a column and a row; later rows move one place up.
pub fn leave_out_with_row<F: OrderedField>(rows: &mut Vec<SparseRow<F>>, col: u32, row: usize)
    requires { row < length rows.now.items }
    ensures left { (i : ℕ) → row_at rows.new.items i ≡ left_out col (row_at rows.old.items (skip row i)) }
    ensures fewer { suc (length rows.new.items) ≡ length rows.old.items }
{
    leave_out_of_each(rows, col);
    rows.remove(row);
}

//! Entries that are moved forward when a column and a row are left out.
ghost use Rattle.std.specs.Prelude.{◌≡◌, ℕ, ◌+◌, ◌*◌, ◌-◌, ◌<◌, ◌≤◌, suc, length, slice_index};
ghost use Rattle.lp_theory.specs.Table.{skip};
ghost use Rattle.lp_theory.specs.Run.{place_of};
ghost use Rattle.lp_dictionary.specs.Cells.{cell, row_from};
ghost use Rattle.lp_dictionary.specs.Rows.{SetsRow, ShiftsRows};

use base_fractions::OrderedField;

/// Moves the row of `stride` entries from `from` on to `to`, without its entry at `col`.
fn shift_row<F: OrderedField>(entries: &mut [F], from: usize, to: usize, stride: usize, col: usize)
    requires order { to ≤ from }
    requires within { from + stride ≤ length entries.old }
    requires col { col < stride }
    ensures { SetsRow F.meaning to (stride - 1) (λ k. row_from F.meaning entries.old from (skip col k)) entries.old entries.new }
{
    for k in 0..stride - 1 {
        let place = if k < col { k } else { k + 1 };
        entries[to + k] = entries[from + place];
    }
}

/// Moves `rows` rows of `stride` entries forward, without their entries at `col` and without the row number `row`.
pub fn shift_rows<F: OrderedField>(
    entries: &mut [F],
    rows: usize,
    row: usize,
    stride: usize,
    col: usize,
)
    requires size { length entries.old ≡ suc rows * stride }
    requires row { row ≤ rows }
    requires col { col < stride }
    ensures { ShiftsRows F.meaning rows row stride col entries.old entries.new }
{
    for i in 0..rows {
        let place = if i < row { i } else { i + 1 };
        shift_row(entries, place * stride, i * (stride - 1), stride, col);
    }
}

/// The place of the name 0.
pub fn zero_place(names: &[u32]) -> usize
    requires { (k : ℕ) × (k < length names.now) × (slice_index names.now k ≡ 0) }
    ensures within { result < length names.now }
    ensures place { result ≡ place_of (λ k. slice_index names.now k) (length names.now) 0 }
{
    for (i, name) in names.iter().enumerate() {
        if *name == 0 {
            return i;
        }
    }
    unreachable!()
}

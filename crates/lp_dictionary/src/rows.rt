//! A pivot on the entries of a dictionary that stand in one list, row after row.
ghost use Rattle.std.specs.Prelude.{◌≡◌, ◌≢◌, ◌+◌, ◌*◌, ◌<◌, ◌≤◌, ◌⊎◌, length, None, Some, OnOk, IfErr};
ghost use Rattle.base_numbers.specs.Rational.{zero_ℚ};
ghost use Rattle.base_fractions.specs.Operation.{first_wide, operation_of};
ghost use Rattle.lp_dictionary.specs.Formulas.{divided_row, combined_row, added_row};
ghost use Rattle.lp_dictionary.specs.PivotOperations.{division_row_operations, added_row_operations, combination_row_operations};
ghost use Rattle.lp_dictionary.specs.Cells.{cell, row_from};
ghost use Rattle.lp_dictionary.specs.Rows.{SetsRow, CombinesRows, Exchanges, rows_operations, exchange_operations};

use crate::formulas::{divided_by, product_of, sum_of};
use base_fractions::{OrderedField, Wide};

/// Formulas 1 and 2 on the row of `stride` entries from `start` on, with the pivot at its place `col`.
pub fn divide_row<F: OrderedField>(
    entries: &mut [F],
    start: usize,
    stride: usize,
    col: usize,
) -> Result<(), Wide<F>>
    requires within { start + stride ≤ length entries.old }
    requires col { col < stride }
    requires pivot { cell F.meaning entries.old (start + col) ≢ zero_ℚ }
    ensures divided { OnOk result (SetsRow F.meaning start stride (divided_row (row_from F.meaning entries.old start) col) entries.old
        entries.new) }
    ensures fits { OnOk result (first_wide F.LIMIT (division_row_operations stride (row_from F.meaning entries.old start) col) ≡ None) }
    ensures wide { IfErr result (λ w. first_wide F.LIMIT (division_row_operations stride (row_from F.meaning entries.old start) col) ≡ Some
        (operation_of F.meaning w)) }
{
    let pivot = entries[start + col];
    for k in 0..stride {
        let entry = divided_by(entries[start + k], pivot, k == col)?;
        entries[start + k] = entry;
    }
    Ok(())
}

/// Formula 4 on the row of `stride` entries from `start` on, whose entry at `col` was `factor` and is done.
fn add_row<F: OrderedField>(
    entries: &mut [F],
    factor: F,
    start: usize,
    above: usize,
    stride: usize,
    col: usize,
) -> Result<(), Wide<F>>
    requires within { start + stride ≤ length entries.old }
    requires above_within { above + stride ≤ length entries.old }
    requires apart { (start + stride ≤ above) ⊎ (above + stride ≤ start) }
    requires factor { F.meaning factor ≢ zero_ℚ }
    ensures added { OnOk result (SetsRow F.meaning start stride
        (added_row (row_from F.meaning entries.old start) (F.meaning factor) (row_from F.meaning entries.old above) col) entries.old
        entries.new) }
    ensures fits { OnOk result (first_wide F.LIMIT
        (added_row_operations stride (row_from F.meaning entries.old start) (F.meaning factor) (row_from F.meaning entries.old above) col)
        ≡ None) }
    ensures wide { IfErr result (λ w. first_wide F.LIMIT
        (added_row_operations stride (row_from F.meaning entries.old start) (F.meaning factor) (row_from F.meaning entries.old above) col)
        ≡ Some
        (operation_of F.meaning w)) }
{
    for k in 0..stride {
        let entry = sum_of(entries[start + k], factor, entries[above + k], k == col)?;
        entries[start + k] = entry;
    }
    Ok(())
}

/// Formulas 3 and 4 on the row of `stride` entries from `start` on, where the pivot's row after its division is the one from
/// `above` on. A row with 0 in the pivot's column stays as it is.
pub fn combine_row<F: OrderedField>(
    entries: &mut [F],
    start: usize,
    above: usize,
    stride: usize,
    col: usize,
) -> Result<(), Wide<F>>
    requires within { start + stride ≤ length entries.old }
    requires above_within { above + stride ≤ length entries.old }
    requires apart { (start + stride ≤ above) ⊎ (above + stride ≤ start) }
    requires col { col < stride }
    ensures combined { OnOk result (SetsRow F.meaning start stride
        (combined_row (row_from F.meaning entries.old start) (row_from F.meaning entries.old above) col) entries.old entries.new) }
    ensures fits { OnOk result (first_wide F.LIMIT
        (combination_row_operations stride (row_from F.meaning entries.old start) (row_from F.meaning entries.old above) col) ≡ None) }
    ensures wide { IfErr result (λ w. first_wide F.LIMIT
        (combination_row_operations stride (row_from F.meaning entries.old start) (row_from F.meaning entries.old above) col) ≡ Some
        (operation_of F.meaning w)) }
{
    let factor = entries[start + col];
    if factor.is_zero() {
        return Ok(());
    }
    let product = product_of(factor, entries[above + col])?;
    entries[start + col] = product;
    add_row(entries, factor, start, above, stride, col)
}

/// Formulas 3 and 4 on each of the `rows` rows but `row`, whose division is done.
pub fn combine_rows<F: OrderedField>(
    entries: &mut [F],
    rows: usize,
    row: usize,
    stride: usize,
    col: usize,
) -> Result<(), Wide<F>>
    requires size { length entries.old ≡ rows * stride }
    requires row { row < rows }
    requires col { col < stride }
    ensures combined { OnOk result (CombinesRows F.meaning rows row stride col entries.old entries.new) }
    ensures fits { OnOk result (first_wide F.LIMIT (rows_operations F.meaning entries.old rows row stride col) ≡ None) }
    ensures wide { IfErr result (λ w. first_wide F.LIMIT (rows_operations F.meaning entries.old rows row stride col)
        ≡ Some (operation_of F.meaning w)) }
{
    for i in 0..rows {
        if i != row {
            combine_row(entries, i * stride, row * stride, stride, col)?;
        }
    }
    Ok(())
}

/// The four formulas on `rows` rows of `stride` entries, with the pivot at `row` and `col`.
pub fn exchange<F: OrderedField>(
    entries: &mut [F],
    rows: usize,
    row: usize,
    stride: usize,
    col: usize,
) -> Result<(), Wide<F>>
    requires size { length entries.old ≡ rows * stride }
    requires row { row < rows }
    requires col { col < stride }
    requires pivot { cell F.meaning entries.old (row * stride + col) ≢ zero_ℚ }
    ensures exchanged { OnOk result (Exchanges F.meaning rows row stride col entries.old entries.new) }
    ensures fits { OnOk result (first_wide F.LIMIT (exchange_operations F.meaning entries.old rows row stride col) ≡ None) }
    ensures wide { IfErr result (λ w. first_wide F.LIMIT (exchange_operations F.meaning entries.old rows row stride col)
        ≡ Some (operation_of F.meaning w)) }
{
    divide_row(entries, row * stride, stride, col)?;
    combine_rows(entries, rows, row, stride, col)
}

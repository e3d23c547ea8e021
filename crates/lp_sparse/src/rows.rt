//! A pivot on rows of entries.
ghost use Rattle.std.specs.Prelude.{◌≡◌, ◌≢◌, ℕ, ◌<◌, length, None, OnOk, IfErr};
ghost use Rattle.base_numbers.specs.Rational.{zero_ℚ};
ghost use Rattle.base_fractions.specs.Operation.{first_wide};
ghost use Rattle.lp_dictionary.specs.Formulas.{divided_row, combined_row};
ghost use Rattle.lp_dictionary.specs.PivotOperations.{division_row_operations, combination_row_operations};
ghost use Rattle.lp_dictionary.specs.Faults.{Refuses};
ghost use Rattle.lp_dictionary.specs.Entries.{value_at, Rises, HasNoZero};
ghost use Rattle.lp_dictionary.specs.Entries.{IsRising};
ghost use Rattle.lp_dictionary.specs.Keeps.{Keeps};
ghost use Rattle.lp_sparse.specs.Rows.{row_at, numbers, EachRises, NoZeros, CombinesRows, Exchanges, rows_operations, exchange_operations};

use crate::formulas::product_of;
use crate::merge::merge;
use crate::push::{push_answer, replace};
use crate::row::SparseRow;
use base_fractions::OrderedField;
use lp_dictionary::{Entry, PivotFault, divided_by, value_in};

/// Formulas 1 and 2 on the pivot's row, whose entry at `col` is the pivot.
pub fn divide_row<F: OrderedField>(
    divided: &mut Vec<Entry<F>>,
    entries: &[Entry<F>],
    col: u32,
) -> Result<(), PivotFault<F>>
    requires rising { IsRising entries.now }
    requires pivot { value_at F.meaning entries.now col ≢ zero_ℚ }
    ensures divided { OnOk result ((n : ℕ) → Rises 0 n entries.now → Keeps F.meaning (divided_row (value_at F.meaning entries.now) col) n
        divided.new.items) }
    ensures no_zero { OnOk result (HasNoZero F.meaning divided.new.items) }
    ensures fits { OnOk result ((n : ℕ) → Rises 0 n entries.now → first_wide F.LIMIT
        (division_row_operations n (value_at F.meaning entries.now) col) ≡ None) }
    ensures refused { IfErr result (λ e. (n : ℕ) → Rises 0 n entries.now →
        Refuses F.meaning F.LIMIT (division_row_operations n (value_at F.meaning entries.now) col) e) }
{
    divided.clear();
    let pivot = value_in(entries, col);
    for i in 0..entries.len() {
        let at = entries[i].col;
        push_answer(divided, at, divided_by(entries[i].value, pivot, at == col))?;
    }
    Ok(())
}

/// Formulas 3 and 4 on a row, where `above` is the pivot's row after its division and `inverse` its entry in the pivot's column.
/// A row with 0 in that column stays as it is.
pub fn combine_row<F: OrderedField>(
    row: &mut SparseRow<F>,
    merged: &mut Vec<Entry<F>>,
    above: &[Entry<F>],
    inverse: F,
    col: u32,
) -> Result<(), PivotFault<F>>
    requires rising { IsRising row.old.entries.items }
    requires above { IsRising above.now }
    requires inverse { F.meaning inverse ≡ value_at F.meaning above.now col }
    ensures combined { OnOk result ((n : ℕ) → Rises 0 n row.old.entries.items → Rises 0 n above.now →
        Keeps F.meaning (combined_row (value_at F.meaning row.old.entries.items) (value_at F.meaning above.now) col) n
        row.new.entries.items) }
    ensures no_zero { OnOk result (HasNoZero F.meaning row.old.entries.items → HasNoZero F.meaning row.new.entries.items) }
    ensures fits { OnOk result ((n : ℕ) → Rises 0 n row.old.entries.items → Rises 0 n above.now →
        first_wide F.LIMIT (combination_row_operations n (value_at F.meaning row.old.entries.items) (value_at F.meaning above.now) col)
        ≡ None) }
    ensures refused { IfErr result (λ e. (n : ℕ) → Rises 0 n row.old.entries.items → Rises 0 n above.now →
        Refuses F.meaning F.LIMIT (combination_row_operations n (value_at F.meaning row.old.entries.items) (value_at F.meaning above.now)
        col) e) }
{
    let factor = value_in(&row.entries, col);
    if factor.is_zero() {
        return Ok(());
    }
    match product_of(factor, inverse, None) {
        Ok(product) => {
            merge(merged, &row.entries, above, factor, product, col)?;
            replace(row, merged);
            Ok(())
        }
        Err(wide) => Err(PivotFault::Wide(wide)),
    }
}

/// Formulas 3 and 4 on each row but `row`.
pub fn combine_rows<F: OrderedField>(
    rows: &mut [SparseRow<F>],
    merged: &mut Vec<Entry<F>>,
    above: &[Entry<F>],
    row: usize,
    col: u32,
) -> Result<(), PivotFault<F>>
    requires rising { (n : ℕ) × EachRises n rows.old }
    requires above { IsRising above.now }
    ensures combined { OnOk result ((n : ℕ) → EachRises n rows.old → Rises 0 n above.now →
        CombinesRows F.meaning (length rows.old) row n col above.now rows.old rows.new) }
    ensures no_zero { OnOk result (NoZeros F.meaning rows.old → NoZeros F.meaning rows.new) }
    ensures fits { OnOk result ((n : ℕ) → EachRises n rows.old → Rises 0 n above.now →
        first_wide F.LIMIT (rows_operations (numbers F.meaning rows.old) (value_at F.meaning above.now) (length rows.old) row n col)
        ≡ None) }
    ensures refused { IfErr result (λ e. (n : ℕ) → EachRises n rows.old → Rises 0 n above.now →
        Refuses F.meaning F.LIMIT (rows_operations (numbers F.meaning rows.old) (value_at F.meaning above.now) (length rows.old) row n col)
        e) }
{
    let inverse = value_in(above, col);
    for i in 0..rows.len() {
        if i != row {
            combine_row(&mut rows[i], merged, above, inverse, col)?;
        }
    }
    Ok(())
}

/// The four formulas on the rows, with the pivot at `row` and `col`. The lists `divided` and `merged` are used up.
pub fn exchange<F: OrderedField>(
    rows: &mut [SparseRow<F>],
    divided: &mut Vec<Entry<F>>,
    merged: &mut Vec<Entry<F>>,
    row: usize,
    col: u32,
) -> Result<(), PivotFault<F>>
    requires rising { (n : ℕ) × EachRises n rows.old }
    requires row { row < length rows.old }
    requires pivot { numbers F.meaning rows.old row col ≢ zero_ℚ }
    ensures exchanged { OnOk result ((n : ℕ) → EachRises n rows.old → Exchanges F.meaning (length rows.old) row n col rows.old rows.new) }
    ensures no_zero { OnOk result (NoZeros F.meaning rows.old → NoZeros F.meaning rows.new) }
    ensures fits { OnOk result ((n : ℕ) → EachRises n rows.old →
        first_wide F.LIMIT (exchange_operations (numbers F.meaning rows.old) (length rows.old) row n col) ≡ None) }
    ensures refused { IfErr result (λ e. (n : ℕ) → EachRises n rows.old →
        Refuses F.meaning F.LIMIT (exchange_operations (numbers F.meaning rows.old) (length rows.old) row n col) e) }
{
    divide_row(divided, &rows[row].entries, col)?;
    combine_rows(rows, merged, divided, row, col)?;
    replace(&mut rows[row], divided);
    Ok(())
}

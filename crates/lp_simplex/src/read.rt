//! Points, rays and multipliers, read from a table.
ghost use Rattle.std.specs.Prelude.{◌≡◌, ℕ, ◌+◌, ◌<◌, ◌≤◌, false, length, IfOk};
ghost use Rattle.base_numbers.specs.Rational.{zero_ℚ, neg_ℚ};
ghost use Rattle.lp_dictionary.specs.Cells.{cell};
ghost use Rattle.lp_simplex.specs.Placed.{IsPlaced, Places};
ghost use Rattle.lp_simplex.specs.Answers.{IsDirection};

use base_fractions::OrderedField;
use lp_dictionary::Tableau;
use std::alloc::{AllocError, Global};

/// Puts the value at the place of the name past the base, if it has one.
fn put_at<F: OrderedField>(values: &mut Vec<F>, name: u32, base: u32, value: F)
    ensures { Places F.meaning name base (F.meaning value) values.old.items values.new.items }
{
    if name > base {
        let place = (name - base - 1) as usize;
        if place < values.len() {
            values[place] = value;
        }
    }
}

/// `count` times 0.
fn zeros<F: OrderedField>(alloc: Global, count: u32) -> Result<Vec<F>, AllocError>
    ensures { IfOk result (λ v. (length v.items ≡ count) × ((j : ℕ) → cell F.meaning v.items j ≡ zero_ℚ)) }
{
    let mut values = Vec::with_capacity(alloc, count as usize)?;
    for _k in 0..count {
        values.push(F::zero())?;
    }
    Ok(values)
}

/// The entry of a row at a column, or its constant where the column is the width.
fn value_at<F: OrderedField, T: Tableau<F>>(tableau: &T, row: u32, col: u32, width: u32) -> F
    requires row { row < (T.table tableau.now).rows }
    requires col { col ≤ width }
    requires width { width ≡ (T.table tableau.now).width }
    requires fresh { T.spent tableau.now ≡ false }
    ensures { F.meaning result ≡ (T.table tableau.now).entry row col }
{
    if col < width {
        tableau.entry(row, col)
    } else {
        tableau.constant(row)
    }
}

/// For each of the problem's columns the entry of its row at `col` where it is basic, or the constant where `col` is the width;
/// else 0.
pub fn basic_values<F: OrderedField, T: Tableau<F>>(
    alloc: Global,
    tableau: &T,
    rows: u32,
    cols: u32,
    col: u32,
    width: u32,
) -> Result<Vec<F>, AllocError>
    requires rows { rows ≡ (T.table tableau.now).rows }
    requires col { col ≤ width }
    requires width { width ≡ (T.table tableau.now).width }
    requires apart { (i j : ℕ) → i < rows → j < rows → (T.table tableau.now).row_name i ≡ (T.table tableau.now).row_name j → i ≡ j }
    requires fresh { T.spent tableau.now ≡ false }
    ensures { IfOk result (λ v. IsPlaced F.meaning (T.table tableau.now).row_name (λ i. (T.table tableau.now).entry i col) rows 0 cols
        v.items) }
{
    let mut values = zeros(alloc, cols)?;
    for row in 0..rows {
        put_at(
            &mut values,
            tableau.basic(row),
            0,
            value_at(tableau, row, col, width),
        );
    }
    Ok(values)
}

/// The direction of the column `col` that enters: 1 for its own variable, its entry for each basic column, else 0.
pub fn entering_values<F: OrderedField, T: Tableau<F>>(
    alloc: Global,
    tableau: &T,
    rows: u32,
    cols: u32,
    col: u32,
    width: u32,
) -> Result<Vec<F>, AllocError>
    requires rows { rows ≡ (T.table tableau.now).rows }
    requires col { col < width }
    requires width { width ≡ (T.table tableau.now).width }
    requires apart { (i j : ℕ) → i < rows → j < rows → (T.table tableau.now).row_name i ≡ (T.table tableau.now).row_name j → i ≡ j }
    requires fresh { T.spent tableau.now ≡ false }
    ensures { IfOk result (λ v. IsDirection F.meaning (T.table tableau.now) rows cols col v.items) }
{
    let mut values = basic_values(alloc, tableau, rows, cols, col, width)?;
    put_at(&mut values, tableau.other(col), 0, F::one());
    Ok(values)
}

/// For each slack its negated coefficient in the goal after the rows where it is not basic, else 0.
pub fn goal_multipliers<F: OrderedField, T: Tableau<F>>(
    alloc: Global,
    tableau: &T,
    rows: u32,
    cols: u32,
    width: u32,
) -> Result<Vec<F>, AllocError>
    requires rows { rows < (T.table tableau.now).rows + (T.table tableau.now).goals }
    requires width { width ≡ (T.table tableau.now).width }
    requires apart { (i j : ℕ) → i < width → j < width → (T.table tableau.now).col_name i ≡ (T.table tableau.now).col_name j → i ≡ j }
    requires fresh { T.spent tableau.now ≡ false }
    ensures { IfOk result (λ v. IsPlaced F.meaning (T.table tableau.now).col_name (λ k. neg_ℚ ((T.table tableau.now).entry rows k)) width
        cols rows v.items) }
{
    let mut values = zeros(alloc, rows)?;
    for col in 0..width {
        put_at(
            &mut values,
            tableau.other(col),
            cols,
            tableau.entry(rows, col).negate(),
        );
    }
    Ok(values)
}

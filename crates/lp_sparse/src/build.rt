//! The rows of the first dictionary.
ghost use Rattle.std.specs.Prelude.{◌≡◌, ℕ, ◌+◌, ◌<◌, ◌≤◌, List, length, map, ◌++◌, [], get_or, IfOk, OnOk};
ghost use Rattle.base_numbers.specs.Rational.{ℚ, zero_ℚ};
ghost use Rattle.lp_dictionary.specs.Build.{goals_of, signed_by, slack_entries, auxiliary_entries, goal_entries};
ghost use Rattle.lp_dictionary.specs.Keeps.{Lists};
ghost use Rattle.lp_sparse.specs.Rows.{row_at};
ghost use Rattle.lp_sparse.specs.Build.{end_pushed, IsFirst};

use crate::row::SparseRow;
use base_fractions::OrderedField;
use lp_dictionary::{Coefficients, Entry, Problem, Row, push_value, signed};
use std::alloc::{AllocError, Global};

/// The entries of coefficients that are not zero, each with its sign or with the other one.
fn entries_of<F: OrderedField>(
    alloc: Global,
    coefficients: &Coefficients<F>,
    negated: bool,
) -> Result<Vec<Entry<F>>, AllocError>
    ensures { IfOk result (λ v. Lists F.meaning (map (signed_by negated) coefficients.now) v.items) }
{
    let kept = coefficients.entries();
    let mut entries = Vec::with_capacity(alloc, kept.len().saturating_add(2))?;
    for entry in kept {
        entries.push(Entry {
            col: entry.col,
            value: signed(entry.value, negated),
        })?;
    }
    Ok(entries)
}

/// Appends the entries after the problem's columns: the auxiliary variable's, if there is one, and the constant.
fn push_end<F: OrderedField>(
    entries: &mut Vec<Entry<F>>,
    cols: u32,
    auxiliary: bool,
    coefficient: F,
    constant: F,
) -> Result<(), AllocError>
    requires { cols < 4294967295 }
    ensures { OnOk result (entries.new.items ≡ end_pushed F.meaning auxiliary entries.old.items cols coefficient constant) }
{
    if auxiliary {
        push_value(entries, cols, coefficient)?;
        push_value(entries, cols + 1, constant)
    } else {
        push_value(entries, cols, constant)
    }
}

/// The row of a slack.
fn slack_row<F: OrderedField>(
    alloc: Global,
    row: &Row<F>,
    auxiliary: bool,
) -> Result<SparseRow<F>, AllocError>
    requires { length row.now.coeffs < 4294967295 }
    ensures { IfOk result (λ r. Lists F.meaning (slack_entries auxiliary row.now.coeffs (F.meaning row.now.side))
        r.entries.items) }
{
    let mut entries = entries_of(alloc, &row.coeffs, true)?;
    let cols = row.coeffs.len() as u32;
    push_end(&mut entries, cols, auxiliary, F::one(), row.side)?;
    Ok(SparseRow { entries })
}

/// The row of the first goal, the negated auxiliary variable.
fn auxiliary_row<F: OrderedField>(alloc: Global, cols: u32) -> Result<SparseRow<F>, AllocError>
    requires { cols < 4294967295 }
    ensures { IfOk result (λ r. Lists F.meaning (auxiliary_entries cols) r.entries.items) }
{
    let mut entries = Vec::new(alloc);
    push_end(&mut entries, cols, true, F::one().negate(), F::zero())?;
    Ok(SparseRow { entries })
}

/// The row of the problem's goal.
fn goal_row<F: OrderedField>(
    alloc: Global,
    goal: &Coefficients<F>,
    auxiliary: bool,
) -> Result<SparseRow<F>, AllocError>
    requires { length goal.now < 4294967295 }
    ensures { IfOk result (λ r. Lists F.meaning (goal_entries auxiliary goal.now) r.entries.items) }
{
    let mut entries = entries_of(alloc, goal, false)?;
    let cols = goal.len() as u32;
    push_end(&mut entries, cols, auxiliary, F::zero(), F::zero())?;
    Ok(SparseRow { entries })
}

/// The rows of the slacks.
fn slack_rows<F: OrderedField>(
    alloc: Global,
    rows: &[Row<F>],
    auxiliary: bool,
) -> Result<Vec<SparseRow<F>>, AllocError>
    requires { (i : ℕ) → length (get_or (map (λ r. r.coeffs) rows.now) i []) < 4294967295 }
    ensures count { IfOk result (λ v. length v.items ≡ length rows.now) }
    ensures rows { IfOk result (λ v. (i : ℕ) → i < length rows.now →
        Lists F.meaning (slack_entries auxiliary (get_or (map (λ r. r.coeffs) rows.now) i [])
        (get_or (map (λ r. F.meaning r.side) rows.now) i zero_ℚ)) (row_at v.items i)) }
{
    let mut slacks = Vec::with_capacity(alloc, rows.len().saturating_add(2))?;
    for i in 0..rows.len() {
        slacks.push(slack_row(alloc, &rows[i], auxiliary)?)?;
    }
    Ok(slacks)
}

/// The rows of the first dictionary, with the auxiliary variable's column and goal where it has one.
pub fn first_rows<F: OrderedField>(
    alloc: Global,
    problem: &Problem<F>,
    auxiliary: bool,
) -> Result<Vec<SparseRow<F>>, AllocError>
    requires rows { (i : ℕ) → length (get_or (map (λ r. r.coeffs) problem.now.rows.items) i []) < 4294967295 }
    requires cols { length problem.now.goal < 4294967295 }
    ensures count { IfOk result (λ v. length v.items ≡ length problem.now.rows.items + goals_of auxiliary) }
    ensures rows { IfOk result (λ v. IsFirst F.meaning auxiliary (map (λ r. r.coeffs) problem.now.rows.items)
        (map (λ r. F.meaning r.side) problem.now.rows.items) problem.now.goal v.items) }
{
    let mut rows = slack_rows(alloc, &problem.rows, auxiliary)?;
    if auxiliary {
        rows.push(auxiliary_row(alloc, problem.goal.len() as u32)?)?;
    }
    rows.push(goal_row(alloc, &problem.goal, auxiliary)?)?;
    Ok(rows)
}

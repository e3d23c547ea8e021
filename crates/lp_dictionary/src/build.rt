//! The lists of the first dictionary.
ghost use Rattle.std.specs.Prelude.{◌≡◌, ℕ, ◌+◌, ◌<◌, ◌≤◌, length, map, ◌++◌, ◌∷◌, [], get_or, vec_len, IfOk, OnOk};
ghost use Rattle.lp_dictionary.specs.Exact.{exact, IsShaped};
ghost use Rattle.base_numbers.specs.Vector.{zeros};
ghost use Rattle.lp_dictionary.specs.Build.{goals_of, width_of, other_name, signed_by, slack_entries, auxiliary_entries, goal_entries};
ghost use Rattle.lp_dictionary.specs.Build.{goals_entries, slacks_entries};

use crate::coefficients::Coefficients;
use crate::problem::{Problem, Row};
use base_fractions::OrderedField;
use std::alloc::{AllocError, Global};

/// `count` numbers from `first` on.
pub fn names_from(alloc: Global, first: u32, count: u32) -> Result<Vec<u32>, AllocError>
    requires { first + count < 4294967296 }
    ensures { IfOk result (λ v. (length v.items ≡ count) × ((k : ℕ) → k < count → get_or v.items k 0 ≡ first + k)) }
{
    let mut names = Vec::with_capacity(alloc, count as usize)?;
    for i in 0..count {
        names.push(first + i)?;
    }
    Ok(names)
}

/// The names of the columns of the first dictionary: 1 to `cols`, and after them 0, the auxiliary variable, if there is one.
pub fn other_names(alloc: Global, cols: u32, auxiliary: bool) -> Result<Vec<u32>, AllocError>
    requires { 1 + cols < 4294967296 }
    ensures { IfOk result (λ v. (length v.items ≡ width_of auxiliary cols)
        × ((k : ℕ) → k < width_of auxiliary cols → get_or v.items k 0 ≡ other_name cols k)) }
{
    let mut names = names_from(alloc, 1, cols)?;
    if auxiliary {
        names.push(0)?;
    }
    Ok(names)
}

/// How many goals the first dictionary has: that of the problem, and before it the negated auxiliary variable, if there is one.
pub fn goal_count(auxiliary: bool) -> usize
    ensures { result ≡ goals_of auxiliary }
{
    if auxiliary { 2 } else { 1 }
}

/// The number, or the one with the other sign.
pub fn signed<F: OrderedField>(value: F, negated: bool) -> F
    ensures { F.meaning result ≡ signed_by negated (F.meaning value) }
{
    if negated { value.negate() } else { value }
}

/// Appends coefficients with their zeros, each with its sign or with the other one.
fn push_spread<F: OrderedField>(
    entries: &mut Vec<F>,
    coefficients: &Coefficients<F>,
    negated: bool,
) -> Result<(), AllocError>
    ensures { OnOk result (map F.meaning entries.new.items ≡ map F.meaning entries.old.items ++ map (signed_by negated) coefficients.now) }
{
    for col in 0..coefficients.len() {
        entries.push(signed(coefficients.at(col), negated))?;
    }
    Ok(())
}

/// Appends coefficients with their zeros.
fn push_coefficients<F: OrderedField>(
    entries: &mut Vec<F>,
    coefficients: &Coefficients<F>,
) -> Result<(), AllocError>
    ensures { OnOk result (map F.meaning entries.new.items ≡ map F.meaning entries.old.items ++ coefficients.now) }
{
    push_spread(entries, coefficients, false)?;
    Ok(())
}

/// Appends the row of a slack.
fn push_slack<F: OrderedField>(
    entries: &mut Vec<F>,
    row: &Row<F>,
    auxiliary: bool,
) -> Result<(), AllocError>
    ensures { OnOk result (map F.meaning entries.new.items ≡ map F.meaning entries.old.items
        ++ slack_entries auxiliary row.now.coeffs (F.meaning row.now.side)) }
{
    push_spread(entries, &row.coeffs, true)?;
    if auxiliary {
        entries.push(F::one())?;
    }
    entries.push(row.side)?;
    Ok(())
}

/// Appends the rows of the slacks.
fn push_slacks<F: OrderedField>(
    entries: &mut Vec<F>,
    rows: &[Row<F>],
    auxiliary: bool,
) -> Result<(), AllocError>
    requires { entries.old.items ≡ [] }
    ensures { OnOk result (map F.meaning entries.new.items ≡ slacks_entries auxiliary (map (λ r. r.coeffs) rows.now)
        (map (λ r. F.meaning r.side) rows.now) (length rows.now)) }
{
    for i in 0..rows.len() {
        push_slack(entries, &rows[i], auxiliary)?;
    }
    Ok(())
}

/// Appends `count` times 0.
fn push_zeros<F: OrderedField>(entries: &mut Vec<F>, count: usize) -> Result<(), AllocError>
    ensures { OnOk result (map F.meaning entries.new.items ≡ map F.meaning entries.old.items ++ zeros count) }
{
    for _k in 0..count {
        entries.push(F::zero())?;
    }
    Ok(())
}

/// Appends the row of the first goal, the negated auxiliary variable.
fn push_auxiliary<F: OrderedField>(entries: &mut Vec<F>, cols: usize) -> Result<(), AllocError>
    ensures { OnOk result (map F.meaning entries.new.items ≡ map F.meaning entries.old.items ++ auxiliary_entries cols) }
{
    push_zeros(entries, cols)?;
    entries.push(F::one().negate())?;
    entries.push(F::zero())?;
    Ok(())
}

/// Appends the row of the problem's goal.
fn push_goal<F: OrderedField>(
    entries: &mut Vec<F>,
    goal: &Coefficients<F>,
    auxiliary: bool,
) -> Result<(), AllocError>
    ensures { OnOk result (map F.meaning entries.new.items ≡ map F.meaning entries.old.items
        ++ goal_entries auxiliary goal.now) }
{
    push_coefficients(entries, goal)?;
    if auxiliary {
        entries.push(F::zero())?;
    }
    entries.push(F::zero())?;
    Ok(())
}

/// Appends the rows of the goals.
fn push_goals<F: OrderedField>(
    entries: &mut Vec<F>,
    goal: &Coefficients<F>,
    auxiliary: bool,
) -> Result<(), AllocError>
    ensures { OnOk result (map F.meaning entries.new.items ≡ map F.meaning entries.old.items
        ++ goals_entries auxiliary goal.now) }
{
    if auxiliary {
        push_auxiliary(entries, goal.len())?;
    }
    push_goal(entries, goal, auxiliary)
}

/// The entries of the first dictionary, row after row, with the auxiliary variable's column and goal where it has one.
pub fn first_entries<F: OrderedField>(
    alloc: Global,
    problem: &Problem<F>,
    auxiliary: bool,
) -> Result<Vec<F>, AllocError>
    ensures { IfOk result (λ v. map F.meaning v.items ≡ slacks_entries auxiliary
        (map (λ r. r.coeffs) problem.now.rows.items)
        (map (λ r. F.meaning r.side) problem.now.rows.items) (length problem.now.rows.items)
        ++ goals_entries auxiliary problem.now.goal) }
{
    let rows = problem.rows.len().saturating_add(2);
    let stride = problem.goal.len().saturating_add(2);
    let mut entries = Vec::with_capacity(alloc, rows.saturating_mul(stride))?;
    push_slacks(&mut entries, &problem.rows, auxiliary)?;
    push_goals(&mut entries, &problem.goal, auxiliary)?;
    Ok(entries)
}

//! The problem that a file writes.
ghost use Rattle.std.specs.Prelude.{IsTrue, IfOk};
ghost use Rattle.lp_dictionary.specs.Exact.{IsShaped};

use crate::read::{Line, Term, Written};
use anyhow::bail;
use base_fractions::{Frac, OrderedField};
use lp_simplex::{Coefficients, Problem, Row};
use std::alloc::Global;

// The greatest column among terms.
fn greatest(terms: &[Term], mut most: u32) -> u32 {
    for term in terms {
        most = most.max(term.column);
    }
    most
}

// How many columns there are.
fn columns(written: &Written) -> u32 {
    let mut most = greatest(&written.goal, 0);
    for row in &written.rows {
        most = greatest(&row.terms, most);
    }
    most
}

fn whole(number: i64, line: usize) -> anyhow::Result<Frac> {
    match Frac::make(number, 1) {
        Some(value) => Ok(value),
        None => bail!("line {line}: the number is too large"),
    }
}

// One coefficient for each column.
fn row_of(alloc: Global, terms: &[Term], cols: u32) -> anyhow::Result<Coefficients<Frac>> {
    let mut coeffs = Vec::with_capacity(alloc, cols as usize)?;
    for _ in 0..cols {
        coeffs.push(Frac::zero())?;
    }
    for term in terms {
        match coeffs.get_mut((term.column as usize).wrapping_sub(1)) {
            Some(place) if place.is_zero() => *place = whole(term.coefficient, term.line)?,
            _ => bail!("line {}: x{} stands twice in a row", term.line, term.column),
        }
    }
    Ok(Coefficients::of(alloc, &coeffs)?)
}

// Whether each row has one coefficient for each column, and the names are few enough.
fn is_shaped(problem: &Problem<Frac>) -> bool
    ensures { IsTrue result → IsShaped problem.now }
{
    let cols = problem.goal.len();
    let few = match problem.rows.len().checked_add(cols) {
        Some(names) => names < 4294967295,
        None => false,
    };
    few && problem.rows.iter().all(|row| row.coeffs.len() == cols)
}

/// The problem over fractions.
pub fn problem_of(alloc: Global, written: &Written) -> anyhow::Result<Problem<Frac>>
    ensures { IfOk result IsShaped }
{
    let cols = columns(written);
    let goal = row_of(alloc, &written.goal, cols)?;
    let mut rows = Vec::with_capacity(alloc, written.rows.len())?;
    for Line { terms, side, line } in &written.rows {
        rows.push(Row {
            coeffs: row_of(alloc, terms, cols)?,
            side: whole(*side, *line)?,
        })?;
    }
    let problem = Problem { rows, goal };
    if !is_shaped(&problem) {
        bail!("too many rows and columns");
    }
    Ok(problem)
}

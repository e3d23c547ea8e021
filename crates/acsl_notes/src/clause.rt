//! What bounds say of the states at a point.

ghost use Rattle.std.specs.Prelude.{◌≡◌, ◌+◌, ◌<◌, ◌++◌, ◌∷◌, [], IfOk, MatchOption, drop, get_or, length, take};
ghost use Rattle.base_numbers.specs.Extended.{fin};
ghost use Rattle.acsl_notes.specs.Clauses.{clause_at, clauses_from, clauses_of};
ghost use Rattle.acsl_notes.specs.View.{bound_at, bounded, clause_of, clauses_in, clauses_of_said};

use crate::known::is_over;
use crate::meet::is_met;
use base_fractions::{Ext, Frac};
use lang_tree::Coeffs;
use std::alloc::{AllocError, Global};

/// What a row's bound says. Rows are counted from 0.
#[derive(Clone, Copy)]
pub(crate) enum Said {
    /// No state comes here.
    Never,
    /// The row's value is at most the bound.
    AtMost { row: usize, bound: Frac },
    /// The row's value is the bound.
    Equals { row: usize, bound: Frac },
}

/// What the bound of a row says: that its value is the bound where an opposite row behind it meets it.
fn clause_at(rows: &[Coeffs], bounds: &[Ext], row: usize, bound: Frac) -> Said
    requires row { row < length rows.now }
    requires bounds { length rows.now ≡ length bounds.now }
    ensures { clause_of rows.now result ≡ clause_at (get_or rows.now row []) bound
        (bounded (drop (row + 1) rows.now) (drop (row + 1) bounds.now)) }
{
    if is_met(
        rows[row].as_slice(),
        bound,
        &rows[row + 1..],
        &bounds[row + 1..],
    ) {
        Said::Equals { row, bound }
    } else {
        Said::AtMost { row, bound }
    }
}

/// What a row with a finite bound says: nothing where a variable isn't known, or an opposite row before it met it.
fn finite_clause(
    known: &[u32],
    rows: &[Coeffs],
    bounds: &[Ext],
    row: usize,
    bound: Frac,
) -> Option<Said>
    requires row { row < length rows.now }
    requires bounds { length rows.now ≡ length bounds.now }
    ensures { MatchOption result
        (clauses_of known.now (bounded (take row rows.now) (take row bounds.now)) (get_or rows.now row []) (fin bound)
        (bounded (drop (row + 1) rows.now) (drop (row + 1) bounds.now)) ≡ [])
        (λ said. clauses_of known.now (bounded (take row rows.now) (take row bounds.now)) (get_or rows.now row []) (fin bound)
        (bounded (drop (row + 1) rows.now) (drop (row + 1) bounds.now)) ≡ clause_of rows.now said ∷ []) }
{
    let coefficients = rows[row].as_slice();
    if !is_over(known, coefficients) {
        return None;
    }
    if is_met(coefficients, bound, &rows[..row], &bounds[..row]) {
        return None;
    }
    Some(clause_at(rows, bounds, row, bound))
}

/// What a row says, if anything.
fn row_clause(known: &[u32], rows: &[Coeffs], bounds: &[Ext], row: usize) -> Option<Said>
    requires row { row < length rows.now }
    requires bounds { length rows.now ≡ length bounds.now }
    ensures { MatchOption result
        (clauses_of known.now (bounded (take row rows.now) (take row bounds.now)) (get_or rows.now row []) (bound_at bounds.now row)
        (bounded (drop (row + 1) rows.now) (drop (row + 1) bounds.now)) ≡ [])
        (λ said. clauses_of known.now (bounded (take row rows.now) (take row bounds.now)) (get_or rows.now row []) (bound_at bounds.now row)
        (bounded (drop (row + 1) rows.now) (drop (row + 1) bounds.now)) ≡ clause_of rows.now said ∷ []) }
{
    match bounds[row] {
        Ext::Fin(bound) => finite_clause(known, rows, bounds, row, bound),
        _ => None,
    }
}

/// Adds what a row says.
fn push_clause(
    said: &mut Vec<Said>,
    known: &[u32],
    rows: &[Coeffs],
    bounds: &[Ext],
    row: usize,
) -> Result<(), AllocError>
    requires row { row < length rows.now }
    requires bounds { length rows.now ≡ length bounds.now }
    ensures { IfOk result (λ _. clauses_of_said rows.now said.new.items ≡ clauses_of_said rows.now said.old.items
        ++ clauses_of known.now (bounded (take row rows.now) (take row bounds.now)) (get_or rows.now row []) (bound_at bounds.now row)
        (bounded (drop (row + 1) rows.now) (drop (row + 1) bounds.now))) }
{
    if let Some(clause) = row_clause(known, rows, bounds, row) {
        said.push(clause)?;
    }
    Ok(())
}

/// What rows say, one after another.
fn row_clauses(
    alloc: Global,
    known: &[u32],
    rows: &[Coeffs],
    bounds: &[Ext],
) -> Result<Vec<Said>, AllocError>
    requires { length rows.now ≡ length bounds.now }
    ensures { IfOk result (λ said. clauses_of_said rows.now said.items ≡ clauses_from known.now [] (bounded rows.now bounds.now)) }
{
    let mut said = Vec::new(alloc);
    for row in 0..rows.len() {
        push_clause(&mut said, known, rows, bounds, row)?;
    }
    Ok(said)
}

/// What the bounds of a point say where these variables are known: that it is unreachable where the first is `-inf`.
pub(crate) fn clauses(
    alloc: Global,
    known: &[u32],
    rows: &[Coeffs],
    bounds: &[Ext],
) -> Result<Vec<Said>, AllocError>
    requires some { 0 < length rows.now }
    requires bounds { length rows.now ≡ length bounds.now }
    ensures { IfOk result (λ said. clauses_of_said rows.now said.items
        ≡ clauses_in known.now (bounded rows.now bounds.now) (bound_at bounds.now 0)) }
{
    match bounds[0] {
        Ext::NegInf => {
            let mut said = Vec::new(alloc);
            said.push(Said::Never)?;
            Ok(said)
        }
        _ => row_clauses(alloc, known, rows, bounds),
    }
}

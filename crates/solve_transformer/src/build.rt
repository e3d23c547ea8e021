//! The problem of an edge and a row at a vector.

ghost use Rattle.std.specs.Prelude.{◌+◌, ◌*◌, ◌≡◌, ◌≤◌, ◌<◌, ℕ, ℤ, List, ◌++◌, IfOk, OnOk, IsTrue, MatchOption, length, map};
ghost use Rattle.base_numbers.specs.Extended.{neg_inf, ◌<ᴱ◌};
ghost use Rattle.lang_tree.specs.Numbers.{are_numbers};
ghost use Rattle.base_fractions.specs.Extended.{extended};
ghost use Rattle.flow_systems.specs.Equations.{Equations, Vector};
ghost use Rattle.flow_edges.specs.declared.edge.Edge.{Edge};
ghost use Rattle.flow_systems.specs.SystemLimits.{is_over};
ghost use Rattle.lp_dictionary.specs.Exact.{exact, IsShaped};
ghost use Rattle.theory_transformers.specs.EdgeProblems.{source_limits, guard_limits, whole_problem};
ghost use Rattle.theory_validity.specs.Words.{Affine as Formal};
ghost use Rattle.solve_composition.specs.Composed.{dense};
ghost use Rattle.solve_transformer.specs.Values.{IsLowestLost};
ghost use Rattle.solve_transformer.specs.Splits.{bounds_at, split_limit, limit_of, source_row, IsSource};
ghost use Rattle.flow_templates.specs.declared.limits.TheConstants.{MOST_ROWS};
ghost use Rattle.flow_edges.specs.declared.limits.TheConstants.{MOST_ACTIONS};
ghost use Rattle.lang_tree.specs.declared.limits.TheConstants.{MOST_VARIABLES};

use crate::split::{split_coeffs, split_row};
use base_fractions::{Ext, Frac, OrderedField};
use lang_tree::Coeffs;
use lp_dictionary::{Problem, Row};
use solve_composition::Affine;
use std::alloc::{AllocError, Global};

// The lowest row whose bound is `-inf`.
pub fn lowest_lost(source: &[Ext], rows: usize) -> Option<u32>
    requires few { rows ≤ MOST_ROWS }
    requires room { rows ≤ length source.now }
    ensures { MatchOption result ((k : ℕ) → k < rows → neg_inf <ᴱ bounds_at source.now k)
        (λ r. IsLowestLost (bounds_at source.now) rows r) }
{
    for row in 0..rows {
        if let Ext::NegInf = source[row] {
            return Some(row as u32);
        }
    }
    None
}

// A template row where its bound is finite, with that bound as side.
fn add_source_row(
    alloc: Global,
    row: &[i64],
    bound: Ext,
    width: usize,
    rows: &mut Vec<Row<Frac>>,
) -> Result<(), AllocError>
    requires { IsTrue (are_numbers row.now) }
    ensures { OnOk result (map limit_of rows.new.items ≡ map limit_of rows.old.items ++ source_row width row.now (extended bound)) }
{
    match bound {
        Ext::Fin(side) => {
            let coeffs = split_row(alloc, row, width)?;
            rows.push(Row { coeffs, side })?;
            Ok(())
        }
        _ => Ok(()),
    }
}

// The template rows whose bound is finite, with that bound as side.
fn source_rows(
    alloc: Global,
    template: &[Coeffs],
    source: &[Ext],
    width: usize,
    rows: &mut Vec<Row<Frac>>,
) -> Result<(), AllocError>
    requires { length template.now ≤ length source.now }
    ensures { (n : ℕ) → IsTrue (is_over n template.now) →
        OnOk result (map limit_of rows.new.items ≡ map limit_of rows.old.items
        ++ map (split_limit width) (source_limits (λ r u. u) n (bounds_at source.now) template.now)) }
{
    for (r, row) in template.iter().enumerate() {
        add_source_row(alloc, row.as_slice(), source[r], width, rows)?;
    }
    Ok(())
}

// The guards, with the negated constant as side.
fn guard_rows(alloc: Global, guards: &[Affine], rows: &mut Vec<Row<Frac>>) -> Result<(), AllocError>
    ensures { (width : ℕ) (forms : List Formal) → guards.now ≡ map (dense width) forms →
        OnOk result (map limit_of rows.new.items ≡ map limit_of rows.old.items ++ map (split_limit width) (guard_limits (λ u. u) forms)) }
{
    for guard in guards {
        let coeffs = split_coeffs(alloc, guard.coeffs.as_slice())?;
        let side = guard.constant.negate();
        rows.push(Row { coeffs, side })?;
    }
    Ok(())
}

// The problem over split columns: the template rows with a finite bound, the guards, and the row's end value without its
// constant as goal.
pub fn edge_problem(
    alloc: Global,
    template: &[Coeffs],
    source: &[Ext],
    guards: &[Affine],
    form: &Affine,
    width: usize,
) -> Result<Problem<Frac>, AllocError>
    requires room { length template.now ≤ length source.now }
    requires few_rows { length template.now ≤ MOST_ROWS }
    requires few_guards { length guards.now ≤ 2 * MOST_ACTIONS }
    requires few_columns { width ≤ MOST_VARIABLES + MOST_ACTIONS }
    ensures { (system : Equations) (z : Vector) (edge : Edge) (row : List ℤ) → IsTrue (is_over system.variables system.template) →
        IsSource system z edge row width template.now source.now guards.now form.now →
        IfOk result (λ p. (exact (λ q. q) p ≡ whole_problem system z edge row) × IsShaped p) }
{
    let mut rows = Vec::with_capacity(alloc, template.len() + guards.len())?;
    source_rows(alloc, template, source, width, &mut rows)?;
    guard_rows(alloc, guards, &mut rows)?;
    let goal = split_coeffs(alloc, form.coeffs.as_slice())?;
    Ok(Problem { rows, goal })
}

//! The outcome of a problem over split columns, read as a value.

ghost use Rattle.std.specs.Prelude.{◌≡◌, ◌≤◌, ◌<◌, ◌+◌, ◌*◌, ◌^◌, ℕ, suc, ℤ, List, IfOk, length, map, get_or};
ghost use Rattle.std.specs.List.{range_with_len};
ghost use Rattle.base_numbers.specs.Rational.{ℚ, zero_ℚ, ◌-ℚ◌};
ghost use Rattle.lp_theory.specs.Problem as lp;
ghost use Rattle.lp_theory.specs.Free.{unsplit};
ghost use Rattle.lp_theory.specs.Listed.{at};
ghost use Rattle.theory_transformers.specs.Spread.{spread, skip};
ghost use Rattle.base_numbers.specs.Extended.{Ext as Extended};
ghost use Rattle.base_fractions.specs.declared.wide.Op.TheVariants.{Sub};
ghost use Rattle.flow_systems.specs.Faults.{AnswersBy};
ghost use Rattle.solve_transformer.specs.Values.{IsTraceOf, ReadsOutcome, entry_operations, reading_operations};
ghost use Rattle.base_fractions.specs.Extended.{extended};
ghost use Rattle.solve_transformer.specs.Splits.{bounds_at};
ghost use Rattle.solve_transformer.specs.Readings.{listed_outcome, finite_one, multiplier_one};
ghost use Rattle.flow_templates.specs.declared.limits.TheConstants.{MOST_ROWS};
ghost use Rattle.flow_edges.specs.declared.limits.TheConstants.{MOST_ACTIONS};
ghost use Rattle.lang_tree.specs.declared.limits.TheConstants.{MOST_VARIABLES};

use base_fractions::{Ext, Frac, OrderedField};
use flow_systems::{Fracs, Trace};
use lp_simplex::Outcome;
use solve_composition::{FormFault, Value};
use std::alloc::{AllocError, Global};

// The sizes of an edge's problem: its start variables, its free values, the template's rows, and its guards.
#[derive(Clone, Copy, Drop)]
pub struct Sizes {
    pub variables: usize,
    pub frees: usize,
    pub rows: usize,
    pub guards: usize,
    pub ghost few_variables: { variables ≤ MOST_VARIABLES },
    pub ghost few_frees: { frees ≤ MOST_ACTIONS },
    pub ghost few_guards: { guards ≤ 2 * MOST_ACTIONS },
}

// An entry of a list, 0 behind its end.
fn entry(list: &[Frac], place: usize) -> Frac
    ensures { result ≡ at list.now place }
{
    match list.get(place) {
        Some(number) => *number,
        None => Frac::zero(),
    }
}

// So many entries of the columns of any sign from the first on: each positive column minus the negative one.
fn read_entries(
    alloc: Global,
    point: &[Frac],
    first: usize,
    count: usize,
) -> Result<Fracs, FormFault>
    requires first { first ≤ MOST_VARIABLES + MOST_ACTIONS }
    requires count { count ≤ MOST_VARIABLES + MOST_ACTIONS }
    ensures { AnswersBy (λ list. list ≡ map (unsplit (at point.now)) (range_with_len first count))
        (map (λ j. record { op = Sub; left = at point.now (j + j); right = at point.now (suc (j + j)) }) (range_with_len first count))
        result }
{
    let mut list = Vec::with_capacity(alloc, count)?;
    for i in 0..count {
        let column = first + i;
        let number = entry(point, column + column).minus(entry(point, column + column + 1))?;
        list.push(number)?;
    }
    Ok(Fracs::new(list))
}

// The trace whose entries are these differences: the start values, and then the free values.
fn read_trace(
    alloc: Global,
    point: &[Frac],
    variables: usize,
    frees: usize,
) -> Result<Trace, FormFault>
    requires variables { variables ≤ MOST_VARIABLES }
    requires frees { frees ≤ MOST_ACTIONS }
    ensures { AnswersBy (IsTraceOf variables (variables + frees) (unsplit (at point.now)))
        (entry_operations (variables + frees) (at point.now)) result }
{
    let start = read_entries(alloc, point, 0, variables)?;
    let free = read_entries(alloc, point, variables, frees)?;
    Ok(Trace { start, free })
}

// How many rows of a problem a template row with this bound makes.
fn finite_rows(bound: Ext) -> usize
    ensures count { result ≡ finite_one (extended bound) }
    ensures few { result ≤ 1 }
{
    match bound {
        Ext::Fin(_) => 1,
        _ => 0,
    }
}

// The multiplier of a template row with this bound, where this is the next one.
fn multiplier(bound: Ext, next: Frac) -> Frac
    ensures { result ≡ multiplier_one (extended bound) next }
{
    match bound {
        Ext::Fin(_) => next,
        _ => Frac::zero(),
    }
}

// The multipliers of the template rows, 0 where the bound isn't finite.
fn row_multipliers(
    alloc: Global,
    source: &[Ext],
    rows: usize,
    multipliers: &[Frac],
) -> Result<Fracs, AllocError>
    requires room { rows ≤ length source.now }
    requires few { rows ≤ MOST_ROWS }
    ensures { (template : List (List ℤ)) → rows ≡ length template → IfOk result
        (λ list. list ≡ spread (bounds_at source.now) template (at multipliers.now)) }
{
    let mut list = Vec::with_capacity(alloc, rows)?;
    let mut next = 0;
    for row in 0..rows {
        let number = multiplier(source[row], entry(multipliers, next));
        list.push(number)?;
        next += finite_rows(source[row]);
    }
    Ok(Fracs::new(list))
}

// How many template rows have a finite bound.
fn count_finite(source: &[Ext], rows: usize) -> usize
    requires room { rows ≤ length source.now }
    requires few { rows ≤ MOST_ROWS }
    ensures count { (template : List (List ℤ)) → rows ≡ length template → (y : ℕ → ℚ)
        → skip (bounds_at source.now) template y ≡ (λ k. y (result + k)) }
    ensures few { result ≤ rows }
{
    let mut count = 0;
    for row in 0..rows {
        count += finite_rows(source[row]);
    }
    count
}

// So many multipliers from the first on.
fn guard_multipliers(
    alloc: Global,
    multipliers: &[Frac],
    first: usize,
    count: usize,
) -> Result<Fracs, AllocError>
    requires first { first ≤ MOST_ROWS }
    requires count { count ≤ 2 * MOST_ACTIONS }
    ensures { IfOk result (λ list. list ≡ map (λ k. at multipliers.now (first + k)) (range_with_len 0 count)) }
{
    let mut list = Vec::with_capacity(alloc, count)?;
    for guard in 0..count {
        list.push(entry(multipliers, first + guard))?;
    }
    Ok(Fracs::new(list))
}

// The value, a trace that reaches it, and the multipliers that bound it.
fn read_best(
    alloc: Global,
    sizes: Sizes,
    source: &[Ext],
    constant: Frac,
    point: &[Frac],
    best: Frac,
    multipliers: &[Frac],
) -> Result<Value, FormFault>
    requires room { sizes.rows ≤ length source.now }
    requires few { sizes.rows ≤ MOST_ROWS }
    ensures { (template : List (List ℤ)) → sizes.rows ≡ length template →
        AnswersBy (ReadsOutcome sizes.variables (sizes.variables + sizes.frees) constant (bounds_at source.now) template sizes.guards
        (lp.best (at point.now) best (at multipliers.now)))
        (reading_operations (sizes.variables + sizes.frees) constant (lp.best (at point.now) best (at multipliers.now))) result }
{
    let value = best.plus(constant)?;
    let trace = read_trace(alloc, point, sizes.variables, sizes.frees)?;
    let rows = row_multipliers(alloc, source, sizes.rows, multipliers)?;
    let first = count_finite(source, sizes.rows);
    let guards = guard_multipliers(alloc, multipliers, first, sizes.guards)?;
    Ok(Value::Best {
        value,
        trace,
        rows,
        guards,
    })
}

// A trace, and the direction without end.
fn read_unbounded(
    alloc: Global,
    sizes: Sizes,
    point: &[Frac],
    ray: &[Frac],
) -> Result<Value, FormFault>
    ensures { (constant : ℚ) (bounds : ℕ → Extended) (template : List (List ℤ)) →
        AnswersBy (ReadsOutcome sizes.variables (sizes.variables + sizes.frees) constant bounds template sizes.guards
        (lp.unbounded (at point.now) (at ray.now)))
        (reading_operations (sizes.variables + sizes.frees) constant (lp.unbounded (at point.now) (at ray.now))) result }
{
    let trace = read_trace(alloc, point, sizes.variables, sizes.frees)?;
    let direction = read_trace(alloc, ray, sizes.variables, sizes.frees)?;
    Ok(Value::Unbounded { trace, direction })
}

// The multipliers by which nothing passes.
fn read_empty(
    alloc: Global,
    sizes: Sizes,
    source: &[Ext],
    multipliers: &[Frac],
) -> Result<Value, AllocError>
    requires room { sizes.rows ≤ length source.now }
    requires few { sizes.rows ≤ MOST_ROWS }
    ensures { (n w : ℕ) (constant : ℚ) (template : List (List ℤ)) → sizes.rows ≡ length template →
        IfOk result (ReadsOutcome n w constant (bounds_at source.now) template sizes.guards (lp.empty (at multipliers.now))) }
{
    let rows = row_multipliers(alloc, source, sizes.rows, multipliers)?;
    let first = count_finite(source, sizes.rows);
    let guards = guard_multipliers(alloc, multipliers, first, sizes.guards)?;
    Ok(Value::Empty { rows, guards })
}

// The outcome as a value.
pub fn read_outcome(
    alloc: Global,
    sizes: Sizes,
    source: &[Ext],
    constant: Frac,
    outcome: Outcome<Frac>,
) -> Result<Value, FormFault>
    requires room { sizes.rows ≤ length source.now }
    requires few { sizes.rows ≤ MOST_ROWS }
    ensures { (template : List (List ℤ)) → sizes.rows ≡ length template →
        AnswersBy (ReadsOutcome sizes.variables (sizes.variables + sizes.frees) constant (bounds_at source.now) template sizes.guards
        (listed_outcome outcome)) (reading_operations (sizes.variables + sizes.frees) constant (listed_outcome outcome)) result }
{
    match outcome {
        Outcome::Best {
            point,
            value,
            multipliers,
        } => read_best(alloc, sizes, source, constant, &point, value, &multipliers),
        Outcome::Unbounded { point, ray } => read_unbounded(alloc, sizes, &point, &ray),
        Outcome::Empty { multipliers } => Ok(read_empty(alloc, sizes, source, &multipliers)?),
    }
}

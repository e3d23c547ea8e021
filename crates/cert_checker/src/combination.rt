//! Sums of multiples: from the left, starting with 0, first of rows and then of guards, each product with its multiplier on the
//! left.

ghost use Rattle.std.specs.Prelude.{◌≡◌, ◌*◌, ◌<◌, [], ◌∷◌, IsTrue, pos, length, slice_get, get_or, map, Some};
ghost use Rattle.std.specs.List.{range_with_len};
ghost use Rattle.base_numbers.specs.Rational.{whole, zero_ℚ};
ghost use Rattle.lang_tree.specs.Numbers.{are_numbers};
ghost use Rattle.flow_edges.specs.declared.edge.Edge.{Edge};
ghost use Rattle.base_fractions.specs.Extended.{extended};
ghost use Rattle.flow_systems.specs.Equations.{Vector};
ghost use Rattle.flow_systems.specs.Sums.{SumAnswers};
ghost use Rattle.flow_systems.specs.View.{equations_of};
ghost use Rattle.theory_validity.specs.Certificates.{num, combination, side};
ghost use Rattle.theory_validity.specs.Words.{width, guard_forms};
ghost use Rattle.solve_composition.specs.Composed.{EdgeForms, AreComposed};
ghost use Rattle.solve_composition.specs.Sums.{dense_column};
ghost use Rattle.cert_checker.specs.Combined.{negated_constants};
ghost use Rattle.cert_checker.specs.EvidenceEvents.{total, products, row_column, column_operations, side_operations};
ghost use Rattle.cert_checker.specs.Stands.{Stands};

use base_fractions::{Ext, Frac, OrderedField, Wide};
use flow_systems::{Bounds, System, fraction};
use solve_composition::Paths;

// The sum with the multiple of a number added to it.
fn add_multiple(sum: Frac, multiplier: Frac, number: Frac) -> Result<Frac, Wide<Frac>>
    ensures { SumAnswers (total sum (multiplier ∷ []) (number ∷ [])) (products sum (multiplier ∷ []) (number ∷ [])) result }
{
    let product = multiplier.times(number)?;
    sum.plus(product)
}

/// The coefficient at a column: 0 behind the last one.
pub fn coefficient(coeffs: &[Frac], column: usize) -> Frac
    ensures { result ≡ get_or coeffs.now column zero_ℚ }
{
    if column < coeffs.len() {
        coeffs[column]
    } else {
        Frac::zero()
    }
}

// What a row has at a column: nothing at a free value's.
fn row_entry(row: &[i64], column: usize) -> Frac
    requires { IsTrue (are_numbers row.now) }
    ensures { result ≡ whole (get_or row.now column (pos 0)) }
{
    if column < row.len() {
        fraction(row[column])
    } else {
        Frac::zero()
    }
}

// The multiples of the rows at a column.
fn row_sum(system: &System, rows: &[Frac], column: usize) -> Result<Frac, Wide<Frac>>
    requires { length rows.now ≡ length system.now.template }
    ensures { let entries = row_column (equations_of system.now) column in
        SumAnswers (total zero_ℚ rows.now entries) (products zero_ℚ rows.now entries) result }
{
    let template = system.template.as_slice();
    let mut sum = Frac::zero();
    for (r, multiplier) in rows.iter().enumerate() {
        sum = add_multiple(sum, *multiplier, row_entry(template[r].as_slice(), column))?;
    }
    Ok(sum)
}

// The sum with the multiples of the guards at a column added to it.
fn guard_sum(
    start: Frac,
    paths: &Paths,
    edge: u32,
    guards: &[Frac],
    column: usize,
) -> Result<Frac, Wide<Frac>>
    requires edge { edge < length paths.now }
    requires guards { (forms : EdgeForms) → slice_get paths.now edge ≡ Some forms → length guards.now ≡ length forms.guards }
    ensures { (forms : EdgeForms) → slice_get paths.now edge ≡ Some forms →
        let entries = dense_column column forms.guards in SumAnswers (total start guards.now entries) (products start guards.now entries)
        result }
{
    let mut sum = start;
    for g in 0..paths.guards(edge) {
        let entry = coefficient(paths.guard(edge, g).coeffs.as_slice(), column);
        sum = add_multiple(sum, guards[g as usize], entry)?;
    }
    Ok(sum)
}

/// The entry of a combination at a column, which is a start variable's or a free value's.
pub fn column_sum(
    system: &System,
    paths: &Paths,
    edge: u32,
    rows: &[Frac],
    guards: &[Frac],
    column: usize,
) -> Result<Frac, Wide<Frac>>
    requires paths { AreComposed (equations_of system.now) paths.now }
    requires edge { edge < length system.now.flow.edges }
    requires rows { length rows.now ≡ length system.now.template }
    requires guards { (e : Edge) → slice_get system.now.flow.edges edge ≡ Some e →
        length guards.now ≡ length (guard_forms (length system.now.flow.names) e.actions) }
    requires column { (e : Edge) → slice_get system.now.flow.edges edge ≡ Some e → column < width (length system.now.flow.names) e.actions }
    ensures { (e : Edge) → slice_get system.now.flow.edges edge ≡ Some e →
        SumAnswers (get_or (combination (equations_of system.now) e rows.now guards.now) column zero_ℚ)
        (column_operations (equations_of system.now) e rows.now guards.now column) result }
{
    let sum = row_sum(system, rows, column)?;
    guard_sum(sum, paths, edge, guards, column)
}

// The number of a bound, and 0 of an infinite one, whose multiplier is 0.
fn finite_part(bound: Ext) -> Frac
    ensures { result ≡ num (extended bound) }
{
    match bound {
        Ext::Fin(number) => number,
        _ => Frac::zero(),
    }
}

// The multiples of the finite bounds at a point.
fn row_side(system: &System, bounds: &Bounds, point: u32, rows: &[Frac]) -> Result<Frac, Wide<Frac>>
    requires bounds { length bounds.now ≡ length system.now.flow.points * length system.now.template }
    requires point { point < length system.now.flow.points }
    requires rows { length rows.now ≡ length system.now.template }
    ensures { (z : Vector) → Stands (equations_of system.now) bounds.now z →
        let numbers = map (λ r. num (z point r)) (range_with_len 0 (length system.now.template)) in
        SumAnswers (total zero_ℚ rows.now numbers) (products zero_ℚ rows.now numbers) result }
{
    let first = point as usize * system.template.as_slice().len();
    let mut sum = Frac::zero();
    for (r, multiplier) in rows.iter().enumerate() {
        let bound = bounds.at((first + r) as u32);
        sum = add_multiple(sum, *multiplier, finite_part(bound))?;
    }
    Ok(sum)
}

// The sum with the multiples of the guards' negated constants added to it.
fn guard_side(start: Frac, paths: &Paths, edge: u32, guards: &[Frac]) -> Result<Frac, Wide<Frac>>
    requires edge { edge < length paths.now }
    requires guards { (forms : EdgeForms) → slice_get paths.now edge ≡ Some forms → length guards.now ≡ length forms.guards }
    ensures { (forms : EdgeForms) → slice_get paths.now edge ≡ Some forms →
        let numbers = negated_constants forms.guards in SumAnswers (total start guards.now numbers) (products start guards.now numbers)
        result }
{
    let mut sum = start;
    for g in 0..paths.guards(edge) {
        let number = paths.guard(edge, g).constant.negate();
        sum = add_multiple(sum, guards[g as usize], number)?;
    }
    Ok(sum)
}

/// The side of a combination.
pub fn side_sum(
    system: &System,
    paths: &Paths,
    bounds: &Bounds,
    edge: u32,
    rows: &[Frac],
    guards: &[Frac],
) -> Result<Frac, Wide<Frac>>
    requires paths { AreComposed (equations_of system.now) paths.now }
    requires bounds { length bounds.now ≡ length system.now.flow.points * length system.now.template }
    requires edge { edge < length system.now.flow.edges }
    requires rows { length rows.now ≡ length system.now.template }
    requires guards { (e : Edge) → slice_get system.now.flow.edges edge ≡ Some e →
        length guards.now ≡ length (guard_forms (length system.now.flow.names) e.actions) }
    ensures { (z : Vector) (e : Edge) → Stands (equations_of system.now) bounds.now z → slice_get system.now.flow.edges edge ≡ Some e →
        SumAnswers (side (equations_of system.now) z e rows.now guards.now)
        (side_operations (equations_of system.now) z e rows.now guards.now) result }
{
    let from = system.flow.edges.as_slice()[edge as usize].from;
    let sum = row_side(system, bounds, from, rows)?;
    guard_side(sum, paths, edge, guards)
}

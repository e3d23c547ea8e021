//! Evidence of upper bounds.

ghost use Rattle.std.specs.Prelude.{◌≡◌, ◌↔◌, ◌*◌, ◌<◌, ◌/◌, ◌%◌, [], ◌∷◌, ◌++◌, ℤ, List, IsTrue, length, slice_get, get_or, Some};
ghost use Rattle.base_numbers.specs.Rational.{zero_ℚ};
ghost use Rattle.base_numbers.specs.Extended.{Ext as Extended, neg_inf};
ghost use Rattle.base_numbers.proofs.rational.Laws.{ℚ_discrete};
ghost use Rattle.flow_edges.specs.declared.edge.Edge.{Edge};
ghost use Rattle.flow_systems.specs.Equations.{Vector};
ghost use Rattle.flow_systems.specs.View.{equations_of};
ghost use Rattle.cert_types.specs.Certificates.{evidence_of};
ghost use Rattle.theory_validity.specs.Certificates.{Evidence, combination, side};
ghost use Rattle.theory_validity.specs.Words.{width, guard_forms};
ghost use Rattle.solve_composition.specs.Composed.{AreComposed};
ghost use Rattle.cert_checker.specs.Events.{Test, Answers, sums, decided};
ghost use Rattle.cert_checker.specs.EvidenceEvents.{column_operations, columns_events, columns_of, combination_events, evidence_events};
ghost use Rattle.cert_checker.specs.Stands.{Stands};

use crate::combination::{coefficient, column_sum, side_sum};
use crate::multipliers::are_multipliers;
use base_fractions::{Ext, Frac, OrderedField, Wide};
use cert_types::Upper;
use flow_systems::{Bounds, System};
use solve_composition::Paths;

// Whether the combination has the goal's entry at a column.
fn column_passes(
    system: &System,
    paths: &Paths,
    edge: u32,
    rows: &[Frac],
    guards: &[Frac],
    goal: &[Frac],
    column: usize,
) -> Result<Option<()>, Wide<Frac>>
    requires paths { AreComposed (equations_of system.now) paths.now }
    requires edge { edge < length system.now.flow.edges }
    requires rows { length rows.now ≡ length system.now.template }
    requires guards { (e : Edge) → slice_get system.now.flow.edges edge ≡ Some e →
        length guards.now ≡ length (guard_forms (length system.now.flow.names) e.actions) }
    requires column { (e : Edge) → slice_get system.now.flow.edges edge ≡ Some e → column < width (length system.now.flow.names) e.actions }
    ensures { (e : Edge) → slice_get system.now.flow.edges edge ≡ Some e →
        Answers (λ u. Unit {0}) (λ site fault. sums site (column_operations (equations_of system.now) e rows.now guards.now column) ++
        Test (decided (ℚ_discrete (get_or (combination (equations_of system.now) e rows.now guards.now) column zero_ℚ)
        (get_or goal.now column zero_ℚ))) fault ∷ []) result }
{
    let sum = column_sum(system, paths, edge, rows, guards, column)?;
    Ok((sum == coefficient(goal, column)).then_some(()))
}

// Whether the combination has the goal's entry at each column: at the start variables and then at the free values.
fn columns_pass(
    system: &System,
    paths: &Paths,
    edge: u32,
    rows: &[Frac],
    guards: &[Frac],
    goal: &[Frac],
) -> Result<Option<()>, Wide<Frac>>
    requires paths { AreComposed (equations_of system.now) paths.now }
    requires edge { edge < length system.now.flow.edges }
    requires rows { length rows.now ≡ length system.now.template }
    requires guards { (e : Edge) → slice_get system.now.flow.edges edge ≡ Some e →
        length guards.now ≡ length (guard_forms (length system.now.flow.names) e.actions) }
    ensures { (e : Edge) → slice_get system.now.flow.edges edge ≡ Some e →
        Answers (λ u. Unit {0}) (λ site fault. columns_events site fault (equations_of system.now) e rows.now guards.now goal.now
        (columns_of (equations_of
        system.now) e)) result }
{
    let width = system.flow.names.as_slice().len() + paths.frees(edge) as usize;
    for column in 0..width {
        if column_passes(system, paths, edge, rows, guards, goal, column)?.is_none() {
            return Ok(None);
        }
    }
    Ok(Some(()))
}

// The side of the combination of rows and guards by these multipliers; `None` where they aren't multipliers, or where the
// combination differs from the goal at a column.
fn combined_side(
    system: &System,
    paths: &Paths,
    bounds: &Bounds,
    edge: u32,
    rows: &[Frac],
    guards: &[Frac],
    goal: &[Frac],
) -> Result<Option<Frac>, Wide<Frac>>
    requires paths { AreComposed (equations_of system.now) paths.now }
    requires bounds { length bounds.now ≡ length system.now.flow.points * length system.now.template }
    requires edge { edge < length system.now.flow.edges }
    ensures { (z : Vector) (e : Edge) → Stands (equations_of system.now) bounds.now z → slice_get system.now.flow.edges edge ≡ Some e →
        Answers (λ value. value ≡ side (equations_of system.now) z e rows.now guards.now)
        (λ site fault. combination_events site fault (equations_of system.now) z e rows.now guards.now goal.now) result }
{
    if !are_multipliers(system, paths, bounds, edge, rows, guards) {
        return Ok(None);
    }
    if columns_pass(system, paths, edge, rows, guards, goal)?.is_none() {
        return Ok(None);
    }
    let value = side_sum(system, paths, bounds, edge, rows, guards)?;
    Ok(Some(value))
}

// Whether multiples of rows and guards are the row's value at the end, and their side shows the unknown's bound.
fn bound_passes(
    system: &System,
    paths: &Paths,
    bounds: &Bounds,
    unknown: u32,
    edge: u32,
    rows: &[Frac],
    guards: &[Frac],
) -> Result<Option<()>, Wide<Frac>>
    requires paths { AreComposed (equations_of system.now) paths.now }
    requires bounds { length bounds.now ≡ length system.now.flow.points * length system.now.template }
    requires unknown { unknown < length bounds.now }
    requires edge { edge < length system.now.flow.edges }
    ensures { (z : Vector) (e : Edge) → Stands (equations_of system.now) bounds.now z → slice_get system.now.flow.edges edge ≡ Some e →
        let p = unknown / length system.now.template in let r = unknown % length system.now.template in
        Answers (λ u. Unit {0}) (λ site fault. evidence_events site fault (equations_of system.now) z e (get_or system.now.template r [])
        (z p r)
        (Evidence.Bound rows.now guards.now)) result }
{
    let limit = match bounds.at(unknown) {
        Ext::Fin(limit) => limit,
        _ => return Ok(None),
    };
    let end = paths.row(edge, unknown % system.template.as_slice().len() as u32);
    let coeffs = end.coeffs.as_slice();
    let Some(value) = combined_side(system, paths, bounds, edge, rows, guards, coeffs)? else {
        return Ok(None);
    };
    let most = value.plus(end.constant)?;
    Ok((most <= limit).then_some(()))
}

// Whether multiples of rows and guards show that nothing runs along the edge.
fn empty_passes(
    system: &System,
    paths: &Paths,
    bounds: &Bounds,
    edge: u32,
    rows: &[Frac],
    guards: &[Frac],
) -> Result<Option<()>, Wide<Frac>>
    requires paths { AreComposed (equations_of system.now) paths.now }
    requires bounds { length bounds.now ≡ length system.now.flow.points * length system.now.template }
    requires edge { edge < length system.now.flow.edges }
    ensures { (z : Vector) (e : Edge) (row : List ℤ) (number : Extended) → Stands (equations_of system.now) bounds.now z →
        slice_get system.now.flow.edges edge ≡ Some e →
        Answers (λ u. Unit {0}) (λ site fault. evidence_events site fault (equations_of system.now) z e row number
        (Evidence.Empty rows.now guards.now))
        result }
{
    let Some(value) = combined_side(system, paths, bounds, edge, rows, guards, &[])? else {
        return Ok(None);
    };
    Ok((value < Frac::zero()).then_some(()))
}

// Whether a row is there and has the bound `-inf` at the source.
fn is_unreached(system: &System, bounds: &Bounds, edge: u32, row: u32) -> bool
    requires bounds { length bounds.now ≡ length system.now.flow.points * length system.now.template }
    requires edge { edge < length system.now.flow.edges }
    ensures { (z : Vector) (e : Edge) → Stands (equations_of system.now) bounds.now z → slice_get system.now.flow.edges edge ≡ Some e →
        IsTrue result ↔ ((row < length system.now.template) × (z e.from row ≡ neg_inf)) }
{
    let count = system.template.as_slice().len();
    if row as usize >= count {
        return false;
    }
    let from = system.flow.edges.as_slice()[edge as usize].from as usize;
    match bounds.at((from * count + row as usize) as u32) {
        Ext::NegInf => true,
        _ => false,
    }
}

/// Whether a piece of evidence shows that an edge leads to at most the bound of an unknown: `None` where a test of it fails
/// (docs/FORMATS.md, "Valid certificates").
///
/// # Errors
///
/// The first operation whose exact result has a part above the limit, exactly where there is one before a test fails. Takes no
/// memory.
pub fn passes(
    system: &System,
    paths: &Paths,
    bounds: &Bounds,
    unknown: u32,
    edge: u32,
    upper: &Upper,
) -> Result<Option<()>, Wide<Frac>>
    requires paths { AreComposed (equations_of system.now) paths.now }
    requires bounds { length bounds.now ≡ length system.now.flow.points * length system.now.template }
    requires unknown { unknown < length bounds.now }
    requires edge { edge < length system.now.flow.edges }
    ensures { (z : Vector) (e : Edge) → Stands (equations_of system.now) bounds.now z → slice_get system.now.flow.edges edge ≡ Some e →
        let p = unknown / length system.now.template in let r = unknown % length system.now.template in
        Answers (λ u. Unit {0}) (λ site fault. evidence_events site fault (equations_of system.now) z e (get_or system.now.template r [])
        (z p r)
        (evidence_of upper.now)) result }
{
    match upper {
        Upper::Bound { rows, guards } => bound_passes(
            system,
            paths,
            bounds,
            unknown,
            edge,
            rows.as_slice(),
            guards.as_slice(),
        ),
        Upper::Empty { rows, guards } => empty_passes(
            system,
            paths,
            bounds,
            edge,
            rows.as_slice(),
            guards.as_slice(),
        ),
        Upper::Unreached { row } => Ok(is_unreached(system, bounds, edge, *row).then_some(())),
    }
}

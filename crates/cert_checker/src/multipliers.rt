//! The multipliers of rows and guards.

ghost use Rattle.std.specs.Prelude.{◌≡◌, ◌↔◌, ◌*◌, ◌<◌, ◌+◌, ℕ, IsTrue, length, slice_get, get_or, Some};
ghost use Rattle.base_numbers.specs.Rational.{zero_ℚ};
ghost use Rattle.base_numbers.specs.Vector.{AllNonneg};
ghost use Rattle.flow_edges.specs.declared.edge.Edge.{Edge};
ghost use Rattle.base_fractions.specs.Extended.{extended};
ghost use Rattle.flow_systems.specs.Equations.{Vector};
ghost use Rattle.flow_systems.specs.View.{equations_of};
ghost use Rattle.theory_validity.specs.Certificates.{Multipliers, NotFinite};
ghost use Rattle.theory_validity.specs.Words.{guard_forms};
ghost use Rattle.solve_composition.specs.Composed.{AreComposed};
ghost use Rattle.cert_checker.specs.Stands.{Stands};

use base_fractions::{Ext, Frac, OrderedField};
use flow_systems::{Bounds, System};
use solve_composition::Paths;

// Whether no multiplier is negative.
fn none_negative(multipliers: &[Frac]) -> bool
    ensures { IsTrue result ↔ AllNonneg multipliers.now }
{
    for multiplier in multipliers {
        if *multiplier < Frac::zero() {
            return false;
        }
    }
    true
}

// Whether a row with this bound may have this multiplier.
fn is_allowed(bound: Ext, multiplier: Frac) -> bool
    ensures { IsTrue result ↔ (NotFinite (extended bound) → multiplier ≡ zero_ℚ) }
{
    match bound {
        Ext::Fin(_) => true,
        _ => multiplier.is_zero(),
    }
}

// Whether the multipliers are 0 on each row whose bound at a point isn't finite.
fn are_allowed(system: &System, bounds: &Bounds, point: u32, rows: &[Frac]) -> bool
    requires bounds { length bounds.now ≡ length system.now.flow.points * length system.now.template }
    requires point { point < length system.now.flow.points }
    requires rows { length rows.now ≡ length system.now.template }
    ensures { (z : Vector) → Stands (equations_of system.now) bounds.now z → IsTrue result ↔ ((r : ℕ) → r < length system.now.template →
        NotFinite (z point r) → get_or rows.now r zero_ℚ ≡ zero_ℚ) }
{
    let first = point as usize * system.template.as_slice().len();
    for (r, multiplier) in rows.iter().enumerate() {
        if !is_allowed(bounds.at((first + r) as u32), *multiplier) {
            return false;
        }
    }
    true
}

/// Whether there is a multiplier for each row and one for each guard of an edge, none is negative, and each row whose bound at
/// the source isn't finite has 0.
pub fn are_multipliers(
    system: &System,
    paths: &Paths,
    bounds: &Bounds,
    edge: u32,
    rows: &[Frac],
    guards: &[Frac],
) -> bool
    requires paths { AreComposed (equations_of system.now) paths.now }
    requires bounds { length bounds.now ≡ length system.now.flow.points * length system.now.template }
    requires edge { edge < length system.now.flow.edges }
    ensures exactly { (z : Vector) (e : Edge) → Stands (equations_of system.now) bounds.now z
        → slice_get system.now.flow.edges edge ≡ Some e →
        IsTrue result ↔ Multipliers (equations_of system.now) z e rows.now guards.now }
    ensures rows { IsTrue result → length rows.now ≡ length system.now.template }
    ensures guards { IsTrue result → (e : Edge) → slice_get system.now.flow.edges edge ≡ Some e →
        length guards.now ≡ length (guard_forms (length system.now.flow.names) e.actions) }
{
    if rows.len() != system.template.as_slice().len() {
        return false;
    }
    if guards.len() != paths.guards(edge) as usize {
        return false;
    }
    if !none_negative(rows) {
        return false;
    }
    if !none_negative(guards) {
        return false;
    }
    let from = system.flow.edges.as_slice()[edge as usize].from;
    are_allowed(system, bounds, from, rows)
}

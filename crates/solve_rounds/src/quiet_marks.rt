//! Unknowns that known transformers show to be quiet before anything is raised.

ghost use Rattle.std.specs.Prelude.{◌≡◌, ◌*◌, ◌/◌, ◌<◌, ℕ, false, true, get_or, length, IfOk, IsTrue};
ghost use Rattle.solve_offers.specs.AtBounds.{EdgesAreThere};
ghost use Rattle.solve_offers.specs.Known.{AreKnown};
ghost use Rattle.solve_rounds.specs.Growing.{EdgesEnd, IsWithin, AreWithin, IsKnownWithin};

use base_fractions::Ext;
use flow_systems::{Bounds, Pick, System};
use solve_offers::{Known, exceeds};
use std::alloc::{AllocError, Global};

// Whether a transformer is known and doesn't exceed the bound.
fn is_known_within(value: Option<Ext>, bound: Ext) -> bool
    ensures { IsTrue result → IsKnownWithin value bound }
{
    match value {
        Some(value) => !exceeds(value, bound),
        None => false,
    }
}

// Whether the transformer of an unknown's picked edge is known and doesn't exceed the unknown's bound.
fn is_quiet(system: &System, bounds: &Bounds, pick: &Pick, known: &Known, unknown: u32) -> bool
    requires bounds { length bounds.now ≡ length system.now.flow.points * length system.now.template }
    requires pick { length pick.now ≡ length system.now.flow.points * length system.now.template }
    requires edges { EdgesAreThere system.now pick.now }
    requires known { AreKnown system.now bounds.now known.now }
    requires unknown { unknown < length system.now.flow.points * length system.now.template }
    ensures { IsTrue result → IsWithin system.now bounds.now pick.now unknown }
{
    let rows = system.template.as_slice().len() as u32;
    match pick.at(unknown) {
        Some(edge) => is_known_within(
            known.value(system, edge, unknown % rows),
            bounds.at(unknown),
        ),
        None => false,
    }
}

// Marks the unknowns of a point whose picked edge's transformer is known and doesn't exceed the bound, and those alone.
fn mark_point(
    system: &System,
    bounds: &Bounds,
    pick: &Pick,
    known: &Known,
    point: u32,
    marks: &mut [bool],
)
    requires bounds { length bounds.now ≡ length system.now.flow.points * length system.now.template }
    requires pick { length pick.now ≡ length system.now.flow.points * length system.now.template }
    requires edges { EdgesAreThere system.now pick.now }
    requires known { AreKnown system.now bounds.now known.now }
    requires point { point < length system.now.flow.points }
    requires marks { length marks.old ≡ length system.now.flow.points * length system.now.template }
    ensures size { length marks.new ≡ length marks.old }
    ensures others { (u : ℕ) → (u / length system.now.template ≡ point → ⊥) → get_or marks.new u false ≡ get_or marks.old u false }
    ensures within { (u : ℕ) → u < length system.now.flow.points * length system.now.template → u / length system.now.template ≡ point
        → get_or marks.new u false ≡ true → IsWithin system.now bounds.now pick.now u }
{
    let rows = system.template.as_slice().len() as u32;
    for row in 0..rows {
        let unknown = point * rows + row;
        marks[unknown as usize] = is_quiet(system, bounds, pick, known, unknown);
    }
}

/// A mark for each unknown, in order of number, only where the transformer of its picked edge doesn't exceed its bound: at settled
/// points, and where it is known.
pub(crate) fn quiet_unknowns(
    alloc: Global,
    system: &System,
    bounds: &Bounds,
    pick: &Pick,
    known: &Known,
) -> Result<Vec<bool>, AllocError>
    requires bounds { length bounds.now ≡ length system.now.flow.points * length system.now.template }
    requires pick { length pick.now ≡ length system.now.flow.points * length system.now.template }
    requires edges { EdgesAreThere system.now pick.now }
    requires ends { EdgesEnd system.now pick.now }
    requires known { AreKnown system.now bounds.now known.now }
    ensures { IfOk result (λ marks. AreWithin system.now bounds.now pick.now marks.items) }
{
    let points = system.flow.points.as_slice().len();
    let mut marks = vec![in alloc; true; points * system.template.as_slice().len()]?;
    for point in 0..points as u32 {
        if !known.is_settled(point) {
            mark_point(system, bounds, pick, known, point, &mut marks);
        }
    }
    Ok(marks)
}

//! Traces and directions that are followed at a vector.

ghost use Rattle.std.specs.Prelude.{◌≡◌, ◌*◌, ◌<◌, ℤ, List, Some, length, slice_get};
ghost use Rattle.flow_edges.specs.declared.edge.Edge.{Edge};
ghost use Rattle.flow_systems.specs.FreeValues.{free_count};
ghost use Rattle.flow_systems.specs.Equations.{Vector};
ghost use Rattle.flow_systems.specs.View.{equations_of};
ghost use Rattle.cert_types.specs.Certificates.{pieces_of};
ghost use Rattle.theory_validity.specs.Steps.{Pieces, Placed, Sized, edge_of, row_of, word};
ghost use Rattle.cert_checker.specs.Events.{Answers};
ghost use Rattle.cert_checker.specs.Following.{shown, shown_events};
ghost use Rattle.cert_checker.specs.Items.{item_at, item_count};
ghost use Rattle.cert_checker.specs.Runs.{FitAnswers};
ghost use Rattle.cert_checker.specs.Stands.{Stands};

use crate::item::{edge_at, unknown_at};
use base_fractions::{Frac, Wide};
use cert_types::Step;
use flow_systems::{Bounds, System, Trace, direction_value, fits, trace_value};

// Whether a state fits a vector at an edge's source.
fn starts(system: &System, bounds: &Bounds, edge: u32, state: &[Frac]) -> Result<bool, Wide<Frac>>
    requires bounds { length bounds.now ≡ length system.now.flow.points * length system.now.template }
    requires edge { edge < length system.now.flow.edges }
    requires state { length state.now ≡ length system.now.flow.names }
    ensures { (z : Vector) (e : Edge) → Stands (equations_of system.now) bounds.now z → slice_get system.now.flow.edges edge ≡ Some e →
        FitAnswers (equations_of system.now) z e.from state.now result }
{
    let from = system.flow.edges.as_slice()[edge as usize].from;
    fits(system, bounds, from, state)
}

/// How a trace is followed: as it runs, or as a direction, with every constant taken as 0.
#[derive(Clone, Copy, Drop)]
pub enum Way {
    Trace,
    Direction,
}

/// The value of a row at the end of a trace that runs along an edge at a vector, or how far the row rises along a direction;
/// `None` where its start doesn't fit or a guard fails.
fn follow(
    system: &System,
    bounds: &Bounds,
    edge: u32,
    row: u32,
    way: Way,
    trace: &Trace,
) -> Result<Option<Frac>, Wide<Frac>>
    requires bounds { length bounds.now ≡ length system.now.flow.points * length system.now.template }
    requires edge { edge < length system.now.flow.edges }
    requires row { row < length system.now.template }
    requires start { length trace.now.start ≡ length system.now.flow.names }
    requires free { (e : Edge) → slice_get system.now.flow.edges edge ≡ Some e → length trace.now.free ≡ free_count e.actions }
    ensures { (z : Vector) (e : Edge) (cs : List ℤ) → Stands (equations_of system.now) bounds.now z
        → slice_get system.now.flow.edges edge ≡ Some e →
        slice_get system.now.template row ≡ Some cs → let t = pieces_of trace.now in
        Answers (λ v. v ≡ shown way (equations_of system.now) e cs (word t))
        (λ site fault. shown_events way site fault (equations_of system.now) z e cs t) result }
{
    if !starts(system, bounds, edge, trace.start.as_slice())? {
        return Ok(None);
    }
    match way {
        Way::Trace => trace_value(system, edge, row, trace),
        Way::Direction => direction_value(system, edge, row, trace),
    }
}

/// What an item's row shows along one of the item's traces.
pub fn follow_item(
    system: &System,
    bounds: &Bounds,
    step: &Step,
    k: usize,
    way: Way,
    trace: &Trace,
) -> Result<Option<Frac>, Wide<Frac>>
    requires item { k < item_count step.now }
    requires placed { Placed (equations_of system.now) (item_at (length system.now.template) step.now k) }
    requires sized { Sized (equations_of system.now) (item_at (length system.now.template) step.now k) (pieces_of trace.now) }
    requires bounds { length bounds.now ≡ length system.now.flow.points * length system.now.template }
    ensures { (z : Vector) (t : Pieces) → Stands (equations_of system.now) bounds.now z → t ≡ pieces_of trace.now →
        let S = equations_of system.now in let item = item_at (length system.now.template) step.now k in
        Answers (λ v. v ≡ shown way S (edge_of S item) (row_of S item) (word t))
        (λ site fault. shown_events way site fault S z (edge_of S item) (row_of S item) t) result }
{
    let row = unknown_at(step, k) % system.template.as_slice().len() as u32;
    follow(system, bounds, edge_at(step, k), row, way, trace)
}

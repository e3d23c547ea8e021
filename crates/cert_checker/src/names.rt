//! Whether an item names an unknown, an edge and traces that are there.

ghost use Rattle.std.specs.Prelude.{◌≡◌, ◌↔◌, ◌<◌, ◌/◌, ◌%◌, ℕ, false, IsTrue, length};
ghost use Rattle.flow_systems.specs.View.{equations_of};
ghost use Rattle.cert_types.specs.Certificates.{pieces_of, step_of};
ghost use Rattle.std.specs.List.{count_by};
ghost use Rattle.flow_systems.specs.Cells.{is_havoc};
ghost use Rattle.theory_validity.specs.Steps.{Item, Placed, Sized, Unnamed};
ghost use Rattle.theory_validity.specs.Faults.{Named, SecondSized};
ghost use Rattle.cert_checker.specs.Items.{item_count, item_at, earlier_items};

use crate::item::{edge_at, low_at, second_at, unknown_at};
use cert_types::Step;
use flow_edges::Action;
use flow_systems::{System, Trace};

// How many free assignments there are.
fn frees(actions: &[Action]) -> usize
    ensures { result ≡ count_by is_havoc actions.now }
{
    actions
        .iter()
        .filter(|action| matches!(action, Action::Havoc { .. }))
        .count()
}

// Whether the unknown is there and not at the entry, and the edge is there and ends at its point.
pub fn is_placed(system: &System, unknown: u32, edge: u32) -> bool
    ensures { (item : Item) → item.point ≡ unknown / length system.now.template → item.row ≡ unknown % length system.now.template
        → item.edge ≡ edge →
        IsTrue result ↔ Placed (equations_of system.now) item }
{
    let rows = system.template.as_slice().len() as u32;
    let points = system.flow.points.as_slice().len() as u32;
    let edges = system.flow.edges.as_slice();
    if unknown < rows {
        return false;
    }
    if unknown >= points * rows {
        return false;
    }
    if edge as usize >= edges.len() {
        return false;
    }
    edges[edge as usize].to == unknown / rows
}

// Whether the trace has a value for each variable and for each free assignment of the edge.
pub fn is_sized(system: &System, edge: u32, trace: &Trace) -> bool
    requires { edge < length system.now.flow.edges }
    ensures { (item : Item) → item.edge ≡ edge → IsTrue result ↔ Sized (equations_of system.now) item (pieces_of trace.now) }
{
    let found = &system.flow.edges.as_slice()[edge as usize];
    trace.start.as_slice().len() == system.flow.names.as_slice().len()
        && trace.free.as_slice().len() == frees(found.actions.as_slice())
}

// Whether an item before this one has its unknown.
fn is_repeated(step: &Step, k: usize) -> bool
    requires { k < item_count step.now }
    ensures { (rows : ℕ) → 0 < rows → result ≡ false ↔ Unnamed (earlier_items (step_of rows step.now).items k)
        (item_at rows step.now k).point (item_at rows step.now k).row }
{
    let unknown = unknown_at(step, k);
    for j in 0..k {
        if unknown_at(step, j) == unknown {
            return true;
        }
    }
    false
}

// Whether an item's second trace, if its kind has one, is sized.
fn is_second_sized(system: &System, step: &Step, k: usize, edge: u32) -> bool
    requires edge { edge < length system.now.flow.edges }
    requires item { k < item_count step.now }
    ensures { (item : Item) → item.edge ≡ edge → item.second ≡ (item_at (length system.now.template) step.now k).second →
        IsTrue result ↔ SecondSized (step_of (length system.now.template) step.now).kind (equations_of system.now) item }
{
    match step {
        Step::Plain(_) => true,
        _ => is_sized(system, edge, second_at(step, k)),
    }
}

/// Whether an item's unknown, edge and lengths are right, and no item before it has its unknown.
pub fn is_named(system: &System, step: &Step, k: usize) -> bool
    requires { k < item_count step.now }
    ensures { let rows = length system.now.template in
        IsTrue result ↔ Named (step_of rows step.now).kind (equations_of system.now) (earlier_items (step_of rows step.now).items k)
        (item_at rows step.now k) }
{
    let edge = edge_at(step, k);
    if !is_placed(system, unknown_at(step, k), edge) {
        return false;
    }
    if is_repeated(step, k) {
        return false;
    }
    if !is_sized(system, edge, low_at(step, k)) {
        return false;
    }
    is_second_sized(system, step, k, edge)
}

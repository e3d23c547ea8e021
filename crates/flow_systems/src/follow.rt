//! The value of a row at the end of a trace or of a direction.

ghost use Rattle.std.specs.Prelude.{◌≡◌, ◌<◌, ◌≤◌, ℤ, List, [], ◌∷◌, IsTrue, length, map, slice_get};
ghost use Rattle.std.specs.List.{list_all};
ghost use Rattle.flow_edges.specs.FlowLimits.{is_action};
ghost use Rattle.flow_edges.specs.declared.edge.Edge.{Edge};
ghost use Rattle.flow_systems.specs.Constants.{linear_action, action_with};
ghost use Rattle.flow_systems.specs.FreeValues.{free_count};
ghost use Rattle.flow_systems.specs.declared.values.TheConstants.{MOST_VALUES};
ghost use Rattle.flow_systems.specs.TraceTests.{TraceAnswers, StepAnswers, FollowAnswers};

use crate::sums::{Constants, form_value, row_value};
use crate::system::System;
use crate::trace::Trace;
use crate::values::Values;
use base_fractions::{Frac, OrderedField, Wide};
use flow_edges::Action;

// Takes one action: how many of the free values to come it took, or that its guard failed.
fn step(
    action: &Action,
    constants: Constants,
    state: &mut Values,
    free: &[Frac],
) -> Result<Option<usize>, Wide<Frac>>
    requires action { IsTrue (is_action MOST_VALUES action.now) }
    requires free { free_count (action.now ∷ []) ≤ length free.now }
    ensures { StepAnswers (action_with constants action.now) state.old free.now state.new result }
{
    match action {
        Action::Guard(form) => {
            let value = form_value(form, constants, state.as_slice())?;
            if value <= Frac::zero() {
                Ok(Some(0))
            } else {
                Ok(None)
            }
        }
        Action::Assign { var, form } => {
            let value = form_value(form, constants, state.as_slice())?;
            state.put(*var as usize, value);
            Ok(Some(0))
        }
        Action::Havoc { var } => {
            state.put(*var as usize, free[0]);
            Ok(Some(1))
        }
        Action::Check(_) => Ok(Some(0)),
    }
}

// Takes all actions in order: whether no guard failed.
fn follow(
    actions: &[Action],
    constants: Constants,
    state: &mut Values,
    free: &[Frac],
) -> Result<bool, Wide<Frac>>
    requires actions { IsTrue (list_all (is_action MOST_VALUES) actions.now) }
    requires free { length free.now ≡ free_count actions.now }
    ensures { FollowAnswers (map (action_with constants) actions.now) state.old free.now state.new result }
{
    let mut taken = 0;
    for action in actions {
        match step(action, constants, state, &free[taken..])? {
            Some(count) => taken += count,
            None => return Ok(false),
        }
    }
    Ok(true)
}

// The row's value at the end of the edge, along which the state goes.
fn value_from(
    system: &System,
    edge: u32,
    row: u32,
    constants: Constants,
    state: &mut Values,
    free: &[Frac],
) -> Result<Option<Frac>, Wide<Frac>>
    requires edge { edge < length system.now.flow.edges }
    requires row { row < length system.now.template }
    requires free { (e : Edge) → slice_get system.now.flow.edges edge ≡ Some e → length free.now ≡ free_count e.actions }
    ensures { (e : Edge) (cs : List ℤ) → slice_get system.now.flow.edges edge ≡ Some e → slice_get system.now.template row ≡ Some cs →
        TraceAnswers (map (action_with constants) e.actions) state.old free.now cs result }
{
    let edges = system.flow.edges.as_slice();
    let rows = system.template.as_slice();
    if !follow(
        edges[edge as usize].actions.as_slice(),
        constants,
        state,
        free,
    )? {
        return Ok(None);
    }
    let value = row_value(rows[row as usize].as_slice(), state.as_slice())?;
    Ok(Some(value))
}

// The row's value at the end of the edge, along which a trace or a direction goes.
fn value_along(
    system: &System,
    edge: u32,
    row: u32,
    constants: Constants,
    trace: &Trace,
) -> Result<Option<Frac>, Wide<Frac>>
    requires edge { edge < length system.now.flow.edges }
    requires row { row < length system.now.template }
    requires start { length trace.now.start ≡ length system.now.flow.names }
    requires free { (e : Edge) → slice_get system.now.flow.edges edge ≡ Some e → length trace.now.free ≡ free_count e.actions }
    ensures { (e : Edge) (cs : List ℤ) → slice_get system.now.flow.edges edge ≡ Some e → slice_get system.now.template row ≡ Some cs →
        TraceAnswers (map (action_with constants) e.actions) trace.now.start trace.now.free cs result }
{
    let mut state = Values::new(trace.start.as_slice());
    value_from(
        system,
        edge,
        row,
        constants,
        &mut state,
        trace.free.as_slice(),
    )
}

/// The value of a row at the end of the trace along an edge; `None` where a guard fails. The trace has one start value for
/// each variable, and one value for each free assignment of the edge.
///
/// Actions are taken in order, each guard is tested where it stands, and the row comes last. A form or a row is summed from
/// the left, starting with 0: each product has the coefficient on its left and is then added, and the constant of a form is
/// added last.
///
/// # Errors
///
/// The first operation whose exact result has a part above the limit, exactly where there is one before a guard fails.
/// Takes no memory.
pub fn trace_value(
    system: &System,
    edge: u32,
    row: u32,
    trace: &Trace,
) -> Result<Option<Frac>, Wide<Frac>>
    requires edge { edge < length system.now.flow.edges }
    requires row { row < length system.now.template }
    requires start { length trace.now.start ≡ length system.now.flow.names }
    requires free { (e : Edge) → slice_get system.now.flow.edges edge ≡ Some e → length trace.now.free ≡ free_count e.actions }
    ensures { (e : Edge) (cs : List ℤ) → slice_get system.now.flow.edges edge ≡ Some e → slice_get system.now.template row ≡ Some cs →
        TraceAnswers e.actions trace.now.start trace.now.free cs result }
{
    value_along(system, edge, row, Constants::Kept, trace)
}

/// How far a row rises along a direction: its value at the end of the edge, with every constant taken as 0; `None` where a
/// guard rises. The direction has one rate for each variable, and one for each free assignment of the edge.
///
/// Actions are taken, and forms and the row summed, as for a trace; the constant 0 is added, too.
///
/// # Errors
///
/// The first operation whose exact result has a part above the limit, exactly where there is one before a guard rises.
/// Takes no memory.
pub fn direction_value(
    system: &System,
    edge: u32,
    row: u32,
    direction: &Trace,
) -> Result<Option<Frac>, Wide<Frac>>
    requires edge { edge < length system.now.flow.edges }
    requires row { row < length system.now.template }
    requires start { length direction.now.start ≡ length system.now.flow.names }
    requires free { (e : Edge) → slice_get system.now.flow.edges edge ≡ Some e → length direction.now.free ≡ free_count e.actions }
    ensures { (e : Edge) (cs : List ℤ) → slice_get system.now.flow.edges edge ≡ Some e → slice_get system.now.template row ≡ Some cs →
        TraceAnswers (map linear_action e.actions) direction.now.start direction.now.free cs result }
{
    value_along(system, edge, row, Constants::Zero, direction)
}

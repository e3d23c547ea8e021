//! Values that are carried along an edge, whatever its guards say.

ghost use Rattle.std.specs.Prelude.{◌≡◌, ◌<◌, ◌≤◌, ℤ, List, [], ◌∷◌, IsTrue, length, slice_get};
ghost use Rattle.std.specs.List.{list_all};
ghost use Rattle.flow_edges.specs.FlowLimits.{is_action};
ghost use Rattle.flow_edges.specs.declared.edge.Edge.{Edge};
ghost use Rattle.flow_systems.specs.FreeValues.{free_count};
ghost use Rattle.flow_systems.specs.Sums.{SumAnswers};
ghost use Rattle.flow_systems.specs.View.{equations_of};
ghost use Rattle.flow_systems.specs.declared.values.TheConstants.{MOST_VALUES};
ghost use Rattle.solve_raise.specs.Moves.{carried as value_of, carried_operations, trace_of};
ghost use Rattle.solve_raise.specs.Carries.{StepAnswers, FollowAnswers};

use base_fractions::{Frac, Wide};
use flow_edges::Action;
use flow_systems::{Constants, System, Trace, Values, form_value, row_value};

// Takes one action: how many of the free values to come it took.
fn step(
    action: &Action,
    constants: Constants,
    state: &mut Values,
    free: &[Frac],
) -> Result<usize, Wide<Frac>>
    requires action { IsTrue (is_action MOST_VALUES action.now) }
    requires free { free_count (action.now ∷ []) ≤ length free.now }
    ensures { StepAnswers constants action.now state.old free.now state.new result }
{
    match action {
        Action::Guard(_) => Ok(0),
        Action::Assign { var, form } => {
            let value = form_value(form, constants, state.as_slice())?;
            state.put(*var as usize, value);
            Ok(0)
        }
        Action::Havoc { var } => {
            state.put(*var as usize, free[0]);
            Ok(1)
        }
        Action::Check(_) => Ok(0),
    }
}

// Takes all actions in order.
fn follow(
    actions: &[Action],
    constants: Constants,
    state: &mut Values,
    free: &[Frac],
) -> Result<(), Wide<Frac>>
    requires actions { IsTrue (list_all (is_action MOST_VALUES) actions.now) }
    requires free { length free.now ≡ free_count actions.now }
    ensures { FollowAnswers constants actions.now state.old free.now state.new result }
{
    let mut taken = 0;
    for action in actions {
        taken += step(action, constants, state, &free[taken..])?;
    }
    Ok(())
}

// The row's value at the end of the edge's actions, which start in the state.
fn carried_from(
    system: &System,
    edge: u32,
    row: u32,
    constants: Constants,
    state: &mut Values,
    free: &[Frac],
) -> Result<Frac, Wide<Frac>>
    requires edge { edge < length system.now.flow.edges }
    requires row { row < length system.now.template }
    requires start { length state.old ≡ length system.now.flow.names }
    requires free { (e : Edge) → slice_get system.now.flow.edges edge ≡ Some e → length free.now ≡ free_count e.actions }
    ensures { (e : Edge) (cs : List ℤ) → slice_get system.now.flow.edges edge ≡ Some e → slice_get system.now.template row ≡ Some cs →
        SumAnswers (value_of constants (equations_of system.now) e cs (trace_of state.old free.now))
        (carried_operations constants e cs (trace_of state.old free.now)) result }
{
    let edges = system.flow.edges.as_slice();
    let rows = system.template.as_slice();
    follow(
        edges[edge as usize].actions.as_slice(),
        constants,
        state,
        free,
    )?;
    row_value(rows[row as usize].as_slice(), state.as_slice())
}

/// The value of a row at the end of a trace along an edge, or with every constant taken as 0 the rate at which it rises along
/// a direction; the guards aren't looked at. The trace has one start value for each variable, and one value for each free
/// assignment of the edge.
///
/// Assignments are taken in order, and the row comes last. A form or a row is summed from the left, starting with 0: each
/// product has the coefficient on its left and is then added, and the constant of a form is added last.
///
/// # Errors
///
/// The first operation whose exact result has a part above the limit, exactly where there is one. Takes no memory.
pub fn carried(
    system: &System,
    edge: u32,
    row: u32,
    constants: Constants,
    trace: &Trace,
) -> Result<Frac, Wide<Frac>>
    requires edge { edge < length system.now.flow.edges }
    requires row { row < length system.now.template }
    requires start { length trace.now.start ≡ length system.now.flow.names }
    requires free { (e : Edge) → slice_get system.now.flow.edges edge ≡ Some e → length trace.now.free ≡ free_count e.actions }
    ensures { (e : Edge) (cs : List ℤ) → slice_get system.now.flow.edges edge ≡ Some e → slice_get system.now.template row ≡ Some cs →
        SumAnswers (value_of constants (equations_of system.now) e cs trace.now) (carried_operations constants e cs trace.now) result }
{
    let mut state = Values::new(trace.start.as_slice());
    carried_from(
        system,
        edge,
        row,
        constants,
        &mut state,
        trace.free.as_slice(),
    )
}

//! What bounds say of a condition at a place.

ghost use Rattle.std.specs.Prelude.{◌+◌, ◌≡◌, ◌↔◌, ◌<◌, ◌≤◌, IfOk, IfErr, OnOk, IsTrue, MatchOption, length};
ghost use Rattle.std.specs.List.{list_all};
ghost use Rattle.lang_tree.specs.Limits.{is_form};
ghost use Rattle.flow_edges.specs.FlowLimits.{is_action};
ghost use Rattle.flow_systems.specs.View.{equations_of, vector_at, IsVectorOf};
ghost use Rattle.lp_simplex.specs.Operations.{capped};
ghost use Rattle.ask_verdicts.specs.Breaking.{NoneBreaks, NoneOpen, is_case};
ghost use Rattle.ask_verdicts.specs.Verdicts.{FitsFor, AllFit, IsBreaking, SaysOpen, IsFaultFor, IsFirstFault};
ghost use Rattle.flow_edges.specs.declared.limits.TheConstants.{MOST_ACTIONS};
ghost use Rattle.lang_tree.specs.declared.limits.TheConstants.{MOST_HIDDEN};

use crate::outcome::{Verdict, VerdictFault};
use flow_edges::{Action, Case};
use flow_systems::{Bounds, Fracs, PartFault, System};
use lang_tree::Form;
use solve_transformer::placed_value;
use std::alloc::Global;

/// The number of an item in a list, as faults give it: one above 4,294,967,295 as this greatest one.
pub fn capped(number: usize) -> u32
    ensures { result ≡ capped number }
{
    if number < 4294967295 {
        number as u32
    } else {
        4294967295
    }
}

// A state that breaks a case, if there is one.
fn breaking_state(
    alloc: Global,
    system: &System,
    bounds: &Bounds,
    point: u32,
    before: &[Action],
    case: &[Form],
) -> Result<Option<Fracs>, PartFault>
    requires bounds { IsVectorOf system.now bounds.now }
    requires point { point < length system.now.flow.points }
    requires few { length before.now ≤ MOST_ACTIONS }
    requires actions { IsTrue (list_all (is_action (length system.now.flow.names + MOST_HIDDEN)) before.now) }
    requires case { IsTrue (is_case (length system.now.flow.names + MOST_HIDDEN) case.now) }
    ensures state { IfOk result (λ found. MatchOption found
        (NoneBreaks (equations_of system.now) (vector_at system.now bounds.now) point before.now case.now)
        (IsBreaking (equations_of system.now) (vector_at system.now bounds.now) point before.now case.now)) }
    ensures fits { OnOk result (FitsFor (equations_of system.now) (vector_at system.now bounds.now) point before.now case.now) }
    ensures refused { IfErr result (IsFaultFor (equations_of system.now) (vector_at system.now bounds.now) point before.now case.now) }
{
    let answer = placed_value(alloc, system, bounds, point, before, case)?;
    Ok(answer.state)
}

/// The verdict of bounds on a condition at a place, which is behind actions from a point: `Proved` where a bound at the point is
/// `-inf`, or where for each case against the condition the linear problem of the case is empty (docs/FORMATS.md,
/// "Verdicts"). Its columns are the variables at the point and the free values of the actions, each split into a positive and a
/// negative one; its rows are the template rows with a finite bound at the point, then the guards of the actions and then those of
/// the case, with the negated constant as side; its goal is 0. The first problem that isn't empty gives `Open`, with the
/// state at the place to which the point of its last dictionary leads.
///
/// # Errors
///
/// `Wide` exactly where an operation for a case is too wide for a fraction and no case before is open, with the first such
/// operation.
pub fn verdict(
    alloc: Global,
    system: &System,
    bounds: &Bounds,
    point: u32,
    before: &[Action],
    against: &[Case],
) -> Result<Verdict, VerdictFault>
    requires bounds { IsVectorOf system.now bounds.now }
    requires point { point < length system.now.flow.points }
    requires few { length before.now ≤ MOST_ACTIONS }
    requires actions { IsTrue (list_all (is_action (length system.now.flow.names + MOST_HIDDEN)) before.now) }
    requires against { IsTrue (list_all (is_case (length system.now.flow.names + MOST_HIDDEN)) against.now) }
    ensures proved { IfOk result (λ v. (v ≡ Verdict.Proved) ↔
        NoneOpen (equations_of system.now) (vector_at system.now bounds.now) point before.now against.now (length against.now)) }
    ensures state { IfOk result (SaysOpen (equations_of system.now) (vector_at system.now bounds.now) point before.now against.now) }
    ensures fits { OnOk result (AllFit (equations_of system.now) (vector_at system.now bounds.now) point before.now against.now) }
    ensures refused { IfErr result (IsFirstFault (equations_of system.now) (vector_at system.now bounds.now) point before.now
        against.now) }
{
    for (number, case) in against.iter().enumerate() {
        match breaking_state(alloc, system, bounds, point, before, case.as_slice()) {
            Ok(None) => {}
            Ok(Some(state)) => return Ok(Verdict::Open { state }),
            Err(PartFault::Wide { part, wide }) => {
                return Err(VerdictFault::Wide {
                    case: capped(number),
                    part,
                    wide,
                });
            }
            Err(PartFault::NoMemory) => return Err(VerdictFault::NoMemory),
        }
    }
    Ok(Verdict::Proved)
}

//! What bounds say of a check.

ghost use Rattle.std.specs.Prelude.{◌+◌, ◌≡◌, ◌↔◌, ◌<◌, ◌≤◌, IfOk, IfErr, OnOk, IsTrue, length};
ghost use Rattle.std.specs.List.{list_all};
ghost use Rattle.flow_edges.specs.FlowLimits.{is_action};
ghost use Rattle.flow_systems.specs.View.{equations_of, vector_at, IsVectorOf};
ghost use Rattle.ask_verdicts.specs.Breaking.{is_case};
ghost use Rattle.ask_checks.specs.Verdicts.{NoneOn, SaysOpen, SaysOpenOn, FitsOn, FaultOn, CheckFits, IsCheckFault, IsCheckVerdict};
ghost use Rattle.flow_edges.specs.declared.limits.TheConstants.{MOST_ACTIONS};
ghost use Rattle.lang_tree.specs.declared.limits.TheConstants.{MOST_HIDDEN};

use crate::outcome::CheckFault;
use ask_verdicts::{Verdict, VerdictFault, capped, verdict};
use flow_edges::{Action, CheckCases, Edge};
use flow_systems::{Bounds, System};
use lang_tree::Check;
use std::alloc::Global;

// Whether an action is a check.
fn is_check(action: &Action, check: Check) -> bool
    ensures { IsTrue result ↔ (action.now ≡ Action.Check check) }
{
    match action {
        Action::Check(other) => *other == check,
        _ => false,
    }
}

// What bounds say of a check where it stands on an edge.
fn edge_verdict(
    alloc: Global,
    system: &System,
    bounds: &Bounds,
    edge: &Edge,
    check: &CheckCases,
) -> Result<Verdict, VerdictFault>
    requires bounds { IsVectorOf system.now bounds.now }
    requires point { edge.now.from < length system.now.flow.points }
    requires few { length edge.now.actions ≤ MOST_ACTIONS }
    requires actions { IsTrue (list_all (is_action (length system.now.flow.names + MOST_HIDDEN)) edge.now.actions) }
    requires against { IsTrue (list_all (is_case (length system.now.flow.names + MOST_HIDDEN)) check.now.against) }
    ensures proved { IfOk result (λ v. (v ≡ Verdict.Proved) ↔
        NoneOn (equations_of system.now) (vector_at system.now bounds.now) check.now edge.now) }
    ensures state { IfOk result (SaysOpenOn (equations_of system.now) (vector_at system.now bounds.now) check.now edge.now) }
    ensures fits { OnOk result (FitsOn (equations_of system.now) (vector_at system.now bounds.now) check.now edge.now) }
    ensures refused { IfErr result (FaultOn (equations_of system.now) (vector_at system.now bounds.now) check.now edge.now) }
{
    let actions = edge.actions.as_slice();
    let against = check.against.as_slice();
    for (place, action) in actions.iter().enumerate() {
        if is_check(action, check.check) {
            match verdict(alloc, system, bounds, edge.from, &actions[..place], against)? {
                Verdict::Proved => {}
                Verdict::Open { state } => return Ok(Verdict::Open { state }),
            }
        }
    }
    Ok(Verdict::Proved)
}

// What bounds say of a check, by its places in order of the edges.
pub fn check_verdict(
    alloc: Global,
    system: &System,
    bounds: &Bounds,
    check: &CheckCases,
) -> Result<Verdict, CheckFault>
    requires bounds { IsVectorOf system.now bounds.now }
    requires against { IsTrue (list_all (is_case (length system.now.flow.names + MOST_HIDDEN)) check.now.against) }
    ensures verdict { IfOk result (IsCheckVerdict (equations_of system.now) (vector_at system.now bounds.now) check.now) }
    ensures fits { OnOk result (CheckFits (equations_of system.now) (vector_at system.now bounds.now) check.now) }
    ensures refused { IfErr result (IsCheckFault (equations_of system.now) (vector_at system.now bounds.now) check.now) }
{
    for (number, edge) in system.flow.edges.as_slice().iter().enumerate() {
        match edge_verdict(alloc, system, bounds, edge, check) {
            Ok(Verdict::Proved) => {}
            Ok(Verdict::Open { state }) => return Ok(Verdict::Open { state }),
            Err(VerdictFault::Wide { case, part, wide }) => {
                return Err(CheckFault::Wide {
                    edge: capped(number),
                    case,
                    part,
                    wide,
                });
            }
            Err(VerdictFault::NoMemory) => return Err(CheckFault::NoMemory),
        }
    }
    Ok(Verdict::Proved)
}

//! How many edges a transition system has, counted before they are made.

ghost use Rattle.std.specs.Prelude.{◌≡◌, ◌⊎◌, ◌≤◌, true, false, None, Some, IfOk, IfErr, IsTrue, length, min, sum_by};
ghost use Rattle.lang_tree.specs.View.{statement_of, statements_of};
ghost use Rattle.flow_edges.specs.Constants.{has_rooms, have_rooms};
ghost use Rattle.flow_transitions.specs.Choices.{choices_in, choices_of};
ghost use Rattle.flow_transitions.specs.AutoFaults.{cases_fault, has_wide, is_wide_act};
ghost use Rattle.flow_transitions.specs.Counted.{have_room_along, way_count};

use crate::auto_edge::AutoEdge;
use crate::fault::AutoFault;
use crate::limits::MOST_EDGES;
use flow_edges::{CasesFault, cases};
use lang_tree::Stmt;
use std::alloc::Global;

/// Where counting stops.
pub(crate) const ENOUGH: u32 = MOST_EDGES + 1;

/// The number of an act's choices.
pub(crate) fn choice_count(alloc: Global, act: &Stmt) -> Result<u32, CasesFault>
    requires { IsTrue (has_rooms (statement_of act.now)) }
    ensures count { IfOk result (λ n. n ≡ length (choices_of (statement_of act.now))) }
    ensures few { IfOk result (λ n. n ≤ 64) }
    ensures narrow { IfOk result (λ _. is_wide_act (statement_of act.now) ≡ false) }
    ensures wide { IfErr result (λ fault. (fault ≡ CasesFault.NoMemory)
        ⊎ ((fault ≡ CasesFault.TooMany) × (is_wide_act (statement_of act.now) ≡ true))) }
{
    match act {
        Stmt::Set { .. } | Stmt::Havoc { .. } => Ok(1),
        Stmt::Assume { cond, .. } => {
            let list = cases(alloc, cond, true)?;
            Ok(list.as_slice().len() as u32)
        }
        _ => Ok(0),
    }
}

/// The number of choices along acts, counted up to `ENOUGH`.
pub(crate) fn way_count(alloc: Global, acts: &[Stmt]) -> Result<u32, CasesFault>
    requires { IsTrue (have_rooms (statements_of acts.now)) }
    ensures count { IfOk result (λ n. n ≡ min (length (choices_in (statements_of acts.now))) ENOUGH) }
    ensures narrow { IfOk result (λ _. has_wide (statements_of acts.now) ≡ false) }
    ensures wide { IfErr result (λ fault. (fault ≡ CasesFault.NoMemory)
        ⊎ ((fault ≡ CasesFault.TooMany) × (has_wide (statements_of acts.now) ≡ true))) }
{
    let mut count = 1;
    for act in acts {
        count = (count * choice_count(alloc, act)?).min(ENOUGH);
    }
    Ok(count)
}

/// The number of choices along an edge of the text, counted up to `ENOUGH`, or the fault that it has an assumption with too many cases.
fn ways_along(alloc: Global, edge: &AutoEdge) -> Result<u32, AutoFault>
    requires { IsTrue (have_rooms edge.now.acts) }
    ensures count { IfOk result (λ n. n ≡ min (way_count edge.now) ENOUGH) }
    ensures narrow { IfOk result (λ _. has_wide edge.now.acts ≡ false) }
    ensures wide { IfErr result (λ fault. (fault ≡ AutoFault.NoMemory)
        ⊎ ((fault ≡ AutoFault.Cases edge.now.at) × (has_wide edge.now.acts ≡ true))) }
{
    match way_count(alloc, edge.acts.as_slice()) {
        Ok(count) => Ok(count),
        Err(CasesFault::TooMany) => Err(AutoFault::Cases { at: edge.at }),
        Err(CasesFault::NoMemory) => Err(AutoFault::NoMemory),
    }
}

/// The number of all edges, counted up to `ENOUGH`, or the first edge of the text that has an assumption with too many cases.
pub(crate) fn edge_count(alloc: Global, edges: &[AutoEdge]) -> Result<u32, AutoFault>
    requires { IsTrue (have_room_along edges.now) }
    ensures count { IfOk result (λ n. n ≡ min (sum_by way_count edges.now) ENOUGH) }
    ensures narrow { IfOk result (λ _. cases_fault edges.now ≡ None) }
    ensures wide { IfErr result (λ fault. (fault ≡ AutoFault.NoMemory) ⊎ (cases_fault edges.now ≡ Some fault)) }
{
    let mut count = 0;
    for edge in edges {
        count = (count + ways_along(alloc, edge)?).min(ENOUGH);
    }
    Ok(count)
}

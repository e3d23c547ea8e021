//! How many guards and how many free values an edge has.

ghost use Rattle.std.specs.Prelude.{◌≡◌, ◌<◌, length};
ghost use Rattle.std.specs.List.{count_by};
ghost use Rattle.flow_systems.specs.Cells.{guard_count, is_havoc};
ghost use Rattle.flow_systems.specs.View.{equations_of};
ghost use Rattle.cert_checker.specs.Needs.{edge_of};
ghost use Rattle.cert_fitted.specs.Needed.{frees_at};

use flow_edges::Action;
use flow_systems::System;

// How many free assignments there are.
fn frees(actions: &[Action]) -> usize
    ensures { result ≡ count_by is_havoc actions.now }
{
    actions
        .iter()
        .filter(|action| matches!(action, Action::Havoc { .. }))
        .count()
}

// How many guards there are.
fn guards(actions: &[Action]) -> usize
    ensures { result ≡ guard_count actions.now }
{
    actions
        .iter()
        .filter(|action| matches!(action, Action::Guard { .. }))
        .count()
}

/// How many free values the edge of a number has, and none where there is no such edge.
pub(crate) fn frees_at(system: &System, edge: u32) -> usize
    ensures { result ≡ frees_at (equations_of system.now) edge }
{
    match system.flow.edges.as_slice().get(edge as usize) {
        Some(found) => frees(found.actions.as_slice()),
        None => 0,
    }
}

/// How many guards the edge of a number has.
pub(crate) fn guards_at(system: &System, edge: u32) -> usize
    requires { edge < length system.now.flow.edges }
    ensures { result ≡ guard_count (edge_of system.now.flow.edges edge).actions }
{
    guards(
        system.flow.edges.as_slice()[edge as usize]
            .actions
            .as_slice(),
    )
}

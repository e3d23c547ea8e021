//! How large the joint problems of a system can get.

ghost use Rattle.std.specs.Prelude.{◌≡◌, ◌==◌, ◌+◌, ◌*◌, ◌<◌, ◌≤◌, length};
ghost use Rattle.std.specs.List.{count_by, list_any};
ghost use Rattle.flow_systems.specs.FreeValues.{free_count};
ghost use Rattle.flow_systems.specs.View.{equations_of};
ghost use Rattle.flow_systems.specs.Cells.{is_havoc, guard_count, most, block_cells, most_block_cells, unknown_cells, cells_of};
ghost use Rattle.flow_edges.specs.declared.limits.TheConstants.{MOST_ACTIONS};

use crate::system::System;
use flow_edges::{Action, Edge};

// How many guards there are.
fn guards(actions: &[Action]) -> usize
    ensures { result ≡ guard_count actions.now }
{
    actions
        .iter()
        .filter(|action| matches!(action, Action::Guard(_)))
        .count()
}

// How many free assignments there are.
fn frees(actions: &[Action]) -> usize
    ensures { result ≡ count_by is_havoc actions.now }
{
    actions
        .iter()
        .filter(|action| matches!(action, Action::Havoc { .. }))
        .count()
}

// Whether an edge ends at the point.
fn is_reached(edges: &[Edge], point: u32) -> bool
    ensures { result ≡ list_any (λ e. e.to == point) edges.now }
{
    edges.iter().any(|edge| edge.to == point)
}

// The greatest numbers of guards and of free assignments of an edge into the point.
fn greatest(edges: &[Edge], point: u32) -> (usize, usize)
    ensures guards { result.0 ≡ most guard_count edges.now point }
    ensures frees { result.1 ≡ most free_count edges.now point }
{
    let mut most_guards = 0;
    let mut most_frees = 0;
    for edge in edges {
        if edge.to == point {
            most_guards = most_guards.max(guards(edge.actions.as_slice()));
            most_frees = most_frees.max(frees(edge.actions.as_slice()));
        }
    }
    (most_guards, most_frees)
}

impl System {
    /// How many entries of a joint problem the block of one unknown can have that differ from 0, for an edge of so many guards and free
    /// values.
    ///
    /// Each row of the template at the edge's source has two entries for each variable, one at a rise, and its side. Each guard, and the
    /// unknown's own row, has two for each variable and for each free value, and its side. The unknown's rise has one entry in its own
    /// row and one in the goal.
    pub fn block_cells(&self, guards: u32, frees: u32) -> u64
        requires guards { guards ≤ MOST_ACTIONS }
        requires frees { frees ≤ MOST_ACTIONS }
        ensures cells { result ≡ block_cells (length self.now.template) (length self.now.flow.names) guards frees }
        ensures few { result ≤ most_block_cells }
    {
        let rows = self.template.as_slice().len() as u64;
        let variables = self.flow.names.as_slice().len() as u64;
        let sources = rows * (2 * variables + 2);
        let width = 2 * (variables + frees as u64) + 1;
        sources + (guards as u64 + 1) * width + 2
    }

    // The entries of the unknowns at a point.
    fn point_cells(&self, point: u32) -> u64
        ensures cells { result ≡ length self.now.template * unknown_cells (equations_of self.now) point }
        ensures few { result ≤ length self.now.template * most_block_cells }
    {
        let rows = self.template.as_slice().len() as u64;
        let (guards, frees) = greatest(self.flow.edges.as_slice(), point);
        rows * self.block_cells(guards as u32, frees as u32)
    }

    /// How many entries of a joint problem of the system can differ from 0 at most.
    ///
    /// Each unknown outside the entry at whose point an edge ends has those of a block with as many guards as the most guards of such an
    /// edge, and as many free values as the most free values of such an edge.
    pub fn cells(&self) -> u64
        ensures { result ≡ cells_of (equations_of self.now) }
    {
        let edges = self.flow.edges.as_slice();
        let mut cells = 0;
        for point in 1..self.flow.points.as_slice().len() as u32 {
            if is_reached(edges, point) {
                cells += self.point_cells(point);
            }
        }
        cells
    }
}

//! The edges of a transition system, point by point.

ghost use Rattle.std.specs.Prelude.{◌≡◌, ◌<◌, ◌≤◌, ◌^◌, ◌++◌, IfOk, IsTrue, OnOk, length, map, min, sum_by};
ghost use Rattle.lang_tree.specs.View.{statements_of};
ghost use Rattle.flow_edges.specs.Constants.{have_rooms};
ghost use Rattle.flow_edges.specs.Trails.{kept_edge};
ghost use Rattle.flow_transitions.specs.declared.limits.TheConstants.{MOST_EDGES};
ghost use Rattle.flow_transitions.specs.Choices.{choices_in, edges_along, edges_at, edges_of};
ghost use Rattle.flow_transitions.specs.Counted.{have_room_along, way_count};

use crate::auto_edge::AutoEdge;
use crate::choices::chosen;
use crate::counting::way_count;
use flow_edges::Edge;
use lang_tree::Stmt;
use std::alloc::{AllocError, Global};

/// The edges from so many points, in order, each with at most `KEPT` of its actions.
pub(crate) fn edges_of(
    alloc: Global,
    points: u32,
    edges: &[AutoEdge],
) -> Result<Vec<Edge>, AllocError>
    requires room { IsTrue (have_room_along edges.now) }
    requires few { sum_by way_count edges.now ≤ MOST_EDGES }
    ensures { IfOk result (λ list. list.items ≡ map kept_edge (edges_of points edges.now)) }
{
    let mut list = Vec::new(alloc);
    for point in 0..points {
        add_edges_at(alloc, &mut list, edges, point)?;
    }
    Ok(list)
}

/// Adds the edges from the point, in order of the text.
fn add_edges_at(
    alloc: Global,
    list: &mut Vec<Edge>,
    edges: &[AutoEdge],
    point: u32,
) -> Result<(), AllocError>
    requires room { IsTrue (have_room_along edges.now) }
    requires few { sum_by way_count edges.now ≤ MOST_EDGES }
    ensures { OnOk result (list.new.items ≡ list.old.items ++ map kept_edge (edges_at edges.now point)) }
{
    for edge in edges {
        if edge.from == point {
            add_edges(alloc, list, edge)?;
        }
    }
    Ok(())
}

/// Adds the edges of an edge of the text, one for each choice.
fn add_edges(alloc: Global, list: &mut Vec<Edge>, edge: &AutoEdge) -> Result<(), AllocError>
    requires room { IsTrue (have_rooms edge.now.acts) }
    requires few { way_count edge.now ≤ MOST_EDGES }
    ensures { OnOk result (list.new.items ≡ list.old.items ++ map kept_edge (edges_along edge.now)) }
{
    let acts = edge.acts.as_slice();
    let count = few_ways(alloc, acts)?;
    for number in 0..count {
        list.push(Edge {
            from: edge.from,
            to: edge.to,
            actions: chosen(alloc, acts, count, number)?,
        })?;
    }
    Ok(())
}

/// The number of choices along acts, which is known to be small.
fn few_ways(alloc: Global, acts: &[Stmt]) -> Result<u32, AllocError>
    requires room { IsTrue (have_rooms (statements_of acts.now)) }
    requires few { length (choices_in (statements_of acts.now)) ≤ MOST_EDGES }
    ensures { IfOk result (λ n. n ≡ length (choices_in (statements_of acts.now))) }
{
    match way_count(alloc, acts) {
        Ok(count) => Ok(count),
        Err(_) => Err(AllocError),
    }
}

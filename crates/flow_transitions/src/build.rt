//! From a transition system to its points and edges.

ghost use Rattle.std.specs.Prelude.{◌≡◌, ◌<◌, ◌^◌, ◌⊎◌, IfOk, IfErr, IfSome, None, Some, length, position};
ghost use Rattle.flow_transitions.specs.Choices.{edges_of};
ghost use Rattle.flow_transitions.specs.AutoFaults.{fault_of, is_long};

use crate::auto::Auto;
use crate::counting::edge_count;
use crate::edges::edges_of;
use crate::fault::AutoFault;
use crate::limits::{MOST_ACTIONS, MOST_EDGES};
use crate::points::points_again;
use flow_edges::{Edge, Edges, Flow};
use std::alloc::Global;

/// The points and the edges of a transition system: for each edge of its text one for each choice of a case in which each assumption may be
/// true, the first assumption outermost. Edges are in order of their points, then of the text, then of the choices.
///
/// Where a fault stands the first is answered. The faults `Cases` and `Edges` are seen by counting, before an edge is made.
pub fn flow(alloc: Global, auto: &Auto) -> Result<Flow, AutoFault>
    ensures names { IfOk result (λ flow. flow.names ≡ auto.now.names) }
    ensures points { IfOk result (λ flow. flow.points ≡ auto.now.points) }
    ensures edges { IfOk result (λ flow. flow.edges ≡ edges_of (length auto.now.points) auto.now.edges) }
    ensures within { IfOk result (λ flow. fault_of (length auto.now.points) auto.now.edges ≡ None) }
    ensures fault { IfErr result (λ fault. (fault ≡ AutoFault.NoMemory) ⊎ (fault_of (length auto.now.points) auto.now.edges ≡ Some fault)) }
{
    let count = edge_count(alloc, auto.edges.as_slice())?;
    if count > MOST_EDGES {
        return Err(AutoFault::Edges);
    }
    let points = auto.points.as_slice().len() as u32;
    let edges = edges_of(alloc, points, auto.edges.as_slice())?;
    if let Some(edge) = long_edge(&edges) {
        return Err(AutoFault::Actions { edge });
    }
    let names = auto.names.again(alloc)?;
    let points = points_again(alloc, &auto.points)?;
    Ok(Flow {
        names,
        points,
        edges: Edges::new(edges),
    })
}

/// The number of the first edge that is too long.
fn long_edge(edges: &[Edge]) -> Option<u32>
    requires { length edges.now < 2 ^ 32 }
    ensures { result ≡ position is_long edges.now }
{
    match long_place(edges) {
        Some(edge) => Some(edge as u32),
        None => None,
    }
}

fn long_place(edges: &[Edge]) -> Option<usize>
    ensures place { result ≡ position is_long edges.now }
    ensures inside { IfSome result (λ edge. edge < length edges.now) }
{
    edges.iter().position(|edge| is_long(edge))
}

fn is_long(edge: &Edge) -> bool
    ensures { result ≡ is_long edge.now }
{
    edge.actions.as_slice().len() > MOST_ACTIONS
}

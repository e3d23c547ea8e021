//! Where a walk goes on, given by edges that have been walked already.

ghost use Rattle.std.specs.Prelude.{◌≡◌, ◌++◌, [], ◌∷◌, IfOk, OnOk};
ghost use Rattle.flow_edges.specs.Edges.{arrived};
ghost use Rattle.flow_edges.specs.Trails.{reached, split, walked};

use crate::case::Cases;
use crate::edge::{Edge, Edges};
use crate::trail::Trail;
use std::alloc::{AllocError, Global};

/// Where jumps go on: the edges walked from past the innermost loop, and from the end of its body; and the exit's point.
#[derive(Drop)]
pub(crate) struct JumpEdges {
    pub(crate) broken: Edges,
    pub(crate) continued: Edges,
    pub(crate) exit: u32,
}

/// Where no loop is, a jump leads nowhere but to the exit.
pub(crate) fn no_jumps(alloc: Global, exit: u32) -> JumpEdges
    ensures broken { result.broken ≡ [] }
    ensures continued { result.continued ≡ [] }
    ensures exit { result.exit ≡ exit }
{
    JumpEdges {
        broken: Edges::new(Vec::new(alloc)),
        continued: Edges::new(Vec::new(alloc)),
        exit,
    }
}

/// The one edge that is at the point already.
pub(crate) fn arrival(alloc: Global, point: u32) -> Result<Edges, AllocError>
    ensures { IfOk result (λ edges. walked edges ≡ arrived point) }
{
    only(alloc, Trail::new(alloc, point).end(point))
}

fn only(alloc: Global, edge: Edge) -> Result<Edges, AllocError>
    ensures { IfOk result (λ edges. edges ≡ edge ∷ []) }
{
    let mut list = Vec::new(alloc);
    list.push(edge)?;
    Ok(Edges::new(list))
}

/// Adds the edges that go on from the trail by each of those that have been walked already.
pub(crate) fn go_on(
    alloc: Global,
    edges: &mut Vec<Edge>,
    trail: &Trail,
    next: &[Edge],
) -> Result<(), AllocError>
    ensures { OnOk result (edges.new.items ≡ edges.old.items ++ reached trail.now (walked next.now)) }
{
    for edge in next {
        edges.push(trail.along(alloc, &edge.actions)?.end(edge.to))?;
    }
    Ok(())
}

/// Adds the edges that go on from the trail by each of the cases, and then by each of those that have been walked already.
pub(crate) fn go_on_by_case(
    alloc: Global,
    edges: &mut Vec<Edge>,
    trail: &Trail,
    cases: &Cases,
    next: &[Edge],
) -> Result<(), AllocError>
    ensures { OnOk result (edges.new.items ≡ edges.old.items ++ split trail.now cases.now (walked next.now)) }
{
    for case in cases.as_slice() {
        let longer = trail.after(alloc, case)?;
        go_on(alloc, edges, &longer, next)?;
    }
    Ok(())
}

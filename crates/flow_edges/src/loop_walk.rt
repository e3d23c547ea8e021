//! Edges walked from the head of a loop, and where the jumps in its body go on.

ghost use Rattle.std.specs.Prelude.{◌≡◌, ◌<◌, ◌+◌, ◌^◌, ◌++◌, IfOk, OnOk, IsTrue};
ghost use Rattle.lang_tree.specs.Tree.{do_loop};
ghost use Rattle.lang_tree.specs.View.{condition_of, deeds_of, statements_of};
ghost use Rattle.lang_tree.specs.PointNumbers.{points_in};
ghost use Rattle.flow_edges.specs.Constants.{deeds_room, have_room, have_rooms};
ghost use Rattle.flow_edges.specs.Edges.{end_ways};
ghost use Rattle.flow_edges.specs.Trails.{begun_at, jumps_of, reached, walked, ways_by_turn};

use crate::deed_walk::begun_along;
use crate::edge::{Edge, Edges};
use crate::edge_walk::walk_cases;
use crate::listing::list_cases;
use crate::onward::{JumpEdges, arrival, go_on_by_case};
use lang_tree::{Cond, Deed, Stmt};
use std::alloc::{AllocError, Global};

/// The edges walked from the end of the body of a `do` whose head is this point: to the head again, or past the loop and on
/// by each of those that were walked from there.
pub(crate) fn repeated(
    alloc: Global,
    prelude: &[Deed],
    cond: &Cond,
    head: u32,
    after: &[Edge],
) -> Result<Edges, AllocError>
    requires deeds { IsTrue (deeds_room (deeds_of prelude.now)) }
    requires room { IsTrue (have_room (condition_of cond.now)) }
    ensures { IfOk result (λ edges. edges ≡ reached (begun_at head)
        (end_ways (do_loop (deeds_of prelude.now)) (condition_of cond.now) head (walked after.now))) }
{
    let mut edges = Vec::new(alloc);
    let again = arrival(alloc, head)?;
    let held = list_cases(alloc, cond, true)?;
    let failed = list_cases(alloc, cond, false)?;
    let trails = begun_along(alloc, head, prelude)?;
    for trail in trails.as_slice() {
        go_on_by_case(alloc, &mut edges, trail, &held, again.as_slice())?;
        go_on_by_case(alloc, &mut edges, trail, &failed, after)?;
    }
    Ok(Edges::new(edges))
}

/// Adds the edges from the head of a loop that tests its condition there: into the body, and then past the loop.
pub(crate) fn turn(
    alloc: Global,
    edges: &mut Vec<Edge>,
    prelude: &[Deed],
    cond: &Cond,
    body: &[Stmt],
    head: u32,
    jumps: &JumpEdges,
) -> Result<(), AllocError>
    requires deeds { IsTrue (deeds_room (deeds_of prelude.now)) }
    requires room { IsTrue (have_room (condition_of cond.now)) }
    requires room_inside { IsTrue (have_rooms (statements_of body.now)) }
    requires numbers { head + 1 + points_in (statements_of body.now) < 2 ^ 32 }
    ensures { OnOk result (edges.new.items ≡ edges.old.items ++ reached (begun_at head)
        (ways_by_turn (deeds_of prelude.now) (condition_of cond.now) (statements_of body.now) head (jumps_of jumps.now))) }
{
    let held = list_cases(alloc, cond, true)?;
    let failed = list_cases(alloc, cond, false)?;
    let trails = begun_along(alloc, head, prelude)?;
    for trail in trails.as_slice() {
        let end = jumps.continued.as_slice();
        walk_cases(alloc, edges, trail, &held, body, head + 1, jumps, end)?;
        go_on_by_case(alloc, edges, trail, &failed, jumps.broken.as_slice())?;
    }
    Ok(())
}

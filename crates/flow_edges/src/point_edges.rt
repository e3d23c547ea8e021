//! The edges of a program, point by point.

ghost use Rattle.std.specs.Prelude.{◌≡◌, ◌<◌, ◌+◌, ◌^◌, ◌++◌, OnOk, IfOk, IsTrue};
ghost use Rattle.lang_tree.specs.View.{condition_of, deeds_of, statement_of, statements_of};
ghost use Rattle.lang_tree.specs.PointNumbers.{exit_of, join_of, points_in, points_of};
ghost use Rattle.flow_edges.specs.Constants.{deeds_room, has_rooms, have_room, have_rooms};
ghost use Rattle.flow_edges.specs.Edges.{arrived, ways_in};
ghost use Rattle.flow_edges.specs.Trails.{begun_at, edges_in_loop, edges_in_node, edges_in_nodes, jumps_of, kept_edges, reached, walked};
ghost use Rattle.flow_edges.specs.Trails.{ways_by_turn};

use crate::completion::{complete, completes};
use crate::count::{points_in, points_of, splits};
use crate::deed_walk::changed;
use crate::edge::{Edge, Edges};
use crate::edge_walk::walk;
use crate::loop_walk::{repeated, turn};
use crate::onward::{JumpEdges, arrival, no_jumps};
use crate::trail::Trail;
use lang_tree::{Block, Cond, Deed, Stmt};
use std::alloc::{AllocError, Global};

/// The edges of the program in order, each with at most `KEPT` of its actions. `exit` is the number of the last point.
pub(crate) fn edges_of(alloc: Global, body: &Block, exit: u32) -> Result<Vec<Edge>, AllocError>
    requires room { IsTrue (have_rooms body.now) }
    requires last { exit ≡ exit_of body.now }
    ensures { IfOk result (λ edges. edges.items ≡ kept_edges body.now) }
{
    let mut edges = Vec::new(alloc);
    let jumps = no_jumps(alloc, exit);
    let next = arrival(alloc, exit)?;
    let stmts = body.as_slice();
    walk(
        alloc,
        &mut edges,
        Trail::new(alloc, 0),
        stmts,
        1,
        &jumps,
        next.as_slice(),
    )?;
    add_edges(alloc, &mut edges, stmts, 1, &jumps, next.as_slice())?;
    Ok(edges)
}

/// Adds the edges from the points that the statements and those in them make, in order; none from those after a jump.
///
/// `first` is the number of the first point that the statements make. At their end a way goes on by each edge of `next`,
/// at a jump by those of `jumps`.
#[cycle(edges)]
fn add_edges(
    alloc: Global,
    edges: &mut Vec<Edge>,
    stmts: &[Stmt],
    first: u32,
    jumps: &JumpEdges,
    next: &[Edge],
) -> Result<(), AllocError>
    requires room { IsTrue (have_rooms (statements_of stmts.now)) }
    requires numbers { first + points_in (statements_of stmts.now) < 2 ^ 32 }
    ensures { OnOk result (edges.new.items ≡ edges.old.items
        ++ edges_in_nodes (statements_of stmts.now) first (jumps_of jumps.now) (walked next.now)) }
{
    let Some((stmt, rest)) = stmts.split_first() else {
        return Ok(());
    };
    add_edges_in(alloc, edges, stmt, first, rest, jumps, next)?;
    if completes(stmt) {
        let later = first + points_of(stmt);
        add_edges(alloc, edges, rest, later, jumps, next)
    } else {
        Ok(())
    }
}

/// Adds the edges from the points that the statement and those in it make, where the rest comes after it.
#[cycle(edges)]
fn add_edges_in(
    alloc: Global,
    edges: &mut Vec<Edge>,
    stmt: &Stmt,
    first: u32,
    rest: &[Stmt],
    jumps: &JumpEdges,
    next: &[Edge],
) -> Result<(), AllocError>
    requires room { IsTrue (has_rooms (statement_of stmt.now)) }
    requires room_after { IsTrue (have_rooms (statements_of rest.now)) }
    requires numbers { first + points_of (statement_of stmt.now) + points_in (statements_of rest.now) < 2 ^ 32 }
    ensures { let later = first + points_of (statement_of stmt.now) in
        let jumps = jumps_of jumps.now in
        OnOk result (edges.new.items ≡ edges.old.items
        ++ edges_in_node (statement_of stmt.now) first jumps (ways_in (statements_of rest.now) later jumps (walked next.now))) }
{
    let later = first + points_of(stmt);
    match stmt {
        Stmt::Set { .. }
        | Stmt::Havoc { .. }
        | Stmt::Where { .. }
        | Stmt::Check { .. }
        | Stmt::Break { .. }
        | Stmt::Continue { .. }
        | Stmt::Return { .. } => Ok(()),
        Stmt::Assume { cond, .. } => {
            if splits(cond) {
                let trail = Trail::new(alloc, first);
                walk(alloc, edges, trail, rest, later, jumps, next)
            } else {
                Ok(())
            }
        }
        Stmt::If {
            first: yes,
            second: no,
            ..
        } => {
            let (yes, no) = (yes.as_slice(), no.as_slice());
            let join = first + points_in(yes) + points_in(no);
            add_branches(alloc, edges, yes, no, first, jumps)?;
            if complete(yes) || complete(no) {
                let trail = Trail::new(alloc, join);
                walk(alloc, edges, trail, rest, later, jumps, next)
            } else {
                Ok(())
            }
        }
        Stmt::While { .. } | Stmt::Do { .. } | Stmt::For { .. } => {
            let broken = edges_along(alloc, first, rest, later, jumps, next)?;
            add_loop(alloc, edges, stmt, first, broken, jumps.exit)
        }
        Stmt::Label { .. } => {
            let trail = Trail::new(alloc, first);
            walk(alloc, edges, trail, rest, later, jumps, next)
        }
    }
}

/// Adds the edges from the points that the branches of an `if` make, where both go on to its join.
#[cycle(edges)]
fn add_branches(
    alloc: Global,
    edges: &mut Vec<Edge>,
    yes: &[Stmt],
    no: &[Stmt],
    first: u32,
    jumps: &JumpEdges,
) -> Result<(), AllocError>
    requires yes { IsTrue (have_rooms (statements_of yes.now)) }
    requires no { IsTrue (have_rooms (statements_of no.now)) }
    requires numbers { first + points_in (statements_of yes.now) + points_in (statements_of no.now) + 1 < 2 ^ 32 }
    ensures { let join = arrived (join_of (statements_of yes.now) (statements_of no.now) first) in
        let middle = first + points_in (statements_of yes.now) in
        OnOk result (edges.new.items ≡ edges.old.items
        ++ (edges_in_nodes (statements_of yes.now) first (jumps_of jumps.now) join
        ++ edges_in_nodes (statements_of no.now) middle (jumps_of jumps.now) join)) }
{
    let middle = first + points_in(yes);
    let join = arrival(alloc, middle + points_in(no))?;
    add_edges(alloc, edges, yes, first, jumps, join.as_slice())?;
    add_edges(alloc, edges, no, middle, jumps, join.as_slice())
}

/// Adds the edges from the points that a loop and its body make, where those past it have been walked from its head; none
/// where the statement is no loop.
#[cycle(edges)]
fn add_loop(
    alloc: Global,
    edges: &mut Vec<Edge>,
    stmt: &Stmt,
    head: u32,
    broken: Edges,
    exit: u32,
) -> Result<(), AllocError>
    requires room { IsTrue (has_rooms (statement_of stmt.now)) }
    requires numbers { head + points_of (statement_of stmt.now) < 2 ^ 32 }
    ensures { OnOk result (edges.new.items ≡ edges.old.items ++ edges_in_loop (statement_of stmt.now) head (walked broken)
        (arrived exit)) }
{
    match stmt {
        Stmt::While {
            prelude,
            cond,
            body,
            ..
        } => {
            let continued = arrival(alloc, head)?;
            let jumps = JumpEdges {
                broken,
                continued,
                exit,
            };
            let deeds = prelude.as_slice();
            add_tested_loop(alloc, edges, deeds, cond, body.as_slice(), head, &jumps)
        }
        Stmt::For {
            prelude,
            cond,
            change,
            body,
            ..
        } => {
            let continued = changed(alloc, change.as_slice(), head)?;
            let jumps = JumpEdges {
                broken,
                continued,
                exit,
            };
            let deeds = prelude.as_slice();
            add_tested_loop(alloc, edges, deeds, cond, body.as_slice(), head, &jumps)
        }
        Stmt::Do {
            prelude,
            cond,
            body,
            ..
        } => {
            let deeds = prelude.as_slice();
            let continued = repeated(alloc, deeds, cond, head, broken.as_slice())?;
            let jumps = JumpEdges {
                broken,
                continued,
                exit,
            };
            add_do(alloc, edges, body.as_slice(), head, &jumps)
        }
        Stmt::Set { .. }
        | Stmt::Havoc { .. }
        | Stmt::Assume { .. }
        | Stmt::Where { .. }
        | Stmt::Check { .. }
        | Stmt::If { .. }
        | Stmt::Break { .. }
        | Stmt::Continue { .. }
        | Stmt::Return { .. }
        | Stmt::Label { .. } => Ok(()),
    }
}

/// Adds the edges from the head of a loop that tests its condition there, and from the points of its body.
#[cycle(edges)]
fn add_tested_loop(
    alloc: Global,
    edges: &mut Vec<Edge>,
    prelude: &[Deed],
    cond: &Cond,
    body: &[Stmt],
    head: u32,
    jumps: &JumpEdges,
) -> Result<(), AllocError>
    requires deeds { IsTrue (deeds_room (deeds_of prelude.now)) }
    requires room { IsTrue (have_room (condition_of cond.now)) }
    requires room_inside { IsTrue (have_rooms (statements_of body.now)) }
    requires numbers { head + 1 + points_in (statements_of body.now) < 2 ^ 32 }
    ensures { let ways = ways_by_turn (deeds_of prelude.now) (condition_of cond.now) (statements_of body.now) head (jumps_of jumps.now) in
        OnOk result (edges.new.items ≡ edges.old.items ++ (reached (begun_at head) ways
        ++ edges_in_nodes (statements_of body.now) (head + 1) (jumps_of jumps.now) (walked jumps.now.continued))) }
{
    turn(alloc, edges, prelude, cond, body, head, jumps)?;
    add_edges(
        alloc,
        edges,
        body,
        head + 1,
        jumps,
        jumps.continued.as_slice(),
    )
}

/// Adds the edges from the head of a `do`, and from the points of its body.
#[cycle(edges)]
fn add_do(
    alloc: Global,
    edges: &mut Vec<Edge>,
    body: &[Stmt],
    head: u32,
    jumps: &JumpEdges,
) -> Result<(), AllocError>
    requires room { IsTrue (have_rooms (statements_of body.now)) }
    requires numbers { head + 1 + points_in (statements_of body.now) < 2 ^ 32 }
    ensures { let end = walked jumps.now.continued in
        OnOk result (edges.new.items ≡ edges.old.items
        ++ (reached (begun_at head) (ways_in (statements_of body.now) (head + 1) (jumps_of jumps.now) end)
        ++ edges_in_nodes (statements_of body.now) (head + 1) (jumps_of jumps.now) end)) }
{
    let end = jumps.continued.as_slice();
    let trail = Trail::new(alloc, head);
    walk(alloc, edges, trail, body, head + 1, jumps, end)?;
    add_edges(alloc, edges, body, head + 1, jumps, end)
}

/// The edges from the point along the statements, up to the first point on each way.
fn edges_along(
    alloc: Global,
    point: u32,
    stmts: &[Stmt],
    first: u32,
    jumps: &JumpEdges,
    next: &[Edge],
) -> Result<Edges, AllocError>
    requires room { IsTrue (have_rooms (statements_of stmts.now)) }
    requires numbers { first + points_in (statements_of stmts.now) < 2 ^ 32 }
    ensures { let ways = ways_in (statements_of stmts.now) first (jumps_of jumps.now) (walked next.now) in
        IfOk result (λ edges. edges ≡ reached (begun_at point) ways) }
{
    let mut edges = Vec::new(alloc);
    let trail = Trail::new(alloc, point);
    walk(alloc, &mut edges, trail, stmts, first, jumps, next)?;
    Ok(Edges::new(edges))
}

//! Edges walked along statements, up to the first point on each way.

ghost use Rattle.std.specs.Prelude.{◌≡◌, ◌<◌, ◌+◌, ◌^◌, ◌++◌, [], OnOk, IsTrue};
ghost use Rattle.lang_tree.specs.Tree.{branch};
ghost use Rattle.lang_tree.specs.View.{condition_of, statements_of};
ghost use Rattle.lang_tree.specs.PointNumbers.{points_in};
ghost use Rattle.flow_edges.specs.Constants.{have_room, have_rooms};
ghost use Rattle.flow_edges.specs.Edges.{ways_in, ways_of};
ghost use Rattle.flow_edges.specs.Trails.{jumps_of, reached, split, walked};

use crate::case::Cases;
use crate::count::{points_in, points_of};
use crate::edge::{Action, Edge};
use crate::listing::list_cases;
use crate::onward::{JumpEdges, arrival, go_on, go_on_by_case};
use crate::trail::Trail;
use lang_tree::{Cond, Stmt};
use std::alloc::{AllocError, Global};

/// Adds the edges that go on from the trail along the statements, up to the first point on each way.
///
/// `first` is the number of the first point that the statements make. At their end the trail goes on by each edge of
/// `next`, at a jump by those of `jumps`.
#[cycle(walk)]
pub(crate) fn walk(
    alloc: Global,
    edges: &mut Vec<Edge>,
    trail: Trail,
    stmts: &[Stmt],
    first: u32,
    jumps: &JumpEdges,
    next: &[Edge],
) -> Result<(), AllocError>
    requires room { IsTrue (have_rooms (statements_of stmts.now)) }
    requires numbers { first + points_in (statements_of stmts.now) < 2 ^ 32 }
    ensures { OnOk result (edges.new.items ≡ edges.old.items
        ++ reached trail (ways_in (statements_of stmts.now) first (jumps_of jumps.now) (walked next.now))) }
{
    let Some((stmt, rest)) = stmts.split_first() else {
        return go_on(alloc, edges, &trail, next);
    };
    let later = first + points_of(stmt);
    match stmt {
        Stmt::Set { var, form, .. } => {
            let mut longer = trail;
            longer.add(Action::Assign {
                var: *var,
                form: form.again()?,
            })?;
            walk(alloc, edges, longer, rest, later, jumps, next)
        }
        Stmt::Havoc { var, .. } => {
            let mut longer = trail;
            longer.add(Action::Havoc { var: *var })?;
            walk(alloc, edges, longer, rest, later, jumps, next)
        }
        Stmt::Check { check, .. } => {
            let mut longer = trail;
            longer.add(Action::Check(*check))?;
            walk(alloc, edges, longer, rest, later, jumps, next)
        }
        Stmt::Where { cond, .. } => {
            let allowed = list_cases(alloc, cond, true)?;
            walk_cases(alloc, edges, &trail, &allowed, rest, later, jumps, next)
        }
        Stmt::Assume { cond, .. } => {
            let cases = list_cases(alloc, cond, true)?;
            if cases.as_slice().len() > 1 {
                let point = arrival(alloc, first)?;
                go_on_by_case(alloc, edges, &trail, &cases, point.as_slice())
            } else {
                walk_cases(alloc, edges, &trail, &cases, rest, later, jumps, next)
            }
        }
        Stmt::If {
            cond,
            first: yes,
            second: no,
            ..
        } => {
            let (yes, no) = (yes.as_slice(), no.as_slice());
            walk_branches(alloc, edges, &trail, cond, yes, no, first, jumps)
        }
        Stmt::While { .. } | Stmt::Do { .. } | Stmt::For { .. } | Stmt::Label { .. } => {
            edges.push(trail.end(first))?;
            Ok(())
        }
        Stmt::Break { .. } => go_on(alloc, edges, &trail, jumps.broken.as_slice()),
        Stmt::Continue { .. } => go_on(alloc, edges, &trail, jumps.continued.as_slice()),
        Stmt::Return { .. } => {
            edges.push(trail.end(jumps.exit))?;
            Ok(())
        }
    }
}

/// Adds the edges that go on from the trail by each of the cases, and then along the statements.
#[cycle(walk)]
pub(crate) fn walk_cases(
    alloc: Global,
    edges: &mut Vec<Edge>,
    trail: &Trail,
    cases: &Cases,
    stmts: &[Stmt],
    first: u32,
    jumps: &JumpEdges,
    next: &[Edge],
) -> Result<(), AllocError>
    requires room { IsTrue (have_rooms (statements_of stmts.now)) }
    requires numbers { first + points_in (statements_of stmts.now) < 2 ^ 32 }
    ensures { OnOk result (edges.new.items ≡ edges.old.items
        ++ split trail.now cases.now (ways_in (statements_of stmts.now) first (jumps_of jumps.now) (walked next.now))) }
{
    for case in cases.as_slice() {
        let longer = trail.after(alloc, case)?;
        walk(alloc, edges, longer, stmts, first, jumps, next)?;
    }
    Ok(())
}

/// Adds the edges that go on from the trail into either branch of an `if`, up to the first point on each way: that is at
/// the latest the join, whatever comes after it. `first` is the number of the first point that the branches make.
#[cycle(walk)]
fn walk_branches(
    alloc: Global,
    edges: &mut Vec<Edge>,
    trail: &Trail,
    cond: &Cond,
    yes: &[Stmt],
    no: &[Stmt],
    first: u32,
    jumps: &JumpEdges,
) -> Result<(), AllocError>
    requires room { IsTrue (have_room (condition_of cond.now)) }
    requires yes { IsTrue (have_rooms (statements_of yes.now)) }
    requires no { IsTrue (have_rooms (statements_of no.now)) }
    requires numbers { first + points_in (statements_of yes.now) + points_in (statements_of no.now) + 1 < 2 ^ 32 }
    ensures { OnOk result (edges.new.items ≡ edges.old.items ++ reached trail.now
        (ways_of (branch (condition_of cond.now) (statements_of yes.now) (statements_of no.now) 0) first (jumps_of jumps.now) [])) }
{
    let middle = first + points_in(yes);
    let arrived = arrival(alloc, middle + points_in(no))?;
    let join = arrived.as_slice();
    let held = list_cases(alloc, cond, true)?;
    walk_cases(alloc, edges, trail, &held, yes, first, jumps, join)?;
    let failed = list_cases(alloc, cond, false)?;
    walk_cases(alloc, edges, trail, &failed, no, middle, jumps, join)
}

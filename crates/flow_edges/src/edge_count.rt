//! How many ways and edges a program has, counted before they are made.

ghost use Rattle.std.specs.Prelude.{◌≡◌, ◌+◌, ◌*◌, ◌≤◌, ◌||◌, ℕ, length, min, true, false, if◌then◌else◌};
ghost use Rattle.lang_tree.specs.View.{condition_of, deeds_of, statement_of, statements_of};
ghost use Rattle.flow_edges.specs.Edges.{complete, edges_of_program};
ghost use Rattle.flow_edges.specs.Counts.{AreCounted, case_count, deeds_count, edge_count_in, edge_count_of, tested_count, way_count_in};

use crate::completion::{complete, completes};
use crate::count::splits;
use crate::listing::case_count;
use crate::saturated::{ENOUGH, product, sum};
use lang_tree::{Block, Cond, Deed, Stmt};

/// How many ways go on by a `break` and by a `continue`, counted up to `ENOUGH`.
#[derive(Clone, Copy)]
pub(crate) struct JumpCounts {
    pub(crate) broken: u32,
    pub(crate) continued: u32,
}

/// The number of the program's edges, counted up to `ENOUGH`.
pub(crate) fn edge_count(body: &Block) -> u32
    ensures { result ≡ min (length (edges_of_program body.now)) ENOUGH }
{
    let none = JumpCounts {
        broken: 0,
        continued: 0,
    };
    let stmts = body.as_slice();
    sum(way_count(stmts, none, 1), edge_count_in(stmts, none, 1))
}

/// The number of ways along the statements to the next point, from the numbers of those that go on by jumps and from what comes after
/// the statements; counted up to `ENOUGH`.
fn way_count(stmts: &[Stmt], jumps: JumpCounts, next: u32) -> u32
    requires jumps { AreCounted jumps }
    requires next { next ≤ ENOUGH }
    ensures { result ≡ min (way_count_in (statements_of stmts.now) jumps next) ENOUGH }
{
    let Some((stmt, rest)) = stmts.split_first() else {
        return next;
    };
    match stmt {
        Stmt::Set { .. } | Stmt::Havoc { .. } | Stmt::Check { .. } => way_count(rest, jumps, next),
        Stmt::Where { cond, .. } => product(case_count(cond, true), way_count(rest, jumps, next)),
        Stmt::Assume { cond, .. } => {
            if splits(cond) {
                case_count(cond, true)
            } else {
                product(case_count(cond, true), way_count(rest, jumps, next))
            }
        }
        Stmt::If {
            cond,
            first,
            second,
            ..
        } => choice_count(
            cond,
            way_count(first.as_slice(), jumps, 1),
            way_count(second.as_slice(), jumps, 1),
        ),
        Stmt::While { .. } | Stmt::Do { .. } | Stmt::For { .. } | Stmt::Label { .. } => 1,
        Stmt::Break { .. } => jumps.broken,
        Stmt::Continue { .. } => jumps.continued,
        Stmt::Return { .. } => 1,
    }
}

/// The number of edges from the points that the statements and those in them make, counted up to `ENOUGH`; none from
/// those after a jump.
#[cycle(edge_counts)]
fn edge_count_in(stmts: &[Stmt], jumps: JumpCounts, next: u32) -> u32
    requires jumps { AreCounted jumps }
    requires next { next ≤ ENOUGH }
    ensures { result ≡ min (edge_count_in (statements_of stmts.now) jumps next) ENOUGH }
{
    let Some((stmt, rest)) = stmts.split_first() else {
        return 0;
    };
    let count = edge_count_of(stmt, jumps, way_count(rest, jumps, next));
    if completes(stmt) {
        sum(count, edge_count_in(rest, jumps, next))
    } else {
        count
    }
}

/// The number of edges from the points that the statement and those in it make, counted up to `ENOUGH`.
#[cycle(edge_counts)]
fn edge_count_of(stmt: &Stmt, jumps: JumpCounts, next: u32) -> u32
    requires jumps { AreCounted jumps }
    requires next { next ≤ ENOUGH }
    ensures { result ≡ min (edge_count_of (statement_of stmt.now) jumps next) ENOUGH }
{
    match stmt {
        Stmt::Set { .. }
        | Stmt::Havoc { .. }
        | Stmt::Where { .. }
        | Stmt::Check { .. }
        | Stmt::Break { .. }
        | Stmt::Continue { .. }
        | Stmt::Return { .. } => 0,
        Stmt::Assume { cond, .. } => { if splits(cond) { next } else { 0 } }
        Stmt::If { first, second, .. } => sum(
            edge_count_in(first.as_slice(), jumps, 1),
            sum(
                edge_count_in(second.as_slice(), jumps, 1),
                join_count(first, second, next),
            ),
        ),
        Stmt::While {
            prelude,
            cond,
            body,
            ..
        } => tested_count(prelude.as_slice(), cond, body, 1, next),
        Stmt::For {
            prelude,
            cond,
            change,
            body,
            ..
        } => {
            let end = deeds_count(change.as_slice(), 1);
            tested_count(prelude.as_slice(), cond, body, end, next)
        }
        Stmt::Do {
            prelude,
            cond,
            body,
            ..
        } => {
            let end = deeds_count(prelude.as_slice(), choice_count(cond, 1, next));
            let inner = JumpCounts {
                broken: next,
                continued: end,
            };
            let stmts = body.as_slice();
            sum(
                way_count(stmts, inner, end),
                edge_count_in(stmts, inner, end),
            )
        }
        Stmt::Label { .. } => next,
    }
}

/// The number of edges from the head of a loop that tests its condition there and from the points of its body, from the number of ways
/// from the end of its body.
#[cycle(edge_counts)]
fn tested_count(prelude: &[Deed], cond: &Cond, body: &Block, end: u32, next: u32) -> u32
    requires end { end ≤ ENOUGH }
    requires next { next ≤ ENOUGH }
    ensures { result ≡ min (tested_count (deeds_of prelude.now) (condition_of cond.now) body.now end next) ENOUGH }
{
    let inner = JumpCounts {
        broken: next,
        continued: end,
    };
    let stmts = body.as_slice();
    let turn = choice_count(cond, way_count(stmts, inner, end), next);
    sum(deeds_count(prelude, turn), edge_count_in(stmts, inner, end))
}

/// The number of ways along the deeds, from the number of those from what comes after them; counted up to `ENOUGH`.
fn deeds_count(deeds: &[Deed], next: u32) -> u32
    requires { next ≤ ENOUGH }
    ensures { result ≡ min (deeds_count (deeds_of deeds.now) next) ENOUGH }
{
    let Some((deed, rest)) = deeds.split_first() else {
        return next;
    };
    match deed {
        Deed::Where { cond, .. } => product(case_count(cond, true), deeds_count(rest, next)),
        Deed::Set { .. } | Deed::Havoc { .. } | Deed::Check { .. } => deeds_count(rest, next),
    }
}

/// The number of edges from the join of an `if` with these branches.
fn join_count(first: &Block, second: &Block, next: u32) -> u32
    ensures count { result ≡ (if complete first.now || complete second.now then next else 0) }
    ensures few { result ≤ next }
{
    if complete(first.as_slice()) || complete(second.as_slice()) {
        next
    } else {
        0
    }
}

/// The number of ways by a choice, from the numbers of those that go on after the cases for true and for false.
fn choice_count(cond: &Cond, held: u32, failed: u32) -> u32
    requires held { held ≤ ENOUGH }
    requires failed { failed ≤ ENOUGH }
    ensures few { result ≤ ENOUGH }
    ensures count { let c = condition_of cond.now in
        (m n : ℕ) → held ≡ min m ENOUGH → failed ≡ min n ENOUGH → result ≡ min (case_count true c * m + case_count false c * n) ENOUGH }
{
    sum(
        product(case_count(cond, true), held),
        product(case_count(cond, false), failed),
    )
}

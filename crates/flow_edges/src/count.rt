//! How many points a program has, counted before they are made.

ghost use Rattle.std.specs.Prelude.{◌≡◌, ◌<◌, ◌^◌};
ghost use Rattle.lang_tree.specs.View.{condition_of, statement_of, statements_of};
ghost use Rattle.lang_tree.specs.PointNumbers.{points_in, points_of, splits};

use crate::listing::case_count;
use lang_tree::{Cond, Stmt};

/// Whether an assumption of the condition makes a point.
pub(crate) fn splits(cond: &Cond) -> bool
    ensures { result ≡ splits (condition_of cond.now) }
{
    case_count(cond, true) > 1
}

/// The number of points that the statements and those in them make.
#[cycle(points)]
pub(crate) fn points_in(stmts: &[Stmt]) -> u32
    requires { points_in (statements_of stmts.now) < 2 ^ 32 }
    ensures { result ≡ points_in (statements_of stmts.now) }
{
    let Some((stmt, rest)) = stmts.split_first() else {
        return 0;
    };
    points_of(stmt) + points_in(rest)
}

/// The number of points that the statement and those in it make.
#[cycle(points)]
pub(crate) fn points_of(stmt: &Stmt) -> u32
    requires { points_of (statement_of stmt.now) < 2 ^ 32 }
    ensures { result ≡ points_of (statement_of stmt.now) }
{
    match stmt {
        Stmt::Set { .. }
        | Stmt::Havoc { .. }
        | Stmt::Where { .. }
        | Stmt::Check { .. }
        | Stmt::Break { .. }
        | Stmt::Continue { .. }
        | Stmt::Return { .. } => 0,
        Stmt::Assume { cond, .. } => { if splits(cond) { 1 } else { 0 } }
        Stmt::If { first, second, .. } => points_in(first.as_slice())
            + points_in(second.as_slice())
            + 1,
        Stmt::While { body, .. } | Stmt::Do { body, .. } | Stmt::For { body, .. } => {
            1 + points_in(body.as_slice())
        }
        Stmt::Label { .. } => 1,
    }
}

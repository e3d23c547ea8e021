//! Whether statements lead on to what comes after them.

ghost use Rattle.std.specs.Prelude.{◌≡◌};
ghost use Rattle.lang_tree.specs.View.{statement_of, statements_of};
ghost use Rattle.flow_edges.specs.Edges.{complete, completes, leave_in, may_leave};

use lang_tree::Stmt;

/// Whether what comes after the statements is reached along them, and not by a jump alone.
#[cycle(completion)]
pub(crate) fn complete(stmts: &[Stmt]) -> bool
    ensures { result ≡ complete (statements_of stmts.now) }
{
    let Some((stmt, rest)) = stmts.split_first() else {
        return true;
    };
    completes(stmt) && complete(rest)
}

/// Whether what comes after the statement is reached from it, and not by a jump alone. A `While` and a `For` may always be left, a
/// `Do` where its test is reached or a `Break` of it.
#[cycle(completion)]
pub(crate) fn completes(stmt: &Stmt) -> bool
    ensures { result ≡ completes (statement_of stmt.now) }
{
    match stmt {
        Stmt::If { first, second, .. } => {
            complete(first.as_slice()) || complete(second.as_slice())
        }
        Stmt::Do { body, .. } => complete(body.as_slice()) || leave_in(body.as_slice()),
        Stmt::Break { .. } | Stmt::Continue { .. } | Stmt::Return { .. } => false,
        Stmt::Set { .. }
        | Stmt::Havoc { .. }
        | Stmt::Assume { .. }
        | Stmt::Where { .. }
        | Stmt::Check { .. }
        | Stmt::While { .. }
        | Stmt::For { .. }
        | Stmt::Label { .. } => true,
    }
}

/// Whether a `Break` or a `Continue` of the loop around the statements is reached in them.
#[cycle(completion)]
fn leave_in(stmts: &[Stmt]) -> bool
    ensures { result ≡ leave_in (statements_of stmts.now) }
{
    let Some((stmt, rest)) = stmts.split_first() else {
        return false;
    };
    may_leave(stmt) || completes(stmt) && leave_in(rest)
}

#[cycle(completion)]
fn may_leave(stmt: &Stmt) -> bool
    ensures { result ≡ may_leave (statement_of stmt.now) }
{
    match stmt {
        Stmt::If { first, second, .. } => leave_in(first.as_slice()) || leave_in(second.as_slice()),
        Stmt::Break { .. } | Stmt::Continue { .. } => true,
        _ => false,
    }
}

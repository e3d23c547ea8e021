//! Conditions with more cases than an edge may be split into.

ghost use Rattle.std.specs.Prelude.{◌≡◌};
ghost use Rattle.lang_tree.specs.View.{condition_of, deeds_of, statement_of, statements_of};
ghost use Rattle.flow_edges.specs.Faults.{first_of, is_wide, wide_deeds, wide_lines_in, wide_lines_of};

use crate::listing::{MOST_CASES, case_count};
use lang_tree::{Cond, Deed, Stmt};

/// The line of the first statement whose condition has more than 64 cases for a truth that is used.
#[cycle(wide)]
pub(crate) fn wide_line(stmts: &[Stmt]) -> Option<u32>
    ensures { result ≡ first_of (wide_lines_in (statements_of stmts.now)) }
{
    let Some((stmt, rest)) = stmts.split_first() else {
        return None;
    };
    match wide_line_in(stmt) {
        Some(line) => Some(line),
        None => wide_line(rest),
    }
}

#[cycle(wide)]
fn wide_line_in(stmt: &Stmt) -> Option<u32>
    ensures { result ≡ first_of (wide_lines_of (statement_of stmt.now)) }
{
    match stmt {
        Stmt::Set { .. }
        | Stmt::Havoc { .. }
        | Stmt::Break { .. }
        | Stmt::Continue { .. }
        | Stmt::Return { .. }
        | Stmt::Label { .. } => None,
        Stmt::Check { cond, line, .. } => {
            if is_wide(cond, false) {
                Some(*line)
            } else {
                None
            }
        }
        Stmt::Assume { cond, line } | Stmt::Where { cond, line } => {
            if is_wide(cond, true) {
                Some(*line)
            } else {
                None
            }
        }
        Stmt::If {
            cond,
            first,
            second,
            line,
        } => {
            if is_wide(cond, true) || is_wide(cond, false) {
                return Some(*line);
            }
            match wide_line(first.as_slice()) {
                Some(inner) => Some(inner),
                None => wide_line(second.as_slice()),
            }
        }
        Stmt::While {
            prelude,
            cond,
            body,
            line,
        }
        | Stmt::Do {
            prelude,
            cond,
            body,
            line,
        } => {
            if let Some(inner) = wide_deed(prelude.as_slice()) {
                return Some(inner);
            }
            if is_wide(cond, true) || is_wide(cond, false) {
                return Some(*line);
            }
            wide_line(body.as_slice())
        }
        Stmt::For {
            prelude,
            cond,
            change,
            body,
            line,
        } => {
            if let Some(inner) = wide_deed(prelude.as_slice()) {
                return Some(inner);
            }
            if is_wide(cond, true) || is_wide(cond, false) {
                return Some(*line);
            }
            if let Some(inner) = wide_deed(change.as_slice()) {
                return Some(inner);
            }
            wide_line(body.as_slice())
        }
    }
}

/// The line of the first deed whose condition has more than 64 cases for the truth that is used.
fn wide_deed(deeds: &[Deed]) -> Option<u32>
    ensures { result ≡ first_of (wide_deeds (deeds_of deeds.now)) }
{
    let Some((deed, rest)) = deeds.split_first() else {
        return None;
    };
    match deed {
        Deed::Where { cond, line } => {
            if is_wide(cond, true) {
                Some(*line)
            } else {
                wide_deed(rest)
            }
        }
        Deed::Check { cond, line, .. } => {
            if is_wide(cond, false) {
                Some(*line)
            } else {
                wide_deed(rest)
            }
        }
        Deed::Set { .. } | Deed::Havoc { .. } => wide_deed(rest),
    }
}

fn is_wide(cond: &Cond, truth: bool) -> bool
    ensures { result ≡ is_wide truth (condition_of cond.now) }
{
    case_count(cond, truth) > MOST_CASES
}

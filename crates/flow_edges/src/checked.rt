//! The checks of a program.

ghost use Rattle.std.specs.Prelude.{◌≡◌, ◌<◌, ◌≤◌, ◌^◌, ◌++◌, IfOk, IsTrue, OnOk, length, map};
ghost use Rattle.lang_tree.specs.Tree.{node_count, nodes_in};
ghost use Rattle.lang_tree.specs.View.{deeds_of, statement_of, statements_of};
ghost use Rattle.flow_edges.specs.Constants.{deeds_room, has_rooms, have_rooms};
ghost use Rattle.flow_edges.specs.Checks.{checks_in, checks_of, deed_checks, checks_of_program, with_cases};

use crate::case::Cases;
use crate::listing::list_cases;
use base_list::Sequence;
use lang_tree::{Check, Deed, Program, Stmt};
use std::alloc::{AllocError, Global};

/// A check of a program, and the cases in which its condition may be false where it stands: each has guards, and the condition
/// may be false exactly where all guards of one of them are at most 0.
#[derive(Drop)]
pub struct CheckCases {
    pub check: Check,
    pub against: Cases,
}

/// Checks in order of the text.
pub type Checks = Sequence<CheckCases>;

/// The checks of the program in order of the text, each with the cases against it.
///
/// Where the program has a flow, each has at most 64 cases. `docs/MEANING.md` has the lists, under "Cases".
pub fn checks(alloc: Global, program: &Program) -> Result<Checks, AllocError>
    ensures { IfOk result (λ checks. checks ≡ checks_of_program program.now.body) }
{
    let mut list = Vec::new(alloc);
    add_checks(alloc, &mut list, program.body.as_slice())?;
    Ok(Checks::new(list))
}

/// Adds the checks of the statements and of those in them, in order.
#[cycle(checks)]
fn add_checks(alloc: Global, list: &mut Vec<CheckCases>, stmts: &[Stmt]) -> Result<(), AllocError>
    requires { IsTrue (have_rooms (statements_of stmts.now)) }
    ensures { OnOk result (list.new.items ≡ list.old.items ++ map with_cases (checks_in (statements_of stmts.now))) }
{
    let Some((stmt, rest)) = stmts.split_first() else {
        return Ok(());
    };
    add_checks_of(alloc, list, stmt)?;
    add_checks(alloc, list, rest)
}

/// Adds the checks of the statement and of those in it, in order.
#[cycle(checks)]
fn add_checks_of(alloc: Global, list: &mut Vec<CheckCases>, stmt: &Stmt) -> Result<(), AllocError>
    requires { IsTrue (has_rooms (statement_of stmt.now)) }
    ensures { OnOk result (list.new.items ≡ list.old.items ++ map with_cases (checks_of (statement_of stmt.now))) }
{
    match stmt {
        Stmt::Set { .. }
        | Stmt::Havoc { .. }
        | Stmt::Assume { .. }
        | Stmt::Where { .. }
        | Stmt::Break { .. }
        | Stmt::Continue { .. }
        | Stmt::Return { .. }
        | Stmt::Label { .. } => Ok(()),
        Stmt::Check { check, cond, .. } => {
            let against = list_cases(alloc, cond, false)?;
            list.push(CheckCases {
                check: *check,
                against,
            })?;
            Ok(())
        }
        Stmt::If { first, second, .. } => {
            add_checks(alloc, list, first.as_slice())?;
            add_checks(alloc, list, second.as_slice())
        }
        Stmt::While { prelude, body, .. } => {
            add_deed_checks(alloc, list, prelude.as_slice())?;
            add_checks(alloc, list, body.as_slice())
        }
        Stmt::For {
            prelude,
            change,
            body,
            ..
        } => {
            add_deed_checks(alloc, list, prelude.as_slice())?;
            add_deed_checks(alloc, list, change.as_slice())?;
            add_checks(alloc, list, body.as_slice())
        }
        Stmt::Do { prelude, body, .. } => {
            add_checks(alloc, list, body.as_slice())?;
            add_deed_checks(alloc, list, prelude.as_slice())
        }
    }
}

/// Adds the checks of the deeds, in order.
fn add_deed_checks(
    alloc: Global,
    list: &mut Vec<CheckCases>,
    deeds: &[Deed],
) -> Result<(), AllocError>
    requires { IsTrue (deeds_room (deeds_of deeds.now)) }
    ensures { OnOk result (list.new.items ≡ list.old.items ++ map with_cases (deed_checks (deeds_of deeds.now))) }
{
    let Some((deed, rest)) = deeds.split_first() else {
        return Ok(());
    };
    match deed {
        Deed::Check { check, cond, .. } => {
            let cases = list_cases(alloc, cond, false)?;
            list.push(CheckCases {
                check: *check,
                against: cases,
            })?;
            add_deed_checks(alloc, list, rest)
        }
        Deed::Set { .. } | Deed::Havoc { .. } | Deed::Where { .. } => {
            add_deed_checks(alloc, list, rest)
        }
    }
}

/// How many checks the statements and those in them have.
#[cycle(counted_checks)]
pub(crate) fn check_count(stmts: &[Stmt]) -> u32
    requires { nodes_in (statements_of stmts.now) < 2 ^ 32 }
    ensures count { result ≡ length (checks_in (statements_of stmts.now)) }
    ensures few { result ≤ nodes_in (statements_of stmts.now) }
{
    let Some((stmt, rest)) = stmts.split_first() else {
        return 0;
    };
    check_count_of(stmt) + check_count(rest)
}

#[cycle(counted_checks)]
fn check_count_of(stmt: &Stmt) -> u32
    requires { node_count (statement_of stmt.now) < 2 ^ 32 }
    ensures count { result ≡ length (checks_of (statement_of stmt.now)) }
    ensures few { result ≤ node_count (statement_of stmt.now) }
{
    match stmt {
        Stmt::Check { .. } => 1,
        Stmt::If { first, second, .. } => check_count(first.as_slice())
            + check_count(second.as_slice()),
        Stmt::While { prelude, body, .. } | Stmt::Do { prelude, body, .. } => {
            deed_check_count(prelude.as_slice()) + check_count(body.as_slice())
        }
        Stmt::For {
            prelude,
            change,
            body,
            ..
        } => {
            let before = deed_check_count(prelude.as_slice());
            let after = deed_check_count(change.as_slice());
            before + after + check_count(body.as_slice())
        }
        _ => 0,
    }
}

fn deed_check_count(deeds: &[Deed]) -> u32
    requires { length (deeds_of deeds.now) < 2 ^ 32 }
    ensures count { result ≡ length (deed_checks (deeds_of deeds.now)) }
    ensures few { result ≤ length (deeds_of deeds.now) }
{
    let Some((deed, rest)) = deeds.split_first() else {
        return 0;
    };
    match deed {
        Deed::Check { .. } => 1 + deed_check_count(rest),
        Deed::Set { .. } | Deed::Havoc { .. } | Deed::Where { .. } => deed_check_count(rest),
    }
}

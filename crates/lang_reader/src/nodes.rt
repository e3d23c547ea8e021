//! Lists of statements, and the statements that they end.
#![tactic(auto, using(lang_meaning::proofs::results::Binds::then_ok, lang_meaning::proofs::results::Binds::then_err))]

ghost use Rattle.std.specs.Prelude.{◌≡◌, IfOk};
ghost use Rattle.lang_tree.specs.View.{statement_of, statements_of};
ghost use Rattle.lang_meaning.specs.Walk.{followed_by, one};
ghost use Rattle.lang_meaning.specs.Feed.{change_in};

use lang_tree::{Change, Stmt};
use std::alloc::{AllocError, Global};

/// The nodes of one list and then those of another.
pub fn followed(nodes: Vec<Stmt>, more: Vec<Stmt>) -> Result<Vec<Stmt>, AllocError>
    ensures { IfOk result (λ all. statements_of all.items ≡ followed_by (statements_of nodes.items) (statements_of more.items)) }
{
    let mut nodes = nodes;
    let mut more = more;
    nodes.append(&mut more)?;
    Ok(nodes)
}

/// A list of one node.
pub fn one(alloc: Global, stmt: Stmt) -> Result<Vec<Stmt>, AllocError>
    ensures { IfOk result (λ nodes. statements_of nodes.items ≡ one (statement_of stmt)) }
{
    let mut nodes = Vec::new(alloc);
    nodes.push(stmt)?;
    Ok(nodes)
}

// The change that this node is.
fn change_of(node: Stmt) -> Change
    ensures { result ≡ change_in (one (statement_of node)) }
{
    match node {
        Stmt::Set { var, form, line } => Change::Set { var, form, line },
        Stmt::Havoc { var, line } => Change::Havoc { var, line },
        _ => Change::Unchanged,
    }
}

// The change that these nodes are.
pub(crate) fn change_in(nodes: Vec<Stmt>) -> Change
    ensures { result ≡ change_in (statements_of nodes.items) }
{
    let mut nodes = nodes;
    nodes.truncate(1);
    match nodes.pop() {
        Some(first) => change_of(first),
        None => Change::Unchanged,
    }
}

//! Statements.

ghost use Rattle.std.specs.Prelude.{◌≡◌, ◌<◌, ◌^◌};
ghost use Rattle.lang_tree.specs.Tree.{node_count, nodes_in};
ghost use Rattle.lang_tree.specs.View.{statement_of, statements_of};

use crate::check::Check;
use crate::cond::Cond;
use crate::deed::Deeds;
use crate::form::Form;
use crate::name::Name;
use std::marker::Model;

/// A statement. Variables are numbered from 0 in order of declaration, lines from 1.
#[cycle(tree)]
#[derive(Drop)]
pub enum Stmt {
    /// The variable takes the form's value.
    Set {
        var: u32,
        form: Form,
        line: u32,
    },
    /// The variable takes any value.
    Havoc {
        var: u32,
        line: u32,
    },
    /// The run goes on only where the condition may be true.
    Assume {
        cond: Cond,
        line: u32,
    },
    /// The run goes on only where the condition may be true. Unlike an `Assume` it makes no point, whatever its cases.
    Where {
        cond: Cond,
        line: u32,
    },
    /// Nothing happens. The condition is one that may not be false here.
    Check {
        check: Check,
        cond: Cond,
        line: u32,
    },
    /// `first` where the condition may be true, `second` where it may be false.
    If {
        cond: Cond,
        first: Block,
        second: Block,
        line: u32,
    },
    /// `body` again and again, as long as the condition may be true; past it where it may be false. The prelude is done each time before
    /// the condition is tested.
    While {
        prelude: Deeds,
        cond: Cond,
        body: Block,
        line: u32,
    },
    /// `body`, and after it again and again, as long as the condition may be true; past it where it may be false. The prelude is done
    /// each time before the condition is tested, also where a `Continue` ends the turn.
    Do {
        prelude: Deeds,
        cond: Cond,
        body: Block,
        line: u32,
    },
    /// As `While`, with the change after each turn of `body`, also after one that a `Continue` ends.
    For {
        prelude: Deeds,
        cond: Cond,
        change: Deeds,
        body: Block,
        line: u32,
    },
    /// Goes on past the innermost loop that holds it.
    Break {
        line: u32,
    },
    /// Goes on at the end of the body of the innermost loop that holds it.
    Continue {
        line: u32,
    },
    /// Goes on at the program's exit.
    Return {
        line: u32,
    },
    /// Names this place.
    Label {
        name: Name,
        line: u32,
    },
}

/// A list of statements.
#[cycle(tree)]
#[derive(Drop)]
pub struct Block {
    list: Vec<Stmt>,
}

impl Model for Block {
    ghost use Rattle.lang_tree.specs.Tree.{Statements, nodes_in};
    ghost use Rattle.lang_tree.specs.Codes.{coded_statements};

    ghost Value = { Statements };

    ghost coded = { coded_statements };

    ghost use Rattle.lang_tree.specs.View.{statements_of};

    ghost view = { λ b. statements_of b.list.items };

    ghost size = { nodes_in };

    ghost use Rattle.lang_tree.specs.Falls.{deep_all};
    ghost use Rattle.std.proofs.Common.{arith};

    ghost size_decreases = { λ a h. Prim.omega (arith, deep_all a.list.items) };
}

impl Block {
    /// The list as a block.
    pub fn new(list: Vec<Stmt>) -> Block
        ensures { result ≡ statements_of list.items }
    {
        Block { list }
    }

    /// The list itself.
    pub fn as_slice(&self) -> &[Stmt]
        ensures { statements_of result.now ≡ self.now }
    {
        self.list.as_slice()
    }
}

/// The number of statements in a block and in the blocks under it.
#[cycle(counting)]
pub(crate) fn nodes_in(block: &Block) -> u32
    requires { nodes_in block.now < 2 ^ 32 }
    ensures { result ≡ nodes_in block.now }
{
    let mut count = 0;
    for stmt in block.as_slice() {
        count += nodes(stmt);
    }
    count
}

#[cycle(counting)]
fn nodes(stmt: &Stmt) -> u32
    requires { node_count (statement_of stmt.now) < 2 ^ 32 }
    ensures { result ≡ node_count (statement_of stmt.now) }
{
    match stmt {
        Stmt::If { first, second, .. } => 1 + nodes_in(first) + nodes_in(second),
        Stmt::While { prelude, body, .. } | Stmt::Do { prelude, body, .. } => {
            1 + prelude.count() + nodes_in(body)
        }
        Stmt::For {
            prelude,
            change,
            body,
            ..
        } => 1 + (prelude.count() + change.count()) + nodes_in(body),
        _ => 1,
    }
}

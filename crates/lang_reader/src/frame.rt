//! What is pending while a text is read.

use crate::value::Value;
use lang_grammar::{Change, Demand, Op};
use lang_tree::{Block, Change as ForChange, Cond, Name, Stmt};

/// A sign before an operand.
#[derive(Clone, Copy)]
pub enum Before {
    Minus,
    Plus,
    Not,
}

/// What a condition in parentheses belongs to.
#[derive(Drop)]
pub enum Test {
    If,
    While,
    /// A `do` with its body.
    Do(Block),
    /// An `assume` or `assert`.
    Demand(Demand),
}

/// What statements belong to. A place is that of the first token of an `if` or a loop.
#[derive(Drop)]
pub enum Within {
    /// Items, at whose beginning so many names were known.
    Items(usize),
    /// The first branch of an `if`.
    Branch(Cond, u32),
    /// Its second branch, with the first.
    Other {
        cond: Cond,
        first: Block,
        place: u32,
    },
    /// The body of a `while`.
    Loop(Cond, u32),
    /// The body of a `do`.
    Body(u32),
    /// The body of a `for`: how many names were known before it, its place, and the nodes of its
    /// first part.
    For {
        known: usize,
        place: u32,
        before: Vec<Stmt>,
        cond: Cond,
        change: ForChange,
    },
}

/// What is pending. A place is that of a statement's or a declarator's first token, or of a sign.
#[derive(Drop)]
pub enum Frame {
    /// A left side with its sign.
    Side {
        left: Value,
        op: Op,
        place: u32,
    },
    /// A sign before.
    Before(Before, u32),
    /// A parenthesis.
    Group(u32),
    /// The condition of a statement.
    Test(Test, u32),
    /// An assignment, with the place of its sign.
    Assigns {
        var: u32,
        change: Change,
        sign: u32,
        place: u32,
    },
    /// A declarator with an initialiser, with the place of its `=`.
    Initial {
        name: Name,
        place: u32,
        sign: u32,
    },
    /// The head of a `for` behind its `(`: how many names were known before it, and the nodes of
    /// its first part.
    Header {
        known: usize,
        place: u32,
        before: Vec<Stmt>,
    },
    /// The same behind its condition.
    HeaderTested {
        known: usize,
        place: u32,
        before: Vec<Stmt>,
        cond: Cond,
    },
    /// Statements, with the nodes so far.
    Under(Within, Vec<Stmt>),
}

//! What is read next.

use crate::frame::Test;
use crate::value::Value;
use lang_grammar::Direction;
use lang_tree::{Name, Stmt};

/// What is read next. A place is that of a statement's or a declarator's first token.
#[derive(Drop)]
pub enum Mode {
    /// The head of `main`.
    Heading,
    /// A statement, or the end of items.
    Stands,
    /// What follows a name at the beginning of a statement.
    Named(Name, u32),
    /// An operand.
    Wants,
    /// What follows a value.
    Has(Value),
    /// The `(` of the `nondet` at this place, and its `)`.
    Calls(u32),
    Closes(u32),
    /// The `(` of a condition.
    Opens(Test, u32),
    /// The `(` of the `for` at this place, and the parts of its head.
    Heads(u32),
    FirstPart,
    TestPart,
    LastPart,
    /// The name behind `++` or `--`.
    Stepping(Direction, u32),
    /// The `;` of a statement with these nodes.
    Ends(Vec<Stmt>),
    /// What follows a statement with these nodes.
    After(Vec<Stmt>),
    /// A name that is declared, and what follows it.
    Declares,
    Declared(Name, u32),
    /// The rest of `return`.
    Returning,
}

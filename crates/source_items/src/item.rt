//! An item, and one that has begun.

ghost use Rattle.std.specs.Prelude.{◌≡◌};
ghost use Rattle.source_items.specs.Begun.{closes, is_braced, is_round, next_head, named, beginning};

use crate::mark::{Bracket, Mark};

/// An item of a file (docs/MEANING.md, "Functions of C"). Tokens are counted from 0.
#[derive(Clone, Copy, Debug, PartialEq, Eq)]
pub struct Item {
    /// Its first token.
    pub first: usize,
    /// The token behind its last one.
    pub end: usize,
    /// Where it is a function with a body: the token that is the function's name.
    pub name: Option<usize>,
}

/// How far an item that has begun is like a function with a body.
#[derive(Clone, Copy, Debug, PartialEq, Eq)]
pub(crate) enum Head {
    /// Words of storage alone.
    Storage,
    /// A type behind them.
    Typed,
    /// A name behind that, which is this token.
    Named(usize),
    /// Parentheses behind the name.
    Taking(usize),
    /// A brace behind these.
    Bodied(usize),
    /// It is none.
    Unlike,
}

/// An item that has begun, by its elements so far.
#[derive(Clone, Copy, Debug, PartialEq, Eq)]
pub(crate) struct Begun {
    /// There is a brace among them.
    pub braced: bool,
    /// The last one is a pair of parentheses.
    pub round: bool,
    pub head: Head,
}

impl Begun {
    /// One without elements.
    pub fn none() -> Begun
        ensures { result ≡ beginning }
    {
        Begun {
            braced: false,
            round: false,
            head: Head::Storage,
        }
    }

    /// Whether an element whose last token is this one ends the item.
    pub fn ends_with(&self, last: Mark) -> bool
        ensures { result ≡ closes self.now last }
    {
        match last {
            Mark::Semicolon => true,
            Mark::Closes(Bracket::Curly) => !self.braced && self.round,
            _ => false,
        }
    }

    /// The item with one element more, whose last token is this one, at `index`.
    pub fn with(self, last: Mark, index: usize) -> Begun
        ensures braced { result.braced ≡ is_braced self last }
        ensures round { result.round ≡ is_round last }
        ensures head { result.head ≡ next_head self.head last index }
    {
        Begun {
            braced: self.braced || last == Mark::Closes(Bracket::Curly),
            round: last == Mark::Closes(Bracket::Round),
            head: next_head(self.head, last, index),
        }
    }

    /// The token of the name, where the item is a function with a body.
    pub fn name(self) -> Option<usize>
        ensures { result ≡ named self.head }
    {
        match self.head {
            Head::Bodied(name) => Some(name),
            _ => None,
        }
    }
}

fn next_head(head: Head, last: Mark, index: usize) -> Head
    ensures { result ≡ next_head head last index }
{
    match (head, last) {
        (Head::Storage, Mark::Storage) => Head::Storage,
        (Head::Storage, Mark::Returned) => Head::Typed,
        (Head::Typed, Mark::Name) => Head::Named(index),
        (Head::Named(name), Mark::Closes(Bracket::Round)) => Head::Taking(name),
        (Head::Taking(name), Mark::Closes(Bracket::Curly)) => Head::Bodied(name),
        _ => Head::Unlike,
    }
}

//! Equations as they are written. Each `at` counts the bytes before the name or number beside it.

use crate::reading::literal::Literal;
use base_list::Sequence;
use lang_tree::Name;

/// The second number of a ratio.
#[derive(Drop)]
pub struct Below {
    pub den: Literal,
    pub at: u32,
}

/// `3`, or `1:3` for a third.
#[derive(Drop)]
pub struct Ratio {
    pub num: Literal,
    pub at: u32,
    pub below: Option<Below>,
}

/// A part of a sum.
#[derive(Drop)]
pub enum Part {
    /// A name, maybe with a ratio and `*` before it.
    Multiple {
        factor: Option<Ratio>,
        name: Name,
        at: u32,
    },
    /// A ratio, maybe with a `-` before it, which is given by its place.
    Constant {
        minus: Option<u32>,
        ratio: Ratio,
    },
}

/// A sum of one part or more.
#[derive(Drop)]
pub struct Addends {
    pub first: Part,
    pub more: Sequence<Part>,
}

/// An alternative.
#[derive(Drop)]
pub enum Choice {
    /// A sum that stands alone.
    Alone(Addends),
    /// `min` of one sum or more.
    Least {
        first: Addends,
        more: Sequence<Addends>,
    },
}

/// An equation: its name, its start, maybe with a `-` before it, and its alternatives.
#[derive(Drop)]
pub struct Written {
    pub name: Name,
    pub at: u32,
    pub minus: Option<u32>,
    pub start: Ratio,
    pub choices: Sequence<Choice>,
}

//! Anchors.

use base_list::Sequence;

/// Numbers of variables, from 0 in the order of their declarations.
pub type Known = Sequence<u32>;

/// What stands at an anchor.
#[derive(Clone, Copy, Debug, PartialEq, Eq)]
pub enum What {
    Loop,
    Label,
    /// The end of the function.
    End,
}

/// A place of a text at which something may be said of the states that come there.
#[derive(Drop)]
pub struct Anchor {
    pub what: What,
    /// How many bytes stand before its first token: the first of the loop, the name of the label, `return` or the function's last
    /// brace.
    pub first: u32,
    /// How many bytes stand before the place at which something is said: that of a loop and of the end is the first token's, and that
    /// of a label is behind its colon.
    pub place: u32,
    /// The variables that are known there.
    pub known: Known,
}

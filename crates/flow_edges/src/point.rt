//! The places of a program at which bounds are given.

use base_list::Sequence;
use lang_tree::Name;

/// What a point is.
#[derive(Drop)]
pub enum Place {
    /// Where a run starts.
    Entry,
    /// The head of a loop.
    Loop,
    /// A label.
    Label(Name),
    /// After both branches of an `if`.
    Join,
    /// After an `assume` whose condition has more than one case.
    Assume,
    /// Where a run ends.
    Exit,
}

/// A point: what it is, and the line of its statement, 0 for the entry and the exit.
#[derive(Drop)]
pub struct Point {
    pub place: Place,
    pub line: u32,
}

/// Points in order of their numbers.
pub type Points = Sequence<Point>;

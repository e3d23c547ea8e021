//! The edges of a transition system.

use base_list::Sequence;
use lang_tree::Block;

/// An edge as its text has it: the numbers of the points between which it goes, and what is done on it in order.
///
/// `line` is the line of its word `edge`, and `at` counts the bytes before the name of `from`.
#[derive(Drop)]
pub struct AutoEdge {
    pub from: u32,
    pub to: u32,
    pub acts: Block,
    pub line: u32,
    pub at: u32,
}

/// Edges in order of the text.
pub type AutoEdges = Sequence<AutoEdge>;

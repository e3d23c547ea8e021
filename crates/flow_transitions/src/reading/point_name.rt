//! The name of a point.

use lang_tree::Name;

/// A point's name with its line.
#[derive(Drop)]
pub struct PointName {
    pub name: Name,
    pub line: u32,
}

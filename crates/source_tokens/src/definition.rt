//! Names that are defined as numbers, or as something else that isn't read.

use lang_tree::Name;

/// A definition of a name, or of a reserved word, outside functions: by a directive or by an item of the file (docs/MEANING.md, "Functions
/// of C").
#[derive(Drop)]
pub struct Definition {
    pub name: Name,
    /// How many bytes stand before it where it is defined: it is known behind that place.
    pub at: u32,
    /// The number that it stands for; none where it is a macro of another kind, which stands in no function that is read.
    pub value: Option<i64>,
    /// Whether an item of the file defines it, and no directive.
    pub by_item: bool,
}

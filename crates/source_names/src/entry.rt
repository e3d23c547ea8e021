//! Names that were declared.

ghost use Rattle.std.specs.Prelude.{◌≡◌, ◌-◌, length, reverse};
ghost use Rattle.source_meaning.specs.Names.{forgotten};
ghost use Rattle.source_names.specs.Entries.{kept_of, names_in, thing_of};

use lang_tree::Name;
use source_tree::Extent;

/// What a name is: the variable of this number, counted from 0 in order of declaration, an array by the extents of its indexes, or a
/// constant.
#[derive(Clone, Copy)]
pub enum Thing<'a> {
    Variable(u32),
    Array(&'a [Extent]),
    Constant(i64),
}

// What a name was declared as.
#[derive(Drop)]
pub(crate) enum Kept {
    Variable(u32),
    Array(Vec<Extent>),
}

impl Kept {
    // As what it is.
    pub fn thing(&self) -> Thing<'_>
        ensures { thing_of result ≡ kept_of self.now }
    {
        match self {
            Kept::Variable(number) => Thing::Variable(*number),
            Kept::Array(extents) => Thing::Array(extents.as_slice()),
        }
    }
}

// A name that was declared, as what, and whether it is known here.
#[derive(Drop)]
pub(crate) struct Entry {
    pub name: Name,
    pub kept: Kept,
    pub is_known: bool,
}

// The names from this place on are known no longer.
pub(crate) fn forget(entries: &mut Vec<Entry>, before: usize)
    ensures length { length entries.new.items ≡ length entries.old.items }
    ensures names { names_in entries.new.items ≡ forgotten (length (names_in entries.old.items) - before) (names_in entries.old.items) }
{
    for place in before..entries.len() {
        entries[place].is_known = false;
    }
}

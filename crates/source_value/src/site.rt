//! Where operations stand.

ghost use Rattle.std.specs.Prelude.{◌≡◌};
ghost use Rattle.source_value.specs.Kept.{is_within};

use base_integers::Integers;
use lang_tree::MOST_HIDDEN;

/// The statement in which operations stand: how many variables its function has, which is the number of its first hidden variable; its
/// line, counted from 1; and the integers by which its function computes.
#[derive(Clone, Copy)]
pub struct Site {
    pub variables: u32,
    pub line: u32,
    pub integers: Integers,
}

impl Site {
    /// Whether the statement has taken no more than `MOST_HIDDEN` hidden variables where `next` is the one that comes next
    /// (docs/FORMATS.md, "Functions").
    pub fn is_within(self, next: u32) -> bool
        ensures { result ≡ is_within self.variables next }
    {
        u64::from(next) <= u64::from(self.variables) + MOST_HIDDEN as u64
    }
}

//! What stands first in the rest of a text.

use crate::before::Before;
use crate::token::Kind;

/// A blank, a comment or a token.
#[derive(Clone, Copy)]
pub struct Found {
    /// The kind of a token.
    pub kind: Option<Kind>,
    /// How many bytes it has.
    pub len: usize,
    /// What stands in its line before what follows it.
    pub behind: Before,
}

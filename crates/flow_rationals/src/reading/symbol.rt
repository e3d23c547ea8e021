//! What the grammar of equations sees of a token.

use crate::reading::literal::Literal;
use lang_tree::Name;

/// A token as the grammar of equations sees it; `at` counts the bytes before it.
#[derive(Drop)]
pub enum Symbol {
    /// A name but `max` and `min`.
    Named { name: Name, at: u32 },
    Number { value: Literal, at: u32 },
    Minus { at: u32 },
    Plus,
    Star,
    Colon,
    Comma,
    Semicolon,
    Equal,
    LeftParen,
    RightParen,
    /// `max`
    Max,
    /// `min`
    Min,
    End,
    /// A token that stands nowhere in equations.
    Other,
}

//! The lexemes of C.

ghost use Rattle.std.specs.Prelude.{◌≡◌, ◌≤◌, length, slice_index, MatchOption, IsTrue, IsFalse};
ghost use Rattle.lang_tokens.specs.Bytes.{is_blank};
ghost use Rattle.lang_tokens.specs.Steps.{LexemeFirst, NoLexemeFirst};

use crate::byte::{is_digit, is_letter, is_quote};
use crate::directive::starts_with_digit;
use crate::number::number_lexeme;
use crate::quoted::quoted_lexeme;
use crate::signs::sign_lexeme;
use crate::token::Kind;
use crate::words::word_lexeme;

/// The longest lexeme at a place of a C file.
#[derive(Clone, Copy)]
pub struct Lexeme {
    /// The kind of the token that it is outside of directives, if it is one.
    pub kind: Option<Kind>,
    /// How many bytes it has.
    pub len: usize,
}

/// The lexeme that stands first, where no blank does; there is none at a quote whose literal doesn't
/// end on its line.
pub fn first_lexeme(rest: &[u8]) -> Option<Lexeme>
    requires some { 1 ≤ length rest.now }
    requires no_blank { IsFalse (is_blank (slice_index rest.now 0)) }
    ensures { MatchOption result (NoLexemeFirst rest.now) (LexemeFirst rest.now) }
{
    match rest[0] {
        first if is_letter(first) => Some(word_lexeme(rest)),
        first if is_digit(first) || first == b'.' && starts_with_digit(&rest[1..]) => Some(
            number_lexeme(rest),
        ),
        first if is_quote(first) => quoted_lexeme(rest),
        _ => Some(sign_lexeme(rest)),
    }
}

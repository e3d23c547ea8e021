//! Literals of strings and characters.

ghost use Rattle.std.specs.Prelude.{◌≡◌, ◌≤◌, ◌<◌, false, length, slice_index, IsTrue, MatchOption, IfSome};
ghost use Rattle.lang_tokens.specs.Bytes.{is_quote};
ghost use Rattle.lang_tokens.specs.Steps.{closing, LexemeFirst, NoLexemeFirst};

use crate::lexeme::Lexeme;
use crate::token::{Foreign, Kind};

// Where the quote stands that closes the literal of this quote, if it does so on its line; these
// bytes follow its first quote.
fn closing(quote: u8, rest: &[u8]) -> Option<usize>
    ensures place { result ≡ closing quote false rest.now }
    ensures within { IfSome result (λ place. place < length rest.now) }
{
    let mut passes = false;
    for (place, byte) in rest.iter().enumerate() {
        if *byte == b'\n' {
            return None;
        }
        if !passes && *byte == quote {
            return Some(place);
        }
        passes = !passes && *byte == b'\\';
    }
    None
}

/// The literal of the quote that stands first, if it ends on its line.
pub fn quoted_lexeme(rest: &[u8]) -> Option<Lexeme>
    requires some { 1 ≤ length rest.now }
    requires quote { IsTrue (is_quote (slice_index rest.now 0)) }
    ensures { MatchOption result (NoLexemeFirst rest.now) (LexemeFirst rest.now) }
{
    let place = closing(rest[0], &rest[1..])?;
    Some(Lexeme {
        kind: Some(Kind::Foreign(Foreign::Byte)),
        len: place + 2,
    })
}

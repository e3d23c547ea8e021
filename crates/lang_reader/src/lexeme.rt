//! Tokens with the bytes of names.

ghost use Rattle.std.specs.Prelude.{◌≡◌, ◌+◌, slice_range, pos};
ghost use Rattle.lang_grammar.specs.View.{kind_of, literal};
ghost use Rattle.lang_reader.specs.Modes.{lexeme_kind};
ghost use Rattle.lang_meaning.specs.Proper.{IsProper};

use lang_grammar::{Symbol, symbol_of};
use lang_tokens::{Kind, Token};
use lang_tree::Name;

/// A token with its name or its number.
#[derive(Drop)]
pub enum Lexeme {
    Name(Name),
    Number(i64),
    Plain(Symbol),
}

/// The token of this text.
pub fn read_token(token: &Token, text: &[u8]) -> Lexeme
    requires { IsProper text.now token.now }
    ensures { lexeme_kind result ≡ kind_of (slice_range text.now token.now.at (token.now.at + token.now.len)) token.now.kind }
{
    match token.kind {
        Kind::Name => {
            let from = token.at as usize;
            match Name::new(&text[from..from + token.len as usize]) {
                Some(name) => Lexeme::Name(name),
                None => Lexeme::Plain(Symbol::Other),
            }
        }
        Kind::Number(number) => Lexeme::Number(number),
        kind => Lexeme::Plain(symbol_of(kind)),
    }
}

/// The value of a literal, which is at least 0.
pub fn literal(number: i64) -> i64
    ensures { result ≡ pos (literal number) }
{
    if number < 0 { 0 } else { number }
}

//! What the search for anchors sees of a token.

ghost use Rattle.std.specs.Prelude.{◌≡◌, ℕ, ℤ, Option};
ghost use Rattle.source_grammar.specs.Symbols.{symbol_kind};
ghost use Rattle.lang_tokens.specs.declared.token.Kind.TheVariants.{Name as NameKind};
ghost use Rattle.source_tokens.specs.Texts.{IsTokenIn};
ghost use Rattle.source_tokens.specs.View.{bytes_of, kind_of};
ghost use Rattle.acsl_anchors.specs.Parts.{part_of};

use lang_tokens::{Kind, Token};
use lang_tree::Name;
use source_grammar::Symbol;
use source_tokens::{name_of, symbol_of};

/// A token by what it does to the statements round it.
#[derive(Drop)]
pub enum Part {
    Name(Name),
    Comma,
    Semicolon,
    Colon,
    LeftParen,
    RightParen,
    LeftBrace,
    RightBrace,
    LeftBracket,
    Int,
    Const,
    If,
    Else,
    While,
    Do,
    For,
    Return,
    Step,
    Other,
}

// A symbol that is no name.
fn symbol_part(symbol: Symbol) -> Part
    ensures { (symbol ≡ Symbol.Name → ⊥) → result ≡ part_of (symbol_kind symbol) }
{
    match symbol {
        Symbol::Comma => Part::Comma,
        Symbol::Semicolon => Part::Semicolon,
        Symbol::Colon => Part::Colon,
        Symbol::LeftParen => Part::LeftParen,
        Symbol::RightParen => Part::RightParen,
        Symbol::LeftBrace => Part::LeftBrace,
        Symbol::RightBrace => Part::RightBrace,
        Symbol::LeftBracket => Part::LeftBracket,
        Symbol::Int => Part::Int,
        Symbol::Const => Part::Const,
        Symbol::If => Part::If,
        Symbol::Else => Part::Else,
        Symbol::While => Part::While,
        Symbol::Do => Part::Do,
        Symbol::For => Part::For,
        Symbol::Return => Part::Return,
        Symbol::Step(_) => Part::Step,
        _ => Part::Other,
    }
}

/// What the search sees of a token of a text, whatever its number, and whatever a name stands for.
pub fn part_seen(text: &[u8], token: &Token) -> Part
    requires { token.now.kind ≡ NameKind → IsTokenIn text.now token.now }
    ensures { (value : Option ℤ) → result ≡ part_of (kind_of (bytes_of text.now token.now) value token.now.kind) }
{
    match token.kind {
        Kind::Name => Part::Name(name_of(text, token)),
        _ => symbol_part(symbol_of(token)),
    }
}

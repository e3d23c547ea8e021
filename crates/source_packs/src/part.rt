//! What the search for groups sees of a token.

ghost use Rattle.std.specs.Prelude.{◌≡◌, ◌<◌, ◌^◌, ℕ, List, length};
ghost use Rattle.source_grammar.specs.Symbols.{op_of, symbol_kind};
ghost use Rattle.lang_tokens.specs.declared.token.Kind.TheVariants.{Name as NameKind};
ghost use Rattle.source_tokens.specs.Constants.{constant_at};
ghost use Rattle.source_tokens.specs.Texts.{IsTokenIn};
ghost use Rattle.source_tokens.specs.View.{bytes_of, kind_of};
ghost use Rattle.source_packs.specs.Shapes.{position};
ghost use Rattle.source_packs.specs.Parts.{number_part, op_part, part_of};

use lang_tokens::{Kind, Token};
use lang_tree::Name;
use source_grammar::{Op, Symbol};
use source_tokens::{Definition, bytes_of, constant_of, symbol_of};

/// A token by what it does to groups.
#[derive(Clone, Copy)]
pub enum Part {
    /// The name of the variable of this number.
    Variable(u32),
    /// Another name.
    Name,
    Compare,
    /// `&&`, `||` or `?`.
    Separator,
    Colon,
    Comma,
    Semicolon,
    Change,
    Step,
    LeftParen,
    RightParen,
    LeftBrace,
    RightBrace,
    LeftBracket,
    RightBracket,
    /// `int`, or `const` before it.
    Declares,
    If,
    Else,
    While,
    Do,
    For,
    Other,
}

// The place of a name among others.
fn position(name: &[u8], names: &[Name]) -> Option<u32>
    requires { length names.now < 2 ^ 32 }
    ensures { result ≡ position name.now names.now }
{
    let mut number = 0;
    for other in names {
        if name == other.bytes() {
            return Some(number);
        }
        number += 1;
    }
    None
}

// A name that is the variable of this number, if it is one.
fn number_part(number: Option<u32>) -> Part
    ensures { result ≡ number_part number }
{
    match number {
        Some(number) => Part::Variable(number),
        None => Part::Name,
    }
}

// A sign between two sides.
fn op_part(op: Op) -> Part
    ensures { result ≡ op_part (op_of op) }
{
    match op {
        Op::Or | Op::And => Part::Separator,
        Op::Compare(_) => Part::Compare,
        _ => Part::Other,
    }
}

// A symbol that is no name.
fn symbol_part(symbol: Symbol) -> Part
    ensures { (symbol ≡ Symbol.Name → ⊥) → (names : List (List ℕ)) → result ≡ part_of names (symbol_kind symbol) }
{
    match symbol {
        Symbol::Infix(op) => op_part(op),
        Symbol::Question => Part::Separator,
        Symbol::Colon => Part::Colon,
        Symbol::LeftParen => Part::LeftParen,
        Symbol::RightParen => Part::RightParen,
        Symbol::LeftBrace => Part::LeftBrace,
        Symbol::RightBrace => Part::RightBrace,
        Symbol::LeftBracket => Part::LeftBracket,
        Symbol::RightBracket => Part::RightBracket,
        Symbol::Comma => Part::Comma,
        Symbol::Semicolon => Part::Semicolon,
        Symbol::Change(_) => Part::Change,
        Symbol::Step(_) => Part::Step,
        Symbol::Int | Symbol::Const => Part::Declares,
        Symbol::If => Part::If,
        Symbol::Else => Part::Else,
        Symbol::While => Part::While,
        Symbol::Do => Part::Do,
        Symbol::For => Part::For,
        _ => Part::Other,
    }
}

// A name that stands at a place.
fn name_part(constants: &[Definition], names: &[Name], name: &[u8], at: u32) -> Part
    requires { length names.now < 2 ^ 32 }
    ensures { result ≡ part_of names.now (kind_of name.now (constant_at constants.now name.now at) NameKind) }
{
    match constant_of(constants, name, at) {
        Some(_) => Part::Name,
        None => number_part(position(name, names)),
    }
}

/// What the search sees of a token of a text, of the variables with these names, whatever its number.
pub fn part_seen(text: &[u8], constants: &[Definition], names: &[Name], token: &Token) -> Part
    requires token { token.now.kind ≡ NameKind → IsTokenIn text.now token.now }
    requires few { length names.now < 2 ^ 32 }
    ensures { result ≡ part_of names.now (kind_of (bytes_of text.now token.now)
        (constant_at constants.now (bytes_of text.now token.now) token.now.at) token.now.kind) }
{
    match token.kind {
        Kind::Name => name_part(constants, names, bytes_of(text, token), token.at),
        _ => symbol_part(symbol_of(token)),
    }
}

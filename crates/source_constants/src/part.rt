//! What tokens are to definitions.

ghost use Rattle.std.specs.Prelude.{◌≡◌, IfOk, map};
ghost use Rattle.source_tokens.specs.Texts.{AreTokensIn, IsTokenIn};
ghost use Rattle.source_constants.specs.Parts.{opposite, part_of, sign_part, word_part};

use lang_tokens::{Aside, Kind, Sign, Token, Word};
use lang_tree::Name;
use source_tokens::name_of;
use std::alloc::{AllocError, Global};

/// What a token, of a directive or not, is to the definition of a constant (docs/MEANING.md, "Functions of C").
#[derive(Drop)]
pub enum Part {
    /// A name, and how many bytes stand before it.
    Name { name: Name, at: u32 },
    Number(i64),
    Static,
    Const,
    Int,
    Enum,
    Assign,
    Minus,
    Comma,
    Semicolon,
    LeftParen,
    RightParen,
    LeftBrace,
    RightBrace,
    /// Any other token.
    Other,
}

fn sign_part(sign: Sign) -> Part
    ensures { result ≡ sign_part sign }
{
    match sign {
        Sign::Assign => Part::Assign,
        Sign::Minus => Part::Minus,
        Sign::Comma => Part::Comma,
        Sign::Semicolon => Part::Semicolon,
        Sign::LeftParen => Part::LeftParen,
        Sign::RightParen => Part::RightParen,
        Sign::LeftBrace => Part::LeftBrace,
        Sign::RightBrace => Part::RightBrace,
        _ => Part::Other,
    }
}

fn word_part(word: Word) -> Part
    ensures { result ≡ word_part word }
{
    match word {
        Word::Static => Part::Static,
        Word::Const => Part::Const,
        Word::Int => Part::Int,
        Word::Enum => Part::Enum,
        _ => Part::Other,
    }
}

/// What a token is.
pub(crate) fn part_of(text: &[u8], token: &Token) -> Part
    requires { IsTokenIn text.now token.now }
    ensures { result ≡ part_of text.now token.now }
{
    match token.kind {
        Kind::Name | Kind::Aside(Aside::Name) => Part::Name {
            name: name_of(text, token),
            at: token.at,
        },
        Kind::Word(word) | Kind::Aside(Aside::Word(word)) => word_part(word),
        Kind::Number(value) | Kind::Aside(Aside::Number(value)) => Part::Number(value),
        Kind::Sign(sign) | Kind::Aside(Aside::Sign(sign)) => sign_part(sign),
        _ => Part::Other,
    }
}

/// What tokens are, in order.
pub(crate) fn parts_of(
    alloc: Global,
    text: &[u8],
    tokens: &[Token],
) -> Result<Vec<Part>, AllocError>
    requires { AreTokensIn text.now tokens.now }
    ensures { IfOk result (λ parts. parts.items ≡ map (part_of text.now) tokens.now) }
{
    let mut parts = Vec::new(alloc);
    for token in tokens {
        parts.push(part_of(text, token))?;
    }
    Ok(parts)
}

/// The opposite of a number of the text, which is at least 0.
pub(crate) fn opposite(number: i64) -> i64
    ensures { result ≡ opposite number }
{
    if number < 0 { 0 } else { -number }
}

//! What the reading of a transition system sees of a token.

ghost use Rattle.std.specs.Prelude.{◌≡◌};
ghost use Rattle.flow_transitions.specs.AutoSymbols.{sign_symbol, symbol_of};

use lang_tokens::{Kind, Sign, Word};

/// A token's kind, without the bytes of names.
#[derive(Clone, Copy, Debug, PartialEq, Eq)]
pub(crate) enum Symbol {
    Name,
    /// `assume`
    Assume,
    Comma,
    Semicolon,
    Equal,
    LeftParen,
    RightParen,
    LeftBrace,
    RightBrace,
    End,
    /// A token that stands in expressions alone, or nowhere.
    Other,
}

/// The symbol of a token of this kind.
pub(crate) fn symbol_of(kind: Kind) -> Symbol
    ensures { result ≡ symbol_of kind }
{
    match kind {
        Kind::Name => Symbol::Name,
        Kind::Word(Word::Assume) => Symbol::Assume,
        Kind::Sign(sign) => sign_symbol(sign),
        Kind::End => Symbol::End,
        _ => Symbol::Other,
    }
}

/// The symbol of a sign.
fn sign_symbol(sign: Sign) -> Symbol
    ensures { result ≡ sign_symbol sign }
{
    match sign {
        Sign::Comma => Symbol::Comma,
        Sign::Semicolon => Symbol::Semicolon,
        Sign::Assign => Symbol::Equal,
        Sign::LeftParen => Symbol::LeftParen,
        Sign::RightParen => Symbol::RightParen,
        Sign::LeftBrace => Symbol::LeftBrace,
        Sign::RightBrace => Symbol::RightBrace,
        _ => Symbol::Other,
    }
}

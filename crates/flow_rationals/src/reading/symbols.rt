//! The symbols of a text's tokens.

ghost use Rattle.std.specs.Prelude.{◌≡◌, ◌≤◌, ◌+◌, length, map, slice_range, IfOk};
ghost use Rattle.flow_rationals.specs.Symbols.{word_symbol, sign_symbol, symbol_of, symbols_of, AllWithin};

use crate::reading::literal::Literal;
use crate::reading::symbol::Symbol;
use lang_tokens::{Kind, Sign, Token};
use lang_tree::Name;
use std::alloc::{AllocError, Global};

// The symbol of a name with these bytes.
fn word_symbol(bytes: &[u8], at: u32) -> Symbol
    ensures { result ≡ word_symbol bytes.now at }
{
    if bytes == b"max".as_slice() {
        return Symbol::Max;
    }
    if bytes == b"min".as_slice() {
        return Symbol::Min;
    }
    match Name::new(bytes) {
        Some(name) => Symbol::Named { name, at },
        None => Symbol::Other,
    }
}

// The symbol of a sign.
fn sign_symbol(sign: Sign, at: u32) -> Symbol
    ensures { result ≡ sign_symbol sign at }
{
    match sign {
        Sign::Minus => Symbol::Minus { at },
        Sign::Plus => Symbol::Plus,
        Sign::Star => Symbol::Star,
        Sign::Colon => Symbol::Colon,
        Sign::Comma => Symbol::Comma,
        Sign::Semicolon => Symbol::Semicolon,
        Sign::Assign => Symbol::Equal,
        Sign::LeftParen => Symbol::LeftParen,
        Sign::RightParen => Symbol::RightParen,
        _ => Symbol::Other,
    }
}

// The symbol of a token of this text.
fn symbol_of(text: &[u8], token: Token) -> Symbol
    requires { token.at + token.len ≤ length text.now }
    ensures { result ≡ symbol_of text.now token }
{
    match token.kind {
        Kind::Name => {
            let from = token.at as usize;
            word_symbol(&text[from..from + token.len as usize], token.at)
        }
        Kind::Number(value) => Symbol::Number {
            value: Literal::new(value),
            at: token.at,
        },
        Kind::Sign(sign) => sign_symbol(sign, token.at),
        Kind::End => Symbol::End,
        Kind::Word(_) | Kind::Foreign(_) | Kind::Aside(_) => Symbol::Other,
    }
}

/// The symbols of the tokens of this text.
pub(crate) fn symbols_of(
    alloc: Global,
    text: &[u8],
    tokens: &[Token],
) -> Result<Vec<Symbol>, AllocError>
    requires { AllWithin text.now tokens.now }
    ensures { IfOk result (λ symbols. symbols.items ≡ symbols_of text.now tokens.now) }
{
    let mut symbols = Vec::with_capacity(alloc, tokens.len())?;
    for token in tokens {
        symbols.push(symbol_of(text, *token))?;
    }
    Ok(symbols)
}

//! One token of a text at a time.

ghost use Rattle.std.specs.Prelude.{◌≡◌, ◌≢◌, ◌<◌, ◌+◌, ◌≤◌, IfOk, IfErr, IsTrue, length, slice_get, slice_range, Err, Some};
ghost use Rattle.lang_tree.specs.Word.{is_word};
ghost use Rattle.flow_transitions.specs.AutoSymbols.{IsSource, seen_at};
ghost use Rattle.flow_transitions.specs.AutoReading.{Progress, Stand, going, unexpected_fault, word_then};

use crate::fault::AutoFault;
use crate::reading::symbol::{Symbol, symbol_of};
use lang_parser::ParseFault;
use lang_tokens::{Token, line_of};
use lang_tree::Name;

/// The token of this number.
pub(crate) fn token(tokens: &[Token], at: u32) -> Token
    requires { at < length tokens.now }
    ensures { slice_get tokens.now at ≡ Some result }
{
    tokens[at as usize]
}

/// The symbol of the token of this number.
pub(crate) fn symbol(text: &[u8], tokens: &[Token], at: u32) -> Symbol
    requires source { IsSource text.now tokens.now }
    requires at { at < length tokens.now }
    ensures symbol { result ≡ (seen_at text.now tokens.now at).symbol }
    ensures next { result ≢ Symbol.End → at + 1 < length tokens.now }
{
    symbol_of(token(tokens, at).kind)
}

/// How many bytes stand before the token of this number.
pub(crate) fn place(text: &[u8], tokens: &[Token], at: u32) -> u32
    requires { at < length tokens.now }
    ensures { result ≡ (seen_at text.now tokens.now at).at }
{
    token(tokens, at).at
}

/// The line of the token of this number.
pub(crate) fn line(text: &[u8], tokens: &[Token], at: u32) -> u32
    requires source { IsSource text.now tokens.now }
    requires at { at < length tokens.now }
    ensures { result ≡ (seen_at text.now tokens.now at).line }
{
    line_of(text, token(tokens, at).at)
}

/// The fault that the token of this number can't stand in its place.
pub(crate) fn unexpected(text: &[u8], tokens: &[Token], at: u32) -> AutoFault
    requires { at < length tokens.now }
    ensures { result ≡ unexpected_fault (seen_at text.now tokens.now at) }
{
    AutoFault::Parse(ParseFault::Unexpected {
        at: place(text, tokens, at),
    })
}

/// The name that stands there.
pub(crate) fn name(text: &[u8], tokens: &[Token], at: u32) -> Result<Name, AutoFault>
    requires source { IsSource text.now tokens.now }
    requires at { at < length tokens.now }
    ensures bytes { IfOk result (λ name. name ≡ (seen_at text.now tokens.now at).bytes) }
    ensures symbol { IfOk result (λ _. (seen_at text.now tokens.now at).symbol ≡ Symbol.Name) }
    ensures next { IfOk result (λ _. at + 1 < length tokens.now) }
    ensures fault { IfErr result (λ fault. fault ≡ unexpected_fault (seen_at text.now tokens.now at)) }
    ensures other { IfErr result (λ _. (seen_at text.now tokens.now at).symbol ≢ Symbol.Name) }
{
    if symbol(text, tokens, at) == Symbol::Name {
        Ok(name_of(text, token(tokens, at)))
    } else {
        Err(unexpected(text, tokens, at))
    }
}

/// The name that a token spells.
fn name_of(text: &[u8], token: Token) -> Name
    requires within { token.at + token.len ≤ length text.now }
    requires word { IsTrue (is_word (slice_range text.now token.at (token.at + token.len))) }
    ensures { result ≡ slice_range text.now token.at (token.at + token.len) }
{
    let from = token.at as usize;
    Name::new(&text[from..from + token.len as usize]).unwrap()
}

/// Whether this sign stands there.
pub(crate) fn sign(text: &[u8], tokens: &[Token], at: u32, wanted: Symbol) -> Result<(), AutoFault>
    requires source { IsSource text.now tokens.now }
    requires at { at < length tokens.now }
    requires wanted { wanted ≢ Symbol.End }
    ensures symbol { IfOk result (λ _. (seen_at text.now tokens.now at).symbol ≡ wanted) }
    ensures next { IfOk result (λ _. at + 1 < length tokens.now) }
    ensures fault { IfErr result (λ fault. fault ≡ unexpected_fault (seen_at text.now tokens.now at)) }
    ensures other { IfErr result (λ _. (seen_at text.now tokens.now at).symbol ≢ wanted) }
{
    if symbol(text, tokens, at) == wanted {
        Ok(())
    } else {
        Err(unexpected(text, tokens, at))
    }
}

/// Whether the name with these bytes stands there.
pub(crate) fn word(text: &[u8], tokens: &[Token], at: u32, bytes: &[u8]) -> Result<(), AutoFault>
    requires source { IsSource text.now tokens.now }
    requires at { at < length tokens.now }
    ensures reads { IfOk result (λ _. (r : Progress) (stand : Stand) →
        word_then bytes.now stand r (seen_at text.now tokens.now at) ≡ going r stand) }
    ensures next { IfOk result (λ _. at + 1 < length tokens.now) }
    ensures fault { IfErr result (λ fault. fault ≡ unexpected_fault (seen_at text.now tokens.now at)) }
    ensures other { IfErr result (λ fault. (r : Progress) (stand : Stand)
        → word_then bytes.now stand r (seen_at text.now tokens.now at) ≡ Err fault) }
{
    let name = name(text, tokens, at)?;
    if name.bytes() == bytes {
        Ok(())
    } else {
        Err(unexpected(text, tokens, at))
    }
}

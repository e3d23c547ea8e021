//! How many variables a function declares.

ghost use Rattle.std.specs.Prelude.{◌≡◌, ◌≤◌, ◌<◌, ◌+◌, ◌^◌, [], ℕ, List, IfOk};
ghost use Rattle.source_grammar.specs.Grammar.{Function, Reads};
ghost use Rattle.source_grammar.specs.Symbols.{symbol_kind};
ghost use Rattle.source_meaning.specs.Walk.{distinct, width_of};
ghost use Rattle.source_tokens.specs.Texts.{AreTokensIn};
ghost use Rattle.source_tokens.specs.declared.definition.Definition.{Definition};
ghost use Rattle.source_tokens.specs.View.{tokens_of};
ghost use Rattle.source_file.specs.Width.{begins_bracket, behind, closed, declared_from, declaring, depth_of, elsewhere, in_heading, names};
ghost use Rattle.source_file.specs.Width.{next, parted};

use indexmap::IndexSet;
use lang_tokens::{Kind, Sign, Token};
use lang_tree::MOST_VARIABLES;
use source_grammar::{Op, Symbol};
use source_tokens::{bytes_of, symbol_of};
use std::alloc::{AllocError, Global};

/// Where a token of a function stands.
#[derive(Clone, Copy)]
pub(crate) enum Place {
    /// Before the function's parameters.
    Heading,
    /// In no declaration.
    Elsewhere,
    /// Before a name that is declared.
    Declaring,
    /// Behind that name, in so many brackets.
    Behind(usize),
}

// Behind a bracket that closes in so many others.
fn closed(depth: usize) -> Place
    ensures place { result ≡ closed depth }
    ensures depth { depth_of result ≤ depth }
{
    if depth == 0 {
        Place::Elsewhere
    } else {
        Place::Behind(depth - 1)
    }
}

// Behind a comma in so many brackets.
fn parted(depth: usize) -> Place
    ensures place { result ≡ parted depth }
    ensures depth { depth_of result ≤ depth }
{
    if depth == 0 {
        Place::Declaring
    } else {
        Place::Behind(depth)
    }
}

// Behind a token that stands behind a declared name, in so many brackets.
fn behind(symbol: Symbol, depth: usize) -> Place
    requires { depth < 2 ^ 63 }
    ensures place { result ≡ behind (symbol_kind symbol) depth }
    ensures depth { depth_of result ≤ depth + 1 }
{
    match symbol {
        Symbol::LeftParen | Symbol::LeftBracket | Symbol::LeftBrace => Place::Behind(depth + 1),
        Symbol::RightParen | Symbol::RightBracket | Symbol::RightBrace => closed(depth),
        Symbol::Comma => parted(depth),
        Symbol::Semicolon => Place::Elsewhere,
        _ => Place::Behind(depth),
    }
}

// Behind a token that stands before the parameters.
fn in_heading(symbol: Symbol) -> Place
    ensures place { result ≡ in_heading (symbol_kind symbol) }
    ensures depth { depth_of result ≡ 0 }
{
    match symbol {
        Symbol::LeftParen => Place::Elsewhere,
        _ => Place::Heading,
    }
}

// Behind a token that stands in no declaration.
fn elsewhere(symbol: Symbol) -> Place
    ensures place { result ≡ elsewhere (symbol_kind symbol) }
    ensures depth { depth_of result ≡ 0 }
{
    match symbol {
        Symbol::Int => Place::Declaring,
        _ => Place::Elsewhere,
    }
}

// Behind a token that stands before a declared name, which a `*` makes an array.
fn declaring(symbol: Symbol) -> Place
    ensures place { result ≡ declaring (symbol_kind symbol) }
    ensures depth { depth_of result ≡ 0 }
{
    match symbol {
        Symbol::Int | Symbol::Const => Place::Declaring,
        Symbol::Name | Symbol::Infix(Op::Times) => Place::Behind(0),
        _ => Place::Elsewhere,
    }
}

// Behind a token at a place.
fn next(place: Place, symbol: Symbol) -> Place
    requires { depth_of place < 2 ^ 63 }
    ensures place { result ≡ next place (symbol_kind symbol) }
    ensures depth { depth_of result ≤ depth_of place + 1 }
{
    match place {
        Place::Heading => in_heading(symbol),
        Place::Elsewhere => elsewhere(symbol),
        Place::Declaring => declaring(symbol),
        Place::Behind(depth) => behind(symbol, depth),
    }
}

// Whether the token is a name that is declared there.
fn names(place: Place, symbol: Symbol) -> bool
    ensures { result ≡ names place (symbol_kind symbol) }
{
    matches!((place, symbol), (Place::Declaring, Symbol::Name))
}

// Whether the first of these tokens is a `[`.
fn begins_bracket(tokens: &[Token]) -> bool
    ensures { (text : List ℕ) → result ≡ begins_bracket (tokens_of [] text tokens.now) }
{
    match tokens {
        [token, ..] => matches!(token.kind, Kind::Sign(Sign::LeftBracket)),
        [] => false,
    }
}

// How many variables these tokens declare, each name counted once.
fn counted(alloc: Global, text: &[u8], tokens: &[Token]) -> Result<usize, AllocError>
    requires { AreTokensIn text.now tokens.now }
    ensures { IfOk result (λ n. n ≡ distinct [] (declared_from Place.Heading (tokens_of [] text.now tokens.now))) }
{
    let mut place = Place::Heading;
    let mut before = IndexSet::new(alloc);
    for (index, token) in tokens.iter().enumerate() {
        let symbol = symbol_of(token);
        if names(place, symbol) && !begins_bracket(&tokens[index + 1..]) {
            before.insert(Vec::from_slice(alloc, bytes_of(text, token))?)?;
        }
        place = next(place, symbol);
    }
    Ok(before.len())
}

/// How many variables a function declares, at most `MOST_VARIABLES`: the hidden ones are numbered from there on.
pub(crate) fn width(alloc: Global, text: &[u8], tokens: &[Token]) -> Result<u32, AllocError>
    requires { AreTokensIn text.now tokens.now }
    ensures { IfOk result (λ n. (definitions : List Definition) (f : Function) → Reads (tokens_of definitions text.now tokens.now) f
        → n ≡ width_of f) }
{
    let count = counted(alloc, text, tokens)?;
    Ok(count.min(MOST_VARIABLES) as u32)
}

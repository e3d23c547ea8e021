//! The directives of a file, and what they define.

ghost use Rattle.std.specs.Prelude.{◌≡◌, ◌≤◌, ◌+◌, ℕ, List, codes, length, IfOk, OnOk, ◌++◌};
ghost use Rattle.base_limits.specs.declared.limits.TheConstants.{MOST_PROGRAM_BYTES};
ghost use Rattle.source_tokens.specs.Texts.{AreTokensIn, IsNaming, IsTokenIn};
ghost use Rattle.source_constants.specs.Directives.{all_defined, asides_of, by_directives, code_of, defined_by, has_parameters, included};
ghost use Rattle.source_constants.specs.Directives.{is_code, is_hash};
ghost use Rattle.source_constants.specs.Directives.{is_limits, is_paren, is_spelled, is_word, limits, limits_at, number_behind};
ghost use Rattle.source_constants.specs.Directives.{number_of, replaced, stands_for};
ghost use Rattle.source_constants.specs.Directives.{len_to_hash, width_of};

use crate::part::{Part, opposite, parts_of};
use base_integers::{Integers, Width};
use lang_tokens::{Aside, Kind, Sign, Token};
use lang_tree::Name;
use source_tokens::{Definition, bytes_of, name_of};
use std::alloc::{AllocError, Global};

// Whether tokens of this kind stand in no directive.
fn is_code(kind: Kind) -> bool
    ensures { result ≡ is_code kind }
{
    !matches!(kind, Kind::Aside(_))
}

/// The tokens that stand in no directive.
pub fn code_of(alloc: Global, tokens: &[Token]) -> Result<Vec<Token>, AllocError>
    ensures { IfOk result (λ code. code.items ≡ code_of tokens.now) }
{
    let mut code = Vec::new(alloc);
    for token in tokens {
        if is_code(token.kind) {
            code.push(*token)?;
        }
    }
    Ok(code)
}

// Those that stand in one.
fn asides_of(alloc: Global, tokens: &[Token]) -> Result<Vec<Token>, AllocError>
    ensures { IfOk result (λ asides. asides.items ≡ asides_of tokens.now) }
{
    let mut asides = Vec::new(alloc);
    for token in tokens {
        if !is_code(token.kind) {
            asides.push(*token)?;
        }
    }
    Ok(asides)
}

// Whether a token of this kind is the `#` that begins a directive.
fn is_hash(kind: Kind) -> bool
    ensures { result ≡ is_hash kind }
{
    matches!(kind, Kind::Aside(Aside::Hash))
}

// How many tokens stand before the next directive.
fn len_to_hash(tokens: &[Token]) -> usize
    ensures len { result ≡ len_to_hash tokens.now }
    ensures within { result ≤ length tokens.now }
{
    for (index, token) in tokens.iter().enumerate() {
        if is_hash(token.kind) {
            return index;
        }
    }
    tokens.len()
}

// The number that these parts are.
fn number_of(parts: &[Part]) -> Option<i64>
    ensures { result ≡ number_of parts.now }
{
    match parts {
        [Part::Number(number)] => Some(*number),
        [Part::Minus, Part::Number(number)] => Some(opposite(*number)),
        [Part::LeftParen, Part::Number(number), Part::RightParen] => Some(*number),
        [
            Part::LeftParen,
            Part::Minus,
            Part::Number(number),
            Part::RightParen,
        ] => Some(opposite(*number)),
        _ => None,
    }
}

// Whether a token of this kind of a directive is a `(`.
fn is_paren(kind: Kind) -> bool
    ensures { result ≡ is_paren kind }
{
    matches!(kind, Kind::Aside(Aside::Sign(Sign::LeftParen)))
}

// Whether a `(` stands at once behind a name that ends at this place.
fn has_parameters(end: usize, tokens: &[Token]) -> bool
    ensures { result ≡ has_parameters end tokens.now }
{
    match tokens {
        [first, ..] => is_paren(first.kind) && first.at as usize == end,
        [] => false,
    }
}

// The number that a name stands for that ends at this place, with these tokens behind it.
fn number_behind(
    alloc: Global,
    text: &[u8],
    end: usize,
    tokens: &[Token],
) -> Result<Option<i64>, AllocError>
    requires { AreTokensIn text.now tokens.now }
    ensures { IfOk result (λ number. number ≡ number_behind text.now end tokens.now) }
{
    if has_parameters(end, tokens) {
        return Ok(None);
    }
    let parts = parts_of(alloc, text, tokens)?;
    Ok(number_of(parts.as_slice()))
}

// The definition of a word for this number, or for none.
fn stands_for(text: &[u8], word: &Token, value: Option<i64>) -> Definition
    requires token { IsTokenIn text.now word.now }
    requires name { IsNaming word.now.kind }
    ensures { result ≡ stands_for text.now word.now value }
{
    Definition {
        name: name_of(text, word),
        at: word.at,
        value,
        by_item: false,
    }
}

// Adds what `define` makes of a token, with these behind it.
fn add_replaced(
    alloc: Global,
    text: &[u8],
    word: &Token,
    tokens: &[Token],
    list: &mut Vec<Definition>,
) -> Result<(), AllocError>
    requires token { IsTokenIn text.now word.now }
    requires tokens { AreTokensIn text.now tokens.now }
    ensures { OnOk result (list.new.items ≡ list.old.items ++ replaced text.now word.now tokens.now) }
{
    match word.kind {
        Kind::Aside(Aside::Name) => {
            let end = word.at as usize + word.len as usize;
            let number = number_behind(alloc, text, end, tokens)?;
            list.push(stands_for(text, word, number))?;
        }
        Kind::Aside(Aside::Word(_)) => list.push(stands_for(text, word, None))?,
        _ => {}
    }
    Ok(())
}

// The integers whose limits a file may ask for.
fn width_of(integers: Integers) -> Width
    ensures { result ≡ width_of integers }
{
    match integers {
        Integers::Mathematical => Width::Bits32,
        Integers::Machine(width) => width,
    }
}

// Adds the limits of a width.
fn add_limits(width: Width, at: u32, list: &mut Vec<Definition>) -> Result<(), AllocError>
    ensures { OnOk result (list.new.items ≡ list.old.items ++ limits width at) }
{
    let greatest = i64::from(width.greatest());
    list.push(Definition {
        name: Name::new(b"INT_MAX").unwrap(),
        at,
        value: Some(greatest),
        by_item: false,
    })?;
    list.push(Definition {
        name: Name::new(b"INT_MIN").unwrap(),
        at,
        value: Some(-greatest - 1),
        by_item: false,
    })?;
    Ok(())
}

// Whether the word of a directive is this one.
fn is_word(text: &[u8], token: &Token, word: &[u8]) -> bool
    requires { IsTokenIn text.now token.now }
    ensures { result ≡ is_word text.now token.now word.now }
{
    bytes_of(text, token) == word
}

// Whether the text is this from the first of two tokens to the second.
fn is_spelled(text: &[u8], first: &Token, last: &Token, bytes: &[u8]) -> bool
    requires last { IsTokenIn text.now last.now }
    requires some { 1 ≤ length bytes.now }
    ensures { result ≡ is_spelled text.now first.now last.now bytes.now }
{
    let from = first.at as usize;
    let to = last.at as usize + last.len as usize;
    from <= to && &text[from..to] == bytes
}

// Whether these are `include`, and the text of `<limits.h>` from a token to another.
fn is_limits(text: &[u8], word: &Token, first: &Token, last: &Token) -> bool
    requires word { IsTokenIn text.now word.now }
    requires last { IsTokenIn text.now last.now }
    ensures { result ≡ is_limits text.now word.now first.now last.now }
{
    is_word(text, word, b"include") && is_spelled(text, first, last, b"<limits.h>")
}

// The place of `<limits.h>`, at once and alone behind `include`.
fn limits_at(text: &[u8], tokens: &[Token]) -> Option<u32>
    requires { AreTokensIn text.now tokens.now }
    ensures { result ≡ limits_at text.now tokens.now }
{
    match tokens {
        [word, first, _, _, _, last] => {
            if is_limits(text, word, first, last) {
                Some(first.at)
            } else {
                None
            }
        }
        _ => None,
    }
}

// Adds what `include` defines.
fn add_included(
    text: &[u8],
    tokens: &[Token],
    integers: Integers,
    list: &mut Vec<Definition>,
) -> Result<(), AllocError>
    requires { AreTokensIn text.now tokens.now }
    ensures { OnOk result (list.new.items ≡ list.old.items ++ included integers text.now tokens.now) }
{
    match limits_at(text, tokens) {
        Some(at) => add_limits(width_of(integers), at, list),
        None => Ok(()),
    }
}

// Adds what a directive with these tokens behind its `#` defines.
fn add_defined(
    alloc: Global,
    text: &[u8],
    tokens: &[Token],
    integers: Integers,
    list: &mut Vec<Definition>,
) -> Result<(), AllocError>
    requires { AreTokensIn text.now tokens.now }
    ensures { OnOk result (list.new.items ≡ list.old.items ++ defined_by integers text.now tokens.now) }
{
    match tokens {
        [word, name, rest @ ..] => {
            if is_word(text, word, b"define") {
                add_replaced(alloc, text, name, rest, list)
            } else {
                add_included(text, tokens, integers, list)
            }
        }
        _ => Ok(()),
    }
}

// Adds what directives define whose tokens these are.
fn add_all(
    alloc: Global,
    text: &[u8],
    asides: &[Token],
    integers: Integers,
    list: &mut Vec<Definition>,
) -> Result<(), AllocError>
    requires { AreTokensIn text.now asides.now }
    ensures { OnOk result (list.new.items ≡ list.old.items ++ all_defined integers text.now asides.now) }
{
    for (index, token) in asides.iter().enumerate() {
        if is_hash(token.kind) {
            let behind = &asides[index + 1..];
            add_defined(alloc, text, &behind[..len_to_hash(behind)], integers, list)?;
        }
    }
    Ok(())
}

/// What the directives among tokens define, in order.
pub(crate) fn by_directives(
    alloc: Global,
    text: &[u8],
    tokens: &[Token],
    integers: Integers,
) -> Result<Vec<Definition>, AllocError>
    requires { AreTokensIn text.now tokens.now }
    ensures { IfOk result (λ list. list.items ≡ by_directives integers text.now tokens.now) }
{
    let asides = asides_of(alloc, tokens)?;
    let mut list = Vec::new(alloc);
    add_all(alloc, text, asides.as_slice(), integers, &mut list)?;
    Ok(list)
}

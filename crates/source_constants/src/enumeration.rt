//! The constants of an enumeration.

ghost use Rattle.std.specs.Prelude.{◌≡◌, ◌≤◌, length, pos, Some, IfOk};
ghost use Rattle.std.specs.Option.{option_map};
ghost use Rattle.source_constants.specs.Enumerations.{behind, behind_head, counted, defined_as, enumerator, inside_len, inside_of};
ghost use Rattle.source_constants.specs.Enumerations.{is_closing};
ghost use Rattle.source_constants.specs.Enumerations.{is_comma, is_end, made, next_behind, of_enumeration, parted};
ghost use Rattle.std.specs.Option.{option_copied};

use crate::part::{Part, opposite};
use lang_tree::Name;
use source_tokens::Definition;
use std::alloc::{AllocError, Global};

/// An enumerator: its name, how many bytes stand before it, and the value that is given for it.
#[derive(Drop)]
pub(crate) struct Enumerator {
    pub name: Name,
    pub at: u32,
    pub given: Option<i64>,
}

// What stands behind `enum {` or `enum NAME {`.
fn behind_head(parts: &[Part]) -> Option<&[Part]>
    ensures { option_copied result ≡ behind_head parts.now }
{
    match parts {
        [Part::Enum, Part::LeftBrace, rest @ ..] => Some(rest),
        [Part::Enum, Part::Name { .. }, Part::LeftBrace, rest @ ..] => Some(rest),
        _ => None,
    }
}

// Whether it is a `}`.
fn is_closing(part: &Part) -> bool
    ensures { result ≡ is_closing part.now }
{
    matches!(part, Part::RightBrace)
}

// Whether it is a `,`.
fn is_comma(part: &Part) -> bool
    ensures { result ≡ is_comma part.now }
{
    matches!(part, Part::Comma)
}

// Whether these are `};` and nothing more.
fn is_end(parts: &[Part]) -> bool
    ensures { result ≡ is_end parts.now }
{
    matches!(parts, [Part::RightBrace, Part::Semicolon])
}

// How many parts stand before the first `}`.
fn inside_len(parts: &[Part]) -> usize
    ensures len { result ≡ inside_len parts.now }
    ensures within { result ≤ length parts.now }
{
    for (index, part) in parts.iter().enumerate() {
        if is_closing(part) {
            return index;
        }
    }
    parts.len()
}

// What stands before the first `}`, where `};` ends it.
fn inside_of(parts: &[Part]) -> Option<&[Part]>
    ensures { option_copied result ≡ inside_of parts.now }
{
    let len = inside_len(parts);
    if is_end(&parts[len..]) {
        Some(&parts[..len])
    } else {
        None
    }
}

fn with_value(name: &Name, at: u32, given: Option<i64>) -> Enumerator
    ensures name { result.name ≡ name.now }
    ensures at { result.at ≡ at }
    ensures given { result.given ≡ given }
{
    Enumerator {
        name: name.again(),
        at,
        given,
    }
}

// The enumerator that these parts are.
fn enumerator_of(parts: &[Part]) -> Option<Enumerator>
    ensures { result ≡ enumerator parts.now }
{
    match parts {
        [Part::Name { name, at }] => Some(with_value(name, *at, None)),
        [Part::Name { name, at }, Part::Assign, Part::Number(number)] => Some(with_value(
            name,
            *at,
            Some(*number),
        )),
        [
            Part::Name { name, at },
            Part::Assign,
            Part::Minus,
            Part::Number(number),
        ] => { Some(with_value(name, *at, Some(opposite(*number)))) }
        _ => None,
    }
}

// The integer that comes next.
fn behind(value: i64) -> Option<i64>
    ensures { result ≡ behind value }
{
    if value < i64::MAX {
        Some(value + 1)
    } else {
        None
    }
}

// What an enumerator defines of this value.
fn made(enumerator: &Enumerator, value: i64) -> Definition
    ensures { result ≡ made enumerator.now value }
{
    Definition {
        name: enumerator.name.again(),
        at: enumerator.at,
        value: Some(value),
        by_item: true,
    }
}

// The integer that comes next behind a value that may be absent.
fn next_behind(value: Option<i64>) -> Option<i64>
    ensures { result ≡ next_behind value }
{
    match value {
        Some(value) => behind(value),
        None => None,
    }
}

// What these parts define as an enumerator, where this value comes next.
fn defined_as(next: Option<i64>, parts: &[Part]) -> Option<Definition>
    ensures { result ≡ defined_as next parts.now }
{
    let enumerator = enumerator_of(parts)?;
    let value = match enumerator.given {
        Some(value) => Some(value),
        None => next,
    };
    Some(made(&enumerator, value?))
}

// What the parts inside of the braces define.
fn counted(alloc: Global, inside: &[Part]) -> Result<Option<Vec<Definition>>, AllocError>
    ensures { IfOk result (λ found. option_map (λ ds. ds.items) found ≡ counted (Some (pos 0)) (parted inside.now)) }
{
    let mut list = Vec::new(alloc);
    let mut next = Some(0);
    let mut first = 0;
    for (index, part) in inside.iter().enumerate() {
        if is_comma(part) {
            let Some(definition) = defined_as(next, &inside[first..index]) else {
                return Ok(None);
            };
            next = next_behind(definition.value);
            list.push(definition)?;
            first = index + 1;
        }
    }
    if first < inside.len() {
        let Some(definition) = defined_as(next, &inside[first..]) else {
            return Ok(None);
        };
        list.push(definition)?;
    }
    Ok(Some(list))
}

/// What an enumeration defines, if the parts are one.
pub(crate) fn of_enumeration(
    alloc: Global,
    parts: &[Part],
) -> Result<Option<Vec<Definition>>, AllocError>
    ensures { IfOk result (λ found. option_map (λ ds. ds.items) found ≡ of_enumeration parts.now) }
{
    let Some(body) = behind_head(parts) else {
        return Ok(None);
    };
    match inside_of(body) {
        Some(inside) => counted(alloc, inside),
        None => Ok(None),
    }
}

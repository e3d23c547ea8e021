//! What the items of a file define.

ghost use Rattle.std.specs.Prelude.{◌≡◌, ◌≤◌, ◌++◌, All, length, IfOk, OnOk};
ghost use Rattle.std.specs.List.{list_any};
ghost use Rattle.source_tokens.specs.Texts.{AreTokensIn, IsTokenIn};
ghost use Rattle.source_constants.specs.Enumerations.{of_enumeration};
ghost use Rattle.source_constants.specs.Items.{IsItemOf, behind_static, by_const, by_items, defined_in, is_macro, is_no_number};
ghost use Rattle.source_constants.specs.Items.{item_tokens, of_const};
ghost use Rattle.source_constants.specs.Items.{of_item};

use crate::enumeration::of_enumeration;
use crate::part::{Part, opposite, parts_of};
use lang_tokens::Token;
use lang_tree::Name;
use source_items::Item;
use source_tokens::{Definition, bytes_of, defined_of};
use std::alloc::{AllocError, Global};

/// Whether a token of a text is a word that is a macro at its place, by these definitions of the file
/// (docs/MEANING.md, "Functions of C").
pub fn is_macro(definitions: &[Definition], text: &[u8], token: &Token) -> bool
    requires { IsTokenIn text.now token.now }
    ensures { result ≡ is_macro definitions.now text.now token.now }
{
    match defined_of(definitions, bytes_of(text, token), token.at) {
        Some(definition) => definition.value.is_none(),
        None => false,
    }
}

// What stands behind `static`, or all.
fn behind_static(parts: &[Part]) -> &[Part]
    ensures { result.now ≡ behind_static parts.now }
{
    match parts {
        [Part::Static, rest @ ..] => rest,
        _ => parts,
    }
}

// What `const int` with this name and this number defines.
fn by_const(name: &Name, at: u32, number: i64) -> Definition
    ensures { result ≡ by_const name.now at number }
{
    Definition {
        name: name.again(),
        at,
        value: Some(number),
        by_item: true,
    }
}

// What `const int` defines with a name, and a number that is given.
fn of_const(parts: &[Part]) -> Option<Definition>
    ensures { result ≡ of_const parts.now }
{
    match parts {
        [
            Part::Const,
            Part::Int,
            Part::Name { name, at },
            Part::Assign,
            Part::Number(number),
            Part::Semicolon,
        ] => { Some(by_const(name, *at, *number)) }
        [
            Part::Const,
            Part::Int,
            Part::Name { name, at },
            Part::Assign,
            Part::Minus,
            Part::Number(number),
            Part::Semicolon,
        ] => Some(by_const(name, *at, opposite(*number))),
        _ => None,
    }
}

// Adds what an item defines without macros.
fn add_item(alloc: Global, parts: &[Part], list: &mut Vec<Definition>) -> Result<(), AllocError>
    ensures { OnOk result (list.new.items ≡ list.old.items ++ of_item parts.now) }
{
    match of_enumeration(alloc, parts)? {
        Some(mut made) => list.append(&mut made)?,
        None => {
            if let Some(made) = of_const(behind_static(parts)) {
                list.push(made)?;
            }
        }
    }
    Ok(())
}

// Whether one of these tokens is a macro.
fn has_macro(macros: &[Definition], text: &[u8], tokens: &[Token]) -> bool
    requires { AreTokensIn text.now tokens.now }
    ensures { result ≡ list_any (is_macro macros.now text.now) tokens.now }
{
    for token in tokens {
        if is_macro(macros, text, token) {
            return true;
        }
    }
    false
}

// Adds what an item with these tokens defines.
fn add_defined(
    alloc: Global,
    macros: &[Definition],
    text: &[u8],
    tokens: &[Token],
    list: &mut Vec<Definition>,
) -> Result<(), AllocError>
    requires { AreTokensIn text.now tokens.now }
    ensures { OnOk result (list.new.items ≡ list.old.items ++ defined_in macros.now text.now tokens.now) }
{
    if has_macro(macros, text, tokens) {
        return Ok(());
    }
    let parts = parts_of(alloc, text, tokens)?;
    add_item(alloc, parts.as_slice(), list)
}

/// What items define, where directives define these.
pub(crate) fn by_items(
    alloc: Global,
    macros: &[Definition],
    text: &[u8],
    code: &[Token],
    items: &[Item],
) -> Result<Vec<Definition>, AllocError>
    requires tokens { AreTokensIn text.now code.now }
    requires within { All (IsItemOf code.now) items.now }
    ensures { IfOk result (λ list. list.items ≡ by_items macros.now text.now code.now items.now) }
{
    let mut list = Vec::new(alloc);
    for item in items {
        add_defined(alloc, macros, text, &code[item.first..item.end], &mut list)?;
    }
    Ok(list)
}

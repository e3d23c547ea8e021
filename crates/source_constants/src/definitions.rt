//! What a file defines outside its functions.

ghost use Rattle.std.specs.Prelude.{◌≡◌, ◌≤◌, All, [], length, IfOk, OnOk};
ghost use Rattle.std.specs.List.{list_any};
ghost use Rattle.source_tokens.specs.Texts.{AreTokensIn};
ghost use Rattle.source_constants.specs.Definitions.{definitions_of, is_clash, place_in, repeated, with_all_placed, with_placed};
ghost use Rattle.source_constants.specs.Directives.{code_of};
ghost use Rattle.source_constants.specs.Items.{IsItemOf};

use crate::directive::by_directives;
use crate::item::by_items;
use base_integers::Integers;
use lang_tokens::Token;
use source_items::Item;
use source_tokens::Definition;
use std::alloc::{AllocError, Global};

// How many definitions stand before a place, or at it, from the first on.
fn place_in(definitions: &[Definition], at: u32) -> usize
    ensures place { result ≡ place_in at definitions.now }
    ensures within { result ≤ length definitions.now }
{
    for (index, definition) in definitions.iter().enumerate() {
        if at < definition.at {
            return index;
        }
    }
    definitions.len()
}

// Adds a definition in its place.
fn add(definition: Definition, list: &mut Vec<Definition>) -> Result<(), AllocError>
    ensures { OnOk result (list.new.items ≡ with_placed definition list.old.items) }
{
    let index = place_in(list.as_slice(), definition.at);
    list.insert(index, definition)?;
    Ok(())
}

// Adds several in their places.
fn add_all(definitions: Vec<Definition>, list: &mut Vec<Definition>) -> Result<(), AllocError>
    ensures { OnOk result (list.new.items ≡ with_all_placed definitions.items list.old.items) }
{
    for definition in definitions {
        add(definition, list)?;
    }
    Ok(())
}

/// What the directives and the items of a file define, in the order of the text; `code` are its tokens that stand in no directive, and
/// `items` its items (docs/MEANING.md, "Functions of C").
pub fn definitions_of(
    alloc: Global,
    text: &[u8],
    tokens: &[Token],
    code: &[Token],
    items: &[Item],
    integers: Integers,
) -> Result<Vec<Definition>, AllocError>
    requires tokens { AreTokensIn text.now tokens.now }
    requires code { code.now ≡ code_of tokens.now }
    requires within { All (IsItemOf code.now) items.now }
    ensures { IfOk result (λ list. list.items ≡ definitions_of integers text.now tokens.now items.now) }
{
    let mut list = by_directives(alloc, text, tokens, integers)?;
    let made = by_items(alloc, list.as_slice(), text, code, items)?;
    add_all(made, &mut list)?;
    Ok(list)
}

// Whether two definitions make constants of one name, not both by directives.
fn is_clash(one: &Definition, other: &Definition) -> bool
    ensures { result ≡ is_clash one.now other.now }
{
    one.value.is_some()
        && other.value.is_some()
        && (one.by_item || other.by_item)
        && one.name.bytes() == other.name.bytes()
}

// Whether one of these makes a constant of the name of another one.
fn clashes(one: &Definition, definitions: &[Definition]) -> bool
    ensures { result ≡ list_any (is_clash one.now) definitions.now }
{
    for other in definitions {
        if is_clash(one, other) {
            return true;
        }
    }
    false
}

/// The place of the first constant whose name is that of one before it, not both by directives.
pub fn repeated(definitions: &[Definition]) -> Option<u32>
    ensures { result ≡ repeated [] definitions.now }
{
    for (index, definition) in definitions.iter().enumerate() {
        if clashes(definition, &definitions[..index]) {
            return Some(definition.at);
        }
    }
    None
}

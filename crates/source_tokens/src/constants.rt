//! What a name stands for at a place.

ghost use Rattle.std.specs.Prelude.{◌≡◌};
ghost use Rattle.std.specs.Option.{option_copied};
ghost use Rattle.source_tokens.specs.Constants.{constant_at, defined_at, is_before};

use crate::definition::Definition;

// Whether it is one of this name that stands before a place.
fn is_before(name: &[u8], at: u32, definition: &Definition) -> bool
    ensures { result ≡ is_before name.now at definition.now }
{
    name == definition.name.bytes() && definition.at < at
}

/// The last definition of a name, or of a reserved word, before a place, where they stand in the order of the text.
pub fn defined_of<'a>(definitions: &'a [Definition], name: &[u8], at: u32) -> Option<&'a Definition>
    ensures { option_copied result ≡ defined_at definitions.now name.now at }
{
    let mut last = None;
    for definition in definitions {
        if is_before(name, at, definition) {
            last = Some(definition);
        }
    }
    last
}

/// The number that a name stands for at a place, if it is a constant there.
pub fn constant_of(definitions: &[Definition], name: &[u8], at: u32) -> Option<i64>
    ensures { result ≡ constant_at definitions.now name.now at }
{
    match defined_of(definitions, name, at) {
        Some(definition) => definition.value,
        None => None,
    }
}

//! Which function of a file is meant.

ghost use Rattle.std.specs.Prelude.{◌≡◌, IfOk, []};
ghost use Rattle.std.specs.Option.{option_copied};
ghost use Rattle.source_file.specs.Choice.{repeated, named, only, chosen};
ghost use Rattle.source_file.specs.Meaning.{first_place, twice};

use crate::functions::Defined;
use indexmap::IndexSet;
use source_constants::repeated as constant_repeated;
use source_tokens::Definition;
use std::alloc::{AllocError, Global};

// The place of the first name that stood before.
fn repeated(alloc: Global, functions: &[Defined]) -> Result<Option<u32>, AllocError>
    ensures { IfOk result (λ place. place ≡ repeated [] functions.now) }
{
    let mut before = IndexSet::new(alloc);
    for function in functions {
        let name = Vec::from_slice(alloc, function.name.bytes())?;
        if !before.insert(name)? {
            return Ok(Some(function.at));
        }
    }
    Ok(None)
}

// The first of two places.
fn first_place(one: Option<u32>, other: Option<u32>) -> Option<u32>
    ensures { result ≡ first_place one other }
{
    match (one, other) {
        (None, other) => other,
        (Some(at), None) => Some(at),
        (Some(at), Some(other)) => Some(if other < at { other } else { at }),
    }
}

/// The place of the first name of a function or of a constant that stood before.
pub(crate) fn twice(
    alloc: Global,
    functions: &[Defined],
    definitions: &[Definition],
) -> Result<Option<u32>, AllocError>
    ensures { IfOk result (λ place. place ≡ twice functions.now definitions.now) }
{
    let function = repeated(alloc, functions)?;
    Ok(first_place(function, constant_repeated(definitions)))
}

// The first function of this name.
fn named<'a>(name: &[u8], functions: &'a [Defined]) -> Option<&'a Defined>
    ensures { option_copied result ≡ named name.now functions.now }
{
    functions
        .iter()
        .find(|function| name == function.name.bytes())
}

// The only function.
fn only(functions: &[Defined]) -> Option<&Defined>
    ensures { option_copied result ≡ only functions.now }
{
    match functions {
        [function] => Some(function),
        _ => None,
    }
}

/// The function that is asked about by its name; where none is named, `main`, or else the only one.
pub(crate) fn chosen<'a>(asked: Option<&[u8]>, functions: &'a [Defined]) -> Option<&'a Defined>
    ensures { option_copied result ≡ chosen (option_copied asked.entry) functions.now }
{
    match asked {
        Some(name) => named(name, functions),
        None => match named(b"main", functions) {
            Some(function) => Some(function),
            None => only(functions),
        },
    }
}

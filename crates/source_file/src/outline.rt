//! What a file is outside its functions, and which these are.

ghost use Rattle.std.specs.Prelude.{◌≡◌, ◌≤◌, ℕ, List, Option, length, Err, IfOk, IfErr};
ghost use Rattle.base_integers.specs.declared.integers.Integers.TheVariants.{Mathematical};
ghost use Rattle.base_limits.specs.declared.limits.TheConstants.{MOST_PROGRAM_BYTES};
ghost use Rattle.source_items.specs.Divisions.{Finds, divided, unexpected};
ghost use Rattle.source_tokens.specs.Texts.{AreTokensIn};
ghost use Rattle.source_tokens.specs.View.{marks_of};
ghost use Rattle.source_constants.specs.Directives.{code_of};
ghost use Rattle.source_file.specs.Choice.{chosen};
ghost use Rattle.source_file.specs.Meaning.{AreFunctions, Means, NamesAre, place_of};
ghost use Rattle.source_file.specs.declared.fault.SourceFault.TheVariants.{NoMemory, Unexpected};

use crate::choice::twice;
use crate::fault::SourceFault;
use crate::functions::{Defined, functions_of};
use base_integers::Integers;
use lang_tokens::Token;
use source_constants::{code_of, definitions_of};
use source_items::{Division, Item, divide};
use source_tokens::{Definition, marks_of};
use std::alloc::Global;

/// A file: its tokens of code, what it defines outside its functions, and these.
#[derive(Drop)]
pub(crate) struct Outline {
    pub code: Vec<Token>,
    pub definitions: Vec<Definition>,
    pub functions: Vec<Defined>,
}

// The place of the token of this number, or the end of the text.
fn place_of(text: &[u8], code: &[Token], index: usize) -> u32
    requires { length text.now ≤ MOST_PROGRAM_BYTES }
    ensures { result ≡ place_of text.now code.now index }
{
    match code.get(index) {
        Some(token) => token.at,
        None => text.len() as u32,
    }
}

// The items of a file, by its tokens of code.
fn items(alloc: Global, text: &[u8], code: &[Token]) -> Result<Vec<Item>, SourceFault>
    requires { length text.now ≤ MOST_PROGRAM_BYTES }
    ensures found { IfOk result (λ items. Finds (divided items.items) (marks_of code.now)) }
    ensures fault { IfErr result (λ e. (e ≡ NoMemory → ⊥)
        → (index : ℕ) × Finds (unexpected index) (marks_of code.now) × (e ≡ Unexpected (place_of text.now code.now index))) }
{
    let marks = marks_of(alloc, code)?;
    match divide(alloc, marks.as_slice())? {
        Division::Divided(items) => Ok(items),
        Division::Unexpected { index } => Err(SourceFault::Unexpected {
            at: place_of(text, code, index),
        }),
    }
}

/// The outline of a file by these integers, where no two functions and no two constants have one name.
pub(crate) fn outline_of(
    alloc: Global,
    text: &[u8],
    tokens: &[Token],
    integers: Integers,
) -> Result<Outline, SourceFault>
    requires size { length text.now ≤ MOST_PROGRAM_BYTES }
    requires tokens { AreTokensIn text.now tokens.now }
    ensures code { IfOk result (λ file. file.code.items ≡ code_of tokens.now) }
    ensures found { IfOk result (λ file. AreFunctions integers text.now tokens.now file.definitions.items file.functions.items) }
    ensures names { IfErr result (λ e. (e ≡ NoMemory → ⊥) → integers ≡ Mathematical → NamesAre text.now tokens.now (Err e)) }
    ensures whatever { IfErr result (λ e. (e ≡ NoMemory → ⊥) → (asked : Option (List ℕ))
        → Means integers text.now asked tokens.now (Err e)) }
{
    let code = code_of(alloc, tokens)?;
    let items = items(alloc, text, code.as_slice())?;
    let functions = functions_of(alloc, text, code.as_slice(), items.as_slice())?;
    let definitions = definitions_of(
        alloc,
        text,
        tokens,
        code.as_slice(),
        items.as_slice(),
        integers,
    )?;
    match twice(alloc, functions.as_slice(), definitions.as_slice())? {
        Some(at) => Err(SourceFault::NameTwice { at }),
        None => Ok(Outline {
            code,
            definitions,
            functions,
        }),
    }
}

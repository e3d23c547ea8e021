//! The whole function.

ghost use Rattle.std.specs.Prelude.{◌≡◌, ◌≤◌, length};
ghost use Rattle.base_limits.specs.declared.limits.TheConstants.{MOST_PROGRAM_BYTES};
ghost use Rattle.lang_tokens.specs.Lines.{line_at};
ghost use Rattle.source_grammar.specs.Grammar.{Function, Good, Reads, spell};
ghost use Rattle.source_meaning.specs.Walk.{walk, width_of};
ghost use Rattle.source_tokens.specs.View.{tokens_of};
ghost use Rattle.source_reader.specs.Answers.{Answers};
ghost use Rattle.source_tokens.specs.Texts.{AreTokensIn};
ghost use Rattle.source_statement.specs.Whole.{IsProgram, IsWhole};

use crate::items::items;
use crate::parameters::{parameters, pass_name};
use base_integers::Integers;
use lang_tokens::Token;
use lang_tree::{Block, Names, Program, Stmt};
use source_meaning::{FunctionFault, functions_are_within_limits, names_are_resolved};
use source_names::Known;
use source_reader::{Mark, Reader, Stop};
use source_tokens::Definition;
use std::alloc::Global;

// The variables and the statements of a function.
#[derive(Drop)]
struct Whole {
    names: Names,
    list: Vec<Stmt>,
}

// The variables and the statements of the function that comes next.
fn read_whole(reader: &mut Reader) -> Result<Whole, Stop>
    ensures { (f : Function) → Good f → reader.old.ahead ≡ spell f → reader.old.variables ≡ width_of f
        → Answers (λ w r. IsWhole reader.old.integers (width_of f) w r) result (walk reader.old.integers (line_at reader.old.text) f) }
{
    let mut known = Known::new(reader.alloc());
    let mut list = Vec::new(reader.alloc());
    pass_name(reader);
    parameters(reader, &mut known, &mut list)?;
    reader.take(Mark::LeftBrace)?;
    items(reader, &mut known, false, &mut list)?;
    let names = known.into_names();
    if names.as_slice().is_empty() {
        return Err(Stop::Fault(FunctionFault::NoVariables));
    }
    Ok(Whole { names, list })
}

/// The function that these tokens of a text are, as a program, or its first fault; `constants` are the definitions of names outside of it,
/// in the order of the text, `variables` is how many variables it declares, at most `MOST_VARIABLES`, and `integers` those by which it
/// computes (docs/MEANING.md, "Functions of C"; faults: docs/FORMATS.md, "Functions").
pub fn function(
    alloc: Global,
    text: &[u8],
    tokens: &[Token],
    constants: &[Definition],
    variables: u32,
    integers: Integers,
) -> Result<Program, Stop>
    requires few { length text.now ≤ MOST_PROGRAM_BYTES }
    requires placed { AreTokensIn text.now tokens.now }
    requires read { (f : Function) × Reads (tokens_of constants.now text.now tokens.now) f × (variables ≡ width_of f) }
    ensures { (f : Function) → Reads (tokens_of constants.now text.now tokens.now) f → variables ≡ width_of f
        → Answers (IsProgram integers) result (walk integers (line_at text.now) f) }
{
    functions_are_within_limits();
    names_are_resolved();
    let mut reader = Reader::new(alloc, text, tokens, constants, variables, integers);
    let whole = read_whole(&mut reader)?;
    Ok(Program {
        names: whole.names,
        body: Block::new(whole.list),
    })
}

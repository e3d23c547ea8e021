//! What a function means.

ghost use Rattle.std.specs.Prelude.{◌≡◌, ◌≤◌, length};
ghost use Rattle.base_limits.specs.declared.limits.TheConstants.{MOST_PROGRAM_BYTES};
ghost use Rattle.lang_tokens.specs.Lines.{line_at};
ghost use Rattle.source_grammar.specs.Grammar.{Function, Reads};
ghost use Rattle.source_meaning.specs.Walk.{walk, width_of};
ghost use Rattle.source_tokens.specs.Texts.{AreTokensIn};
ghost use Rattle.source_tokens.specs.View.{tokens_of};
ghost use Rattle.source_file.specs.Gives.{FunctionGives};

use base_integers::Integers;
use lang_tokens::Token;
use lang_tree::Program;
use source_meaning::FunctionFault;
use source_reader::Stop;
use source_statement::function;
use source_tokens::Definition;
use std::alloc::Global;

/// What the tokens of a function mean by these integers where the file defines these, as a program, or its first fault.
pub(crate) fn program(
    alloc: Global,
    text: &[u8],
    tokens: &[Token],
    definitions: &[Definition],
    variables: u32,
    integers: Integers,
) -> Result<Program, FunctionFault>
    requires size { length text.now ≤ MOST_PROGRAM_BYTES }
    requires tokens { AreTokensIn text.now tokens.now }
    requires read { (f : Function) × Reads (tokens_of definitions.now text.now tokens.now) f × (variables ≡ width_of f) }
    ensures { (f : Function) → Reads (tokens_of definitions.now text.now tokens.now) f → variables ≡ width_of f
        → FunctionGives integers result (walk integers (line_at text.now) f) }
{
    match function(alloc, text, tokens, definitions, variables, integers) {
        Ok(program) => Ok(program),
        Err(Stop::Fault(fault)) => Err(fault),
        // Tokens that are a function are never unlike one.
        Err(Stop::Unlike) => unreachable!(),
    }
}

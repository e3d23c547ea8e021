//! The parser, in two passes: the grammar (`lang_grammar`), and then the walk (`pass.rt`), whose names, kinds and limits are in
//! `lang_reader`.

ghost use Rattle.std.specs.Prelude.{◌≡◌, ◌≤◌, length, Err, IfOk, IfErr};
ghost use Rattle.base_limits.specs.declared.limits.TheConstants.{MOST_PROGRAM_BYTES};
ghost use Rattle.lang_grammar.specs.View.{tokens_of};
ghost use Rattle.lang_tokens.specs.TokenLists.{AreTokensOf};
ghost use Rattle.lang_meaning.specs.declared.fault.ParseFault.TheVariants.{NoMemory};
ghost use Rattle.lang_meaning.specs.Gives.{Gives};
ghost use Rattle.lang_meaning.specs.Meaning.{Answer, IsRead, Means};

use crate::pass::walked;
use crate::width::width;
use lang_grammar::{Syntax, examine};
use lang_meaning::{Limit, ParseFault};
use lang_reader::Source;
use lang_tokens::Token;
use lang_tree::Program;
use std::alloc::Global;

// The first pass: nothing where the tokens read as a program and no construct is one too many.
fn first_pass(alloc: Global, tokens: &[Token], text: &[u8]) -> Result<(), ParseFault>
    requires { AreTokensOf text.now tokens.now }
    ensures read { IfOk result (λ _. IsRead (tokens_of text.now tokens.now)) }
    ensures fault { IfErr result (λ e. (e ≡ NoMemory → ⊥) → Means text.now (tokens_of text.now tokens.now) (Err e)) }
{
    match examine(alloc, tokens)? {
        Syntax::Unexpected { at } => Err(ParseFault::Unexpected { at }),
        Syntax::Nested { at } => Err(ParseFault::Limit {
            at,
            which: Limit::Nesting,
        }),
        Syntax::Whole => Ok(()),
        // Tokens that end with `End` don't end too early: they are whole.
        Syntax::Short => Ok(()),
    }
}

/// The program that the tokens of a text read as, or the first fault (docs/FORMATS.md, "Grammar",
/// "Names and kinds" and "The order of faults").
pub fn parse(alloc: Global, tokens: &[Token], text: &[u8]) -> Result<Program, ParseFault>
    requires size { length text.now ≤ MOST_PROGRAM_BYTES }
    requires tokens { AreTokensOf text.now tokens.now }
    // What is answered is meant.
    ensures found { (wanted : Answer) × Means text.now (tokens_of text.now tokens.now) wanted
        × Gives (λ p. (p.names, p.body)) result wanted }
    // What is meant is answered.
    ensures exact { (wanted : Answer) → Means text.now (tokens_of text.now tokens.now) wanted
        → Gives (λ p. (p.names, p.body)) result wanted }
{
    first_pass(alloc, tokens, text)?;
    let source = Source {
        alloc,
        text,
        width: width(tokens),
    };
    let (names, body) = walked(&source, tokens)?;
    Ok(Program { names, body })
}

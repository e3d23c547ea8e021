//! The names of a file's functions.

ghost use Rattle.std.specs.Prelude.{◌≡◌, ◌≤◌, ◌⊎◌, ◌++◌, ℕ, List, IfOk, IfErr, OnOk, Ok, Err, Result, length};
ghost use Rattle.base_limits.specs.declared.limits.TheConstants.{MOST_PROGRAM_BYTES};
ghost use Rattle.lang_tokens.specs.Faults.{HasFault};
ghost use Rattle.source_file.specs.declared.fault.SourceFault.{SourceFault as FaultValue};
ghost use Rattle.top_texts.specs.FunctionTexts.{AreFunctionsOf, Lists, name_lines};
ghost use Rattle.top_texts.specs.Outcomes.{AreUnlisted};

use crate::refusal::Refusal;
use lang_tokens::{LexFault, Lexicon, lex};
use lang_tree::{Name, Names};
use source_file::{SourceFault, names};
use std::alloc::{AllocError, Global};
use top_status::TextCause;

// The refusal of a text that has this fault instead of tokens.
fn lex_refusal(fault: LexFault) -> Refusal
    ensures { (text : List ℕ) → HasFault Lexicon.C text fault ⊎ (fault ≡ LexFault.NoMemory) → AreUnlisted text result }
{
    match fault {
        LexFault::NoMemory => Refusal::NoMemory,
        _ => Refusal::Text(TextCause::Lex(fault)),
    }
}

// The refusal of a text whose tokens have this fault.
fn file_refusal(fault: SourceFault) -> Refusal
    ensures { (text : List ℕ) (answer : Result (List (List ℕ)) FaultValue) → Lists text answer
        → ((fault ≡ SourceFault.NoMemory → ⊥) → answer ≡ Err fault) → AreUnlisted text result }
{
    match fault {
        SourceFault::NoMemory => Refusal::NoMemory,
        _ => Refusal::Text(TextCause::Source(fault)),
    }
}

// The names of the functions of a text.
fn names_of(alloc: Global, text: &[u8]) -> Result<Names, Refusal>
    requires { length text.now ≤ MOST_PROGRAM_BYTES }
    ensures ok { IfOk result (λ names. Lists text.now (Ok names)) }
    ensures err { IfErr result (λ refusal. AreUnlisted text.now refusal) }
{
    let tokens = match lex(alloc, text, Lexicon::C) {
        Ok(tokens) => tokens,
        Err(fault) => return Err(lex_refusal(fault)),
    };
    match names(alloc, &tokens, text) {
        Ok(names) => Ok(names),
        Err(fault) => Err(file_refusal(fault)),
    }
}

// Adds names, each with a line feed.
fn add_lines(lines: &mut Vec<u8>, names: &[Name]) -> Result<(), AllocError>
    ensures { OnOk result (lines.new.items ≡ lines.old.items ++ name_lines names.now) }
{
    for name in names {
        lines.extend_from_slice(name.bytes())?;
        lines.push(b'\n')?;
    }
    Ok(())
}

/// The names of the functions with a body that the text of a C file has, in their order, each on a line (docs/FORMATS.md, "Files").
///
/// # Errors
///
/// The first cause that stands: a fault of the text, or of its division into functions; or want of memory.
pub fn functions_text(alloc: Global, text: &[u8]) -> Result<Vec<u8>, Refusal>
    requires { length text.now ≤ MOST_PROGRAM_BYTES }
    ensures ok { IfOk result (λ bytes. AreFunctionsOf text.now bytes.items) }
    ensures err { IfErr result (λ refusal. AreUnlisted text.now refusal) }
{
    let names = names_of(alloc, text)?;
    let mut lines = Vec::new(alloc);
    add_lines(&mut lines, names.as_slice())?;
    Ok(lines)
}

//! From a program to its core, and to its points and edges, or the cause for which it is refused.

ghost use Rattle.std.specs.Prelude.{◌≡◌, ◌≤◌, ◌⊎◌, IfOk, IfErr, Err, None, Some, length};
ghost use Rattle.base_limits.specs.declared.limits.TheConstants.{MOST_PROGRAM_BYTES};
ghost use Rattle.lang_tokens.specs.Faults.{HasFault};
ghost use Rattle.lang_tokens.specs.Reading.{Reads};
ghost use Rattle.lang_tokens.specs.TokenLists.{AreTokensOf};
ghost use Rattle.lang_tree.specs.Tree.{Statements};
ghost use Rattle.flow_edges.specs.Edges.{edges_of_program};
ghost use Rattle.flow_edges.specs.Faults.{fault_of_program};
ghost use Rattle.flow_edges.specs.Points.{points_of_program};
ghost use Rattle.ask_words.specs.Request.{source_text};
ghost use Rattle.top_texts.specs.Outcomes.{HasNoFlow, IsUnread};
ghost use Rattle.top_texts.specs.Texts.{HasCore, Program as ProgramText, Reading};

use crate::refusal::Refusal;
use ask_words::Source;
use flow_edges::{Flow, FlowFault, flow};
use lang_tokens::{LexFault, Lexicon, Token, lex};
use lang_tree::Program;
use source_file::{SourceFault, read};
use std::alloc::Global;
use top_status::TextCause;

// The refusal of a program whose text has this fault instead of tokens.
fn lex_refusal(fault: LexFault) -> Refusal
    ensures { (program : ProgramText) → HasFault Lexicon.C program.text fault ⊎ (fault ≡ LexFault.NoMemory) → IsUnread program result }
{
    match fault {
        LexFault::NoMemory => Refusal::NoMemory,
        _ => Refusal::Text(TextCause::Lex(fault)),
    }
}

// The refusal of a program that means this fault.
pub(crate) fn source_refusal(fault: SourceFault) -> Refusal
    ensures { (program : ProgramText) → ((fault ≡ SourceFault.NoMemory → ⊥) → Reading program (Err fault)) → IsUnread program result }
{
    match fault {
        SourceFault::NoMemory => Refusal::NoMemory,
        _ => Refusal::Text(TextCause::Source(fault)),
    }
}

// The refusal of a core that has this fault.
fn flow_refusal(fault: FlowFault) -> Refusal
    ensures { (body : Statements) → (fault ≡ FlowFault.NoMemory) ⊎ (fault_of_program body ≡ Some fault) → HasNoFlow body result }
{
    match fault {
        FlowFault::NoMemory => Refusal::NoMemory,
        _ => Refusal::Text(TextCause::Flow(fault)),
    }
}

// The tokens of a program.
pub(crate) fn tokens_of(alloc: Global, program: Source<&[u8]>) -> Result<Vec<Token>, Refusal>
    requires { length program.text.now ≤ MOST_PROGRAM_BYTES }
    ensures reads { IfOk result (λ tokens. Reads Lexicon.C program.entry.text.now tokens.items) }
    ensures placed { IfOk result (λ tokens. AreTokensOf program.entry.text.now tokens.items) }
    ensures err { IfErr result (λ refusal. IsUnread (source_text program.entry) refusal) }
{
    match lex(alloc, program.text, Lexicon::C) {
        Ok(tokens) => Ok(tokens),
        Err(fault) => Err(lex_refusal(fault)),
    }
}

// The core of the function that a program asks about.
pub(crate) fn program_of(alloc: Global, program: Source<&[u8]>) -> Result<Program, Refusal>
    requires { length program.text.now ≤ MOST_PROGRAM_BYTES }
    ensures ok { IfOk result (λ core. HasCore (source_text program.entry) core.names core.body) }
    ensures err { IfErr result (λ refusal. IsUnread (source_text program.entry) refusal) }
{
    let tokens = tokens_of(alloc, program)?;
    match read(
        alloc,
        &tokens,
        program.text,
        program.function,
        program.integers,
    ) {
        Ok(core) => Ok(core),
        Err(fault) => Err(source_refusal(fault)),
    }
}

// The points and edges of a core.
pub(crate) fn flow_of(alloc: Global, program: &Program) -> Result<Flow, Refusal>
    ensures names { IfOk result (λ flow. flow.names ≡ program.now.names) }
    ensures points { IfOk result (λ flow. flow.points ≡ points_of_program program.now.body) }
    ensures edges { IfOk result (λ flow. flow.edges ≡ edges_of_program program.now.body) }
    ensures within { IfOk result (λ _. fault_of_program program.now.body ≡ None) }
    ensures err { IfErr result (λ refusal. HasNoFlow program.now.body refusal) }
{
    match flow(alloc, program) {
        Ok(flow) => Ok(flow),
        Err(fault) => Err(flow_refusal(fault)),
    }
}

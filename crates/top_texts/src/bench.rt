//! The summary of a generated program.

ghost use Rattle.std.specs.Prelude.{◌≡◌, ◌≤◌, ◌<◌, IfOk, IfErr, Ok, length};
ghost use Rattle.base_limits.specs.declared.limits.TheConstants.{MOST_LOOPS, MOST_PROGRAM_BYTES};
ghost use Rattle.top_texts.specs.Exact.{exact};
ghost use Rattle.top_texts.specs.Generated.{ReadsAs};
ghost use Rattle.top_texts.specs.Outcomes.{IsUnanswered};
ghost use Rattle.top_texts.specs.Questions.{bench_question};
ghost use Rattle.top_texts.specs.Reports.{IsSummaryOf};

use crate::analyse::rounds::solve;
use crate::analyse::system::program_system;
use crate::refusal::Refusal;
use ask_words::{Domain, Policy};
use base_limits::MOST_BENCH_IMPROVEMENTS;
use base_watch::Watch;
use lang_groups::Groups;
use lang_parser::parse;
use lang_tokens::{Lexicon, lex};
use lang_tree::Program;
use out_workload::{generate, generated_texts_read, summary};
use std::alloc::Global;

// The program of the language that a generated text is. Each of them is one, so that it has no other fault than want of memory.
fn generated_program(alloc: Global, text: &[u8]) -> Result<Program, Refusal>
    requires { length text.now ≤ MOST_PROGRAM_BYTES }
    ensures ok { IfOk result (λ program. ReadsAs text.now (Ok (program.names, program.body))) }
    ensures err { IfErr result (λ refusal. refusal ≡ Refusal.NoMemory) }
{
    let tokens = match lex(alloc, text, Lexicon::Own) {
        Ok(tokens) => tokens,
        Err(_) => return Err(Refusal::NoMemory),
    };
    match parse(alloc, &tokens, text) {
        Ok(program) => Ok(program),
        Err(_) => Err(Refusal::NoMemory),
    }
}

/// The whole summary of the program with so many loops that is drawn from a seed (docs/FORMATS.md, "The generator and the summary").
///
/// # Errors
///
/// `MOST_BENCH_IMPROVEMENTS` improvements by `best` that are spent, a wide operation, or want of memory.
pub fn bench_text<W: Watch>(
    alloc: Global,
    seed: u32,
    loops: u32,
    watch: &mut W,
) -> Result<Vec<u8>, Refusal>
    requires seed { seed < 2147483648 }
    requires some { 1 ≤ loops }
    requires few { loops ≤ MOST_LOOPS }
    ensures ok { IfOk result (λ bytes. IsSummaryOf seed loops bytes.items) }
    ensures err { IfErr result (λ refusal. IsUnanswered (bench_question exact seed loops) refusal) }
{
    generated_texts_read();
    let text = generate(alloc, seed, loops)?;
    let program = generated_program(alloc, &text)?;
    let groups = Groups::none(alloc);
    let system = program_system(alloc, Domain::Intervals, &groups, &program)?;
    let solved = solve(alloc, &system, Policy::Best, MOST_BENCH_IMPROVEMENTS, watch)?;
    Ok(summary(
        alloc,
        seed,
        loops,
        text.as_slice().len() as u32,
        &system,
        &solved.bounds,
        solved.improvements,
    )?)
}

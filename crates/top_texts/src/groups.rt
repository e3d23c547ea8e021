//! The groups of a program's variables, by which packs are made.

ghost use Rattle.std.specs.Prelude.{◌≤◌, IfOk, IfErr, length};
ghost use Rattle.base_limits.specs.declared.limits.TheConstants.{MOST_PROGRAM_BYTES};
ghost use Rattle.ask_words.specs.Request.{domain_text, source_text};
ghost use Rattle.top_texts.specs.Outcomes.{IsUnread};
ghost use Rattle.top_texts.specs.Texts.{HasCore, HasGroups, Serve};

use crate::program::{source_refusal, tokens_of};
use crate::refusal::Refusal;
use ask_words::{Domain, Source};
use lang_groups::Groups;
use lang_tree::Program;
use source_groups::groups;
use std::alloc::Global;

// The groups of the variables of the function that a program asks about, which has this core.
fn found_groups(alloc: Global, program: Source<&[u8]>, core: &Program) -> Result<Groups, Refusal>
    requires short { length program.text.now ≤ MOST_PROGRAM_BYTES }
    requires core { HasCore (source_text program) core.now.names core.now.body }
    ensures ok { IfOk result (λ groups. HasGroups (source_text program.entry) core.now.names groups) }
    ensures err { IfErr result (λ refusal. IsUnread (source_text program.entry) refusal) }
{
    let tokens = tokens_of(alloc, program)?;
    match groups(
        alloc,
        &tokens,
        program.text,
        program.function,
        program.integers,
        core.names.as_slice(),
    ) {
        Ok(groups) => Ok(groups),
        Err(fault) => Err(source_refusal(fault)),
    }
}

// The groups that serve a domain over the variables of a core: those of its program for packs, and none for others.
pub(crate) fn groups_of(
    alloc: Global,
    program: Source<&[u8]>,
    rows: Domain<&[u8]>,
    core: &Program,
) -> Result<Groups, Refusal>
    requires short { length program.text.now ≤ MOST_PROGRAM_BYTES }
    requires core { HasCore (source_text program) core.now.names core.now.body }
    ensures ok { IfOk result (λ groups. Serve (HasGroups (source_text program.entry) core.now.names) (domain_text rows.entry) groups) }
    ensures err { IfErr result (λ refusal. IsUnread (source_text program.entry) refusal) }
{
    match rows {
        Domain::Packs => found_groups(alloc, program, core),
        _ => Ok(Groups::none(alloc)),
    }
}

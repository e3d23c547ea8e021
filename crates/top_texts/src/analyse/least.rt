//! The least bounds of a program, for other outputs than its report.

ghost use Rattle.std.specs.Prelude.{◌≡◌, ◌≤◌, IfOk, IfErr, length};
ghost use Rattle.base_limits.specs.declared.limits.TheConstants.{MOST_IMPROVEMENTS, MOST_PROGRAM_BYTES};
ghost use Rattle.top_texts.specs.Analyses.{IsFoundIn, IsHaltedEnding, IsRefusedText, IsSolvedBy};
ghost use Rattle.top_texts.specs.Short.{HasShortRows};
ghost use Rattle.ask_words.specs.Request.{domain_text, source_text};

use super::rounds::solve;
use super::system::system_on;
use crate::refusal::refused;
use ask_words::{Domain, Policy, Source};
use base_watch::Watch;
use flow_systems::System;
use solve_rounds::Solved;
use std::alloc::Global;
use top_status::{Ending, answer_line, answer_rows};

/// The equation system of a program and of its rows, and its least bounds with the number of improvements that led to them.
#[derive(Drop)]
pub struct LeastBounds {
    pub system: System,
    pub solved: Solved,
}

// The least bounds of a system; or the ending where there are none.
fn least_of<W: Watch>(
    alloc: Global,
    system: System,
    policy: Policy,
    limit: u32,
    watch: &mut W,
) -> Result<LeastBounds, Ending>
    requires limit { limit ≤ MOST_IMPROVEMENTS }
    ensures ok { IfOk result (IsSolvedBy system policy limit) }
    ensures err { IfErr result (IsHaltedEnding system policy limit) }
{
    match solve(alloc, &system, policy, limit, watch) {
        Ok(solved) => Ok(LeastBounds { system, solved }),
        Err(refusal) => {
            let status = refused(refusal);
            let rows = answer_rows(system.template.as_slice().len(), &status);
            Err(Ending {
                status,
                line: 0,
                rows,
            })
        }
    }
}

/// The least bounds of a program, by at most `limit` improvements by the policy.
///
/// # Errors
///
/// The ending that the report of the program has where there are none, with what its message names.
pub fn least_on<W: Watch>(
    alloc: Global,
    program: Source<&[u8]>,
    rows: Domain<&[u8]>,
    policy: Policy,
    limit: u32,
    watch: &mut W,
) -> Result<LeastBounds, Ending>
    requires short { length program.text.now ≤ MOST_PROGRAM_BYTES }
    requires short_rows { HasShortRows (domain_text rows) }
    requires limit { limit ≤ MOST_IMPROVEMENTS }
    ensures ok { IfOk result (IsFoundIn (source_text program.entry) (domain_text rows.entry) policy limit) }
    ensures err { IfErr result (IsRefusedText (source_text program.entry) (domain_text rows.entry) policy limit) }
{
    match system_on(alloc, program, rows) {
        Ok(system) => least_of(alloc, system, policy, limit, watch),
        Err(refusal) => {
            let status = refused(refusal);
            let line = answer_line(program.text, &status);
            Err(Ending {
                status,
                line,
                rows: 0,
            })
        }
    }
}

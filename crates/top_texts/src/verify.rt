//! The verdicts of a program's least bounds on its checks.

ghost use Rattle.std.specs.Prelude.{◌+◌, ◌≡◌, ◌≤◌, ℕ, List, IfOk, IfErr, IsTrue, length};
ghost use Rattle.std.specs.List.{list_all};
ghost use Rattle.base_limits.specs.declared.limits.TheConstants.{MOST_IMPROVEMENTS, MOST_PROGRAM_BYTES};
ghost use Rattle.flow_edges.specs.declared.checked.CheckCases.{CheckCases as CheckCasesValue};
ghost use Rattle.flow_systems.specs.Equations.{Equations, Vector};
ghost use Rattle.flow_systems.specs.View.{equations_of, vector_at, IsVectorOf};
ghost use Rattle.ask_checks.specs.Verdicts.{AreCheckVerdicts, IsChecksFault};
ghost use Rattle.ask_verdicts.specs.Breaking.{is_case};
ghost use Rattle.ask_words.specs.Request.{domain_text, source_text};
ghost use Rattle.top_texts.specs.CheckTexts.{AreCheckVerdictsOf, HasChecks, ending_of};
ghost use Rattle.top_texts.specs.Exact.{exact};
ghost use Rattle.top_texts.specs.Outcomes.{AreUnverified, IsRefusedBy, IsUnanswered};
ghost use Rattle.top_texts.specs.Questions.{checks_question};
ghost use Rattle.top_texts.specs.Short.{HasShortRows};
ghost use Rattle.lang_tree.specs.declared.limits.TheConstants.{MOST_HIDDEN};

use crate::analyse::rounds::solve;
use crate::analyse::system::program_system;
use crate::groups::groups_of;
use crate::program::program_of;
use crate::refusal::Refusal;
use ask_checks::{ChecksFault, check_verdicts, has_open, open_states_break, proved_verdicts_hold};
use ask_verdicts::Verdict;
use ask_words::{Domain, Format, Policy, Source};
use base_watch::Watch;
use flow_edges::{CheckCases, Checks};
use flow_systems::{Bounds, Site, Spot, System};
use std::alloc::Global;
use top_status::Excess;
use top_written::written_checks;

/// The verdicts on the checks of a program.
#[derive(Drop)]
pub struct Judged {
    /// As they are written in a format, all of them.
    pub bytes: Vec<u8>,
    /// Whether a check is open.
    pub is_open: bool,
}

// The equation system of a program and of its rows, and the program's checks in order of the text.
#[derive(Drop)]
pub(crate) struct Checked {
    pub system: System,
    pub checks: Checks,
}

// The system of a program and of these rows, with its checks.
fn checked_on(
    alloc: Global,
    program: Source<&[u8]>,
    rows: Domain<&[u8]>,
) -> Result<Checked, Refusal>
    requires short { length program.text.now ≤ MOST_PROGRAM_BYTES }
    requires short_rows { HasShortRows (domain_text rows) }
    ensures ok { IfOk result (λ checked. HasChecks (source_text program.entry) (domain_text rows.entry) checked.system
        checked.checks) }
    ensures err { IfErr result (λ refusal. IsRefusedBy (source_text program.entry) (domain_text rows.entry) refusal) }
{
    let core = program_of(alloc, program)?;
    let checks = flow_edges::checks(alloc, &core)?;
    let groups = groups_of(alloc, program, rows, &core)?;
    let system = program_system(alloc, rows, &groups, &core)?;
    Ok(Checked { system, checks })
}

// The refusal of checks for which an operation is too wide.
fn check_refusal(fault: ChecksFault) -> Refusal
    ensures { (system : Equations) (vector : Vector) (checks : List CheckCasesValue) → IsChecksFault system vector checks fault
        → AreUnverified system vector checks result }
{
    match fault {
        ChecksFault::Wide {
            check,
            edge,
            case,
            part,
            wide,
        } => Refusal::Exceeded(Excess::Wide(Spot {
            round: 0,
            site: Site::Check {
                check,
                edge,
                case,
                part,
            },
            wide,
        })),
        ChecksFault::NoMemory => Refusal::NoMemory,
    }
}

// The verdicts of bounds on the checks of a system's program.
fn verdicts_of(
    alloc: Global,
    system: &System,
    bounds: &Bounds,
    checks: &[CheckCases],
) -> Result<Vec<Verdict>, Refusal>
    requires bounds { IsVectorOf system.now bounds.now }
    requires against { IsTrue (list_all (λ check. list_all (is_case (length system.now.flow.names + MOST_HIDDEN)) check.against)
        checks.now) }
    ensures ok { IfOk result (λ list. AreCheckVerdicts (equations_of system.now) (vector_at system.now bounds.now) checks.now list.items) }
    ensures err { IfErr result (λ refusal. AreUnverified (equations_of system.now) (vector_at system.now bounds.now) checks.now refusal) }
{
    match check_verdicts(alloc, system, bounds, checks) {
        Ok(list) => Ok(list),
        Err(fault) => Err(check_refusal(fault)),
    }
}

/// The verdicts of the least bounds of a program, in the file of this name, over these rows, on the program's checks, in a
/// format, with the number of improvements by the policy, of which there may be `limit` (docs/FORMATS.md, "Checks"); and whether a
/// check is open.
///
/// # Errors
///
/// The first cause that stands: one of the analysis, or improvements that are spent; or a wide operation, a joint problem that is
/// too large, or want of memory.
pub fn verify_text<W: Watch>(
    alloc: Global,
    file: &[u8],
    program: Source<&[u8]>,
    rows: Domain<&[u8]>,
    policy: Policy,
    limit: u32,
    format: Format,
    watch: &mut W,
) -> Result<Judged, Refusal>
    requires short { length program.text.now ≤ MOST_PROGRAM_BYTES }
    requires short_rows { HasShortRows (domain_text rows) }
    requires limit { limit ≤ MOST_IMPROVEMENTS }
    ensures ok { IfOk result (λ judged. AreCheckVerdictsOf exact file.now (source_text program.entry) (domain_text rows.entry) policy limit
        format (ending_of judged.is_open) judged.bytes.items) }
    ensures err { IfErr result (λ refusal. IsUnanswered (checks_question exact (source_text program.entry) (domain_text rows.entry) policy
        limit) refusal) }
{
    proved_verdicts_hold();
    open_states_break();
    let checked = checked_on(alloc, program, rows)?;
    let system = &checked.system;
    let checks = checked.checks.as_slice();
    let solved = solve(alloc, system, policy, limit, watch)?;
    let list = verdicts_of(alloc, system, &solved.bounds, checks)?;
    let is_open = has_open(&list);
    let names = system.flow.names.as_slice();
    let bytes = written_checks(
        alloc,
        file,
        program.text,
        names,
        checks,
        &list,
        solved.improvements,
        format,
    )?;
    Ok(Judged { bytes, is_open })
}

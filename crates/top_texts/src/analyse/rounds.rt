//! The rounds over a system, and the report of their solution.

ghost use Rattle.std.specs.Prelude.{◌≡◌, ◌≤◌, ◌*◌, ℕ, IfOk, IfErr, length};
ghost use Rattle.base_limits.specs.declared.limits.TheConstants.{MOST_IMPROVEMENTS};
ghost use Rattle.flow_systems.specs.Equations.{Least};
ghost use Rattle.flow_systems.specs.View.{equations_of, vector_of};
ghost use Rattle.cert_types.specs.Shaped.{IsShaped};
ghost use Rattle.theory_validity.specs.Certificates.{ValidCertificate};
ghost use Rattle.flow_systems.specs.declared.system.System.{System as SystemValue};
ghost use Rattle.solve_rounds.specs.Halts.{IsHalt};
ghost use Rattle.solve_rounds.specs.Solutions.{AreNumbered, IsSolved, cert_with, made_certificate};
ghost use Rattle.ask_words.specs.declared.request.Policy.{Policy as PolicyValue};
ghost use Rattle.ask_words.specs.declared.request.Purpose.{Purpose};
ghost use Rattle.top_texts.specs.Outcomes.{IsHalted, IsRoundsReport};
ghost use Rattle.top_texts.specs.Policies.{rule_of};

use crate::refusal::Refusal;
use ask_words::{Format, Policy};
use base_watch::Watch;
use flow_systems::{Footer, System};
use solve_rounds::{Halt, Solved, least_by_best, least_by_first};
use std::alloc::Global;
use top_status::Excess;
use top_written::written_report;

// The rounds over a system by a policy.
fn rounds_by<W: Watch>(
    alloc: Global,
    system: &System,
    policy: Policy,
    limit: u32,
    watch: &mut W,
) -> Result<Solved, Halt>
    requires limit { limit ≤ MOST_IMPROVEMENTS }
    ensures solved { IfOk result (IsSolved system.now (rule_of policy) limit) }
    ensures least { IfOk result (λ solved. Least (equations_of system.now) (vector_of (length system.now.template) solved.bounds)) }
    ensures valid { IfOk result (λ solved. ValidCertificate (equations_of system.now) (made_certificate system.now solved)) }
    ensures shaped { IfOk result (λ solved. IsShaped (cert_with system.now solved)) }
    ensures numbered { IfOk result (λ solved. AreNumbered system.now solved.steps) }
    ensures halt { IfErr result (IsHalt system.now (rule_of policy) limit) }
{
    match policy {
        Policy::Best => least_by_best(alloc, system, limit, watch),
        Policy::First => least_by_first(alloc, system, limit, watch),
    }
}

// The refusal of rounds that halt, where so many are allowed.
#[tactic(auto, using(crate::proofs::analyse::Halted::halted_wide, crate::proofs::analyse::Halted::halted_large, crate::proofs::analyse::Halted::halted_spent))]
fn halted(halt: Halt, limit: u32) -> Refusal
    ensures { (purpose : Purpose) (policy : PolicyValue) (system : SystemValue) → IsHalt system (rule_of policy) limit halt
        → IsHalted purpose system policy limit result }
{
    match halt {
        Halt::Wide(spot) => Refusal::Exceeded(Excess::Wide(spot)),
        Halt::Large(cells) => Refusal::Exceeded(Excess::Large(cells)),
        Halt::Spent(_bounds) => Refusal::Spent(limit),
        Halt::NoMemory => Refusal::NoMemory,
    }
}

// The least bounds of a system, by rounds of a policy.
pub(crate) fn solve<W: Watch>(
    alloc: Global,
    system: &System,
    policy: Policy,
    limit: u32,
    watch: &mut W,
) -> Result<Solved, Refusal>
    requires limit { limit ≤ MOST_IMPROVEMENTS }
    ensures solved { IfOk result (IsSolved system.now (rule_of policy) limit) }
    ensures least { IfOk result (λ solved. Least (equations_of system.now) (vector_of (length system.now.template) solved.bounds)) }
    ensures count { IfOk result (λ solved. length solved.bounds ≡ length system.now.flow.points * length system.now.template) }
    ensures valid { IfOk result (λ solved. ValidCertificate (equations_of system.now) (made_certificate system.now solved)) }
    ensures shaped { IfOk result (λ solved. IsShaped (cert_with system.now solved)) }
    ensures numbered { IfOk result (λ solved. AreNumbered system.now solved.steps) }
    ensures err { IfErr result (λ refusal. (purpose : Purpose) → IsHalted purpose system.now policy limit refusal) }
{
    match rounds_by(alloc, system, policy, limit, watch) {
        Ok(solved) => Ok(solved),
        Err(halt) => Err(halted(halt, limit)),
    }
}

/// The whole report of the least bounds of a system in a format, with the number of improvements by the policy.
///
/// # Errors
///
/// Improvements that are spent, a wide operation or a joint problem that is too large, or want of memory.
#[tactic(auto, using(crate::proofs::rounds::OneChain::rounds_report))]
pub fn report_of<W: Watch>(
    alloc: Global,
    system: &System,
    policy: Policy,
    limit: u32,
    format: Format,
    watch: &mut W,
) -> Result<Vec<u8>, Refusal>
    requires limit { limit ≤ MOST_IMPROVEMENTS }
    ensures ok { IfOk result (λ bytes. IsRoundsReport system.now policy limit format bytes.items) }
    ensures err { IfErr result (λ refusal. (purpose : Purpose) → IsHalted purpose system.now policy limit refusal) }
{
    let solved = solve(alloc, system, policy, limit, watch)?;
    Ok(written_report(
        alloc,
        system,
        &solved.bounds,
        Footer::Improvements(solved.improvements),
        format,
    )?)
}

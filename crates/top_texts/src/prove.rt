//! The verdicts of a program's least bounds on the claims of a text.

ghost use Rattle.std.specs.Prelude.{◌≡◌, ◌≢◌, ◌≤◌, ℕ, List, IfOk, IfErr, Err, length};
ghost use Rattle.std.specs.List.{All};
ghost use Rattle.base_limits.specs.declared.limits.TheConstants.{MOST_IMPROVEMENTS, MOST_PROGRAM_BYTES, MOST_TEXT_BYTES};
ghost use Rattle.flow_systems.specs.Equations.{Equations, Vector};
ghost use Rattle.flow_systems.specs.View.{equations_of, vector_at, IsVectorOf};
ghost use Rattle.flow_systems.specs.declared.system.System.{System as SystemValue};
ghost use Rattle.ask_claims.specs.AllVerdicts.{AreVerdicts, IsClaimsFault};
ghost use Rattle.ask_claims.specs.Claims.{FileMeans, Stands};
ghost use Rattle.ask_claims.specs.declared.claim.Claim.{Claim as ClaimValue};
ghost use Rattle.ask_words.specs.declared.request.Domain.{Domain as DomainValue};
ghost use Rattle.ask_words.specs.declared.request.Policy.{Policy as PolicyValue};
ghost use Rattle.top_texts.specs.ClaimTexts.{AreClaimsOf, AreVerdictsOf};
ghost use Rattle.top_texts.specs.Exact.{exact};
ghost use Rattle.top_texts.specs.Short.{HasShortRows};
ghost use Rattle.ask_words.specs.Request.{domain_text, source_text};
ghost use Rattle.top_texts.specs.Outcomes.{AreUnjudged, IsUnanswered};
ghost use Rattle.top_texts.specs.Questions.{claims_question};
ghost use Rattle.top_texts.specs.Texts.{IsSolvedSystem, Program as ProgramText};

use crate::analyse::rounds::solve;
use crate::analyse::system::system_on;
use crate::refusal::Refusal;
use ask_claims::{
    Claim, ClaimFault, ClaimsFault, Verdict, open_states_break, proved_verdicts_hold, read_claims,
    verdicts,
};
use ask_words::{Domain, Format, Policy, Source};
use base_watch::Watch;
use flow_systems::{Bounds, Site, Spot, System};
use std::alloc::Global;
use top_status::{Excess, TextCause};
use top_written::written_claims;

// The refusal of a text of claims that has this fault over a system's names and points.
fn claim_refusal(fault: ClaimFault) -> Refusal
    ensures { (program : ProgramText) (rows : DomainValue (List ℕ)) (given : List ℕ) (policy : PolicyValue) (limit : ℕ)
        (system : SystemValue) → IsSolvedSystem program rows system
        → (fault ≢ ClaimFault.NoMemory → FileMeans given system.flow.names system.flow.points (Err fault))
        → IsUnanswered (claims_question exact program rows given policy limit) result }
{
    match fault {
        ClaimFault::NoMemory => Refusal::NoMemory,
        _ => Refusal::Text(TextCause::Claims(fault)),
    }
}

// The claims that a text states over a system's names and points.
fn claims_of(alloc: Global, given: &[u8], system: &System) -> Result<Vec<Claim>, Refusal>
    requires { length given.now ≤ MOST_TEXT_BYTES }
    ensures ok { IfOk result (λ claims. AreClaimsOf given.now system.now.flow.names system.now.flow.points claims.items) }
    ensures err { IfErr result (λ refusal. (program : ProgramText) (rows : DomainValue (List ℕ)) (policy : PolicyValue) (limit : ℕ)
        → IsSolvedSystem program rows system.now → IsUnanswered (claims_question exact program rows given.now policy limit) refusal) }
{
    match read_claims(alloc, given, &system.flow) {
        Ok(claims) => Ok(claims),
        Err(fault) => Err(claim_refusal(fault)),
    }
}

// The refusal of claims for which an operation is too wide.
fn verdict_refusal(fault: ClaimsFault) -> Refusal
    ensures { (system : Equations) (vector : Vector) (claims : List ClaimValue) → IsClaimsFault system vector claims fault
        → AreUnjudged system vector claims result }
{
    match fault {
        ClaimsFault::Wide {
            claim,
            case,
            part,
            wide,
        } => Refusal::Exceeded(Excess::Wide(Spot {
            round: 0,
            site: Site::Claim { claim, case, part },
            wide,
        })),
        ClaimsFault::NoMemory => Refusal::NoMemory,
    }
}

// The verdicts of bounds on claims over a system's names and points.
fn verdicts_at(
    alloc: Global,
    system: &System,
    bounds: &Bounds,
    claims: &[Claim],
) -> Result<Vec<Verdict>, Refusal>
    requires bounds { IsVectorOf system.now bounds.now }
    requires claims { All (Stands system.now.flow.names system.now.flow.points) claims.now }
    ensures ok { IfOk result (λ list. AreVerdicts (equations_of system.now) (vector_at system.now bounds.now) claims.now list.items) }
    ensures err { IfErr result (λ refusal. AreUnjudged (equations_of system.now) (vector_at system.now bounds.now) claims.now refusal) }
{
    match verdicts(alloc, system, bounds, claims) {
        Ok(list) => Ok(list),
        Err(fault) => Err(verdict_refusal(fault)),
    }
}

/// The verdicts of the least bounds of a program, over these rows, on the claims that `given` states, in a format, with the
/// number of improvements by the policy, of which there may be `limit` (docs/FORMATS.md, "Verdicts").
///
/// # Errors
///
/// The first cause that stands: one of the analysis, a fault of the claims, or improvements that are spent; or a wide operation,
/// a joint problem that is too large, or want of memory.
pub fn prove_text<W: Watch>(
    alloc: Global,
    program: Source<&[u8]>,
    rows: Domain<&[u8]>,
    given: &[u8],
    policy: Policy,
    limit: u32,
    format: Format,
    watch: &mut W,
) -> Result<Vec<u8>, Refusal>
    requires short { length program.text.now ≤ MOST_PROGRAM_BYTES }
    requires short_rows { HasShortRows (domain_text rows) }
    requires short_claims { length given.now ≤ MOST_TEXT_BYTES }
    requires limit { limit ≤ MOST_IMPROVEMENTS }
    ensures ok { IfOk result (λ bytes. AreVerdictsOf exact (source_text program.entry) (domain_text rows.entry) given.now policy limit
        format bytes.items) }
    ensures err { IfErr result (λ refusal. IsUnanswered (claims_question exact (source_text program.entry) (domain_text rows.entry)
        given.now policy limit) refusal) }
{
    proved_verdicts_hold();
    open_states_break();
    let system = system_on(alloc, program, rows)?;
    let claims = claims_of(alloc, given, &system)?;
    let solved = solve(alloc, &system, policy, limit, watch)?;
    let list = verdicts_at(alloc, &system, &solved.bounds, &claims)?;
    let names = system.flow.names.as_slice();
    Ok(written_claims(alloc, names, &claims, &list, solved.improvements, format)?)
}

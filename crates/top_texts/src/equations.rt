//! The values of a text's equations.

ghost use Rattle.std.specs.Prelude.{◌≡◌, ◌≢◌, ◌*◌, ◌+◌, ◌≤◌, ℕ, List, IfOk, IfErr, IsTrue, Ok, Err, length, take};
ghost use Rattle.base_limits.specs.declared.limits.TheConstants.{MOST_IMPROVEMENTS, MOST_TEXT_BYTES};
ghost use Rattle.flow_systems.specs.declared.footer.Footer.TheVariants.{Improvements};
ghost use Rattle.flow_systems.specs.View.{vector_of};
ghost use Rattle.flow_rationals.specs.EquationTexts.{Answers};
ghost use Rattle.flow_rationals.specs.Equations.{are_equations};
ghost use Rattle.ask_words.specs.declared.request.Policy.{Policy as PolicyValue};
ghost use Rattle.top_texts.specs.EquationTexts.{AreValuesOf};
ghost use Rattle.top_texts.specs.Exact.{exact};
ghost use Rattle.top_written.specs.Formats.{values_in};
ghost use Rattle.top_texts.specs.Outcomes.{IsUnanswered};
ghost use Rattle.top_texts.specs.Questions.{equations_question};

use crate::analyse::rounds::solve;
use crate::refusal::Refusal;
use ask_words::{Format, Policy};
use base_watch::Watch;
use flow_rationals::{
    EquFault, Equations, least_above_equal_right_sides, least_vectors_are_least_above, read, system,
};
use flow_systems::{Bounds, System};
use std::alloc::{AllocError, Global};
use top_status::TextCause;
use top_written::written_values;

// The refusal of a text that has this fault.
fn equation_refusal(fault: EquFault) -> Refusal
    ensures { (text : List ℕ) (policy : PolicyValue) (limit : ℕ) → (fault ≢ EquFault.NoMemory → Answers text (Err fault))
        → IsUnanswered (equations_question exact text policy limit) result }
{
    match fault {
        EquFault::NoMemory => Refusal::NoMemory,
        _ => Refusal::Text(TextCause::Equ(fault)),
    }
}

// The equations that the text reads as.
fn equations_of(alloc: Global, text: &[u8]) -> Result<Equations, Refusal>
    requires { length text.now ≤ MOST_TEXT_BYTES }
    ensures ok { IfOk result (λ equations. Answers text.now (Ok equations)) }
    ensures within { IfOk result (λ equations. IsTrue (are_equations equations)) }
    ensures err { IfErr result (λ refusal. (policy : PolicyValue) (limit : ℕ)
        → IsUnanswered (equations_question exact text.now policy limit) refusal) }
{
    match read(alloc, text) {
        Ok(equations) => Ok(equations),
        Err(fault) => Err(equation_refusal(fault)),
    }
}

// The lines of the values at the loop of a system of equations: that of each row by the name of its variable.
fn lines_of(
    alloc: Global,
    system: &System,
    bounds: &Bounds,
    improvements: u32,
    format: Format,
) -> Result<Vec<u8>, AllocError>
    requires rows { length system.now.template ≤ length system.now.flow.names }
    requires bounds { 2 * length system.now.template ≤ length bounds.now }
    ensures { IfOk result (λ bytes. bytes.items ≡ values_in format (take (length system.now.template) system.now.flow.names)
        (vector_of (length system.now.template) bounds.now 1) (Improvements improvements)) }
{
    let rows = system.template.as_slice().len();
    let names = &system.flow.names.as_slice()[..rows];
    written_values(alloc, names, bounds, 1, improvements, format)
}

/// The values of a text's equations in a format, with the number of improvements by the policy, of which there may be `limit`
/// (docs/FORMATS.md, "Equations").
///
/// # Errors
///
/// The first cause that stands: a fault of the text, or improvements that are spent; or a wide operation, or want of memory.
pub fn equations_text<W: Watch>(
    alloc: Global,
    text: &[u8],
    policy: Policy,
    limit: u32,
    format: Format,
    watch: &mut W,
) -> Result<Vec<u8>, Refusal>
    requires short { length text.now ≤ MOST_TEXT_BYTES }
    requires limit { limit ≤ MOST_IMPROVEMENTS }
    ensures ok { IfOk result (λ bytes. AreValuesOf text.now policy limit format bytes.items) }
    ensures err { IfErr result (λ refusal. IsUnanswered (equations_question exact text.now policy limit) refusal) }
{
    least_vectors_are_least_above();
    least_above_equal_right_sides();
    let equations = equations_of(alloc, text)?;
    let system = system(alloc, &equations)?;
    let solved = solve(alloc, &system, policy, limit, watch)?;
    Ok(lines_of(alloc, &system, &solved.bounds, solved.improvements, format)?)
}

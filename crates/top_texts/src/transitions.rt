//! The system of the texts of a transition system and of its rows, and the report of its least bounds.

ghost use Rattle.std.specs.Prelude.{◌≡◌, ◌≢◌, ◌≤◌, ℕ, List, IfOk, IfErr, IsTrue, None, Ok, Err, length};
ghost use Rattle.base_limits.specs.declared.limits.TheConstants.{MOST_IMPROVEMENTS, MOST_TEXT_BYTES};
ghost use Rattle.flow_transitions.specs.AutoFaults.{fault_of};
ghost use Rattle.flow_transitions.specs.AutoGroups.{HasGroups};
ghost use Rattle.flow_transitions.specs.AutoTexts.{IsAuto, content};
ghost use Rattle.flow_transitions.specs.Choices.{edges_of};
ghost use Rattle.flow_systems.specs.SystemLimits.{is_over};
ghost use Rattle.flow_templates.specs.declared.fault.RowFault.TheVariants as row_fault;
ghost use Rattle.ask_words.specs.declared.request.Domain.{Domain as DomainValue};
ghost use Rattle.top_texts.specs.Exact.{exact};
ghost use Rattle.top_texts.specs.Short.{HasShortRows};
ghost use Rattle.ask_words.specs.Request.{domain_text};
ghost use Rattle.top_texts.specs.Outcomes.{IsRefusedAlong, IsUnanswered};
ghost use Rattle.top_texts.specs.Questions.{transitions_question};
ghost use Rattle.top_texts.specs.Texts.{HasTemplateBy, Serve};
ghost use Rattle.top_texts.specs.TransitionTexts.{AreNoTransitions, IsAutoReport, IsAutoText, IsTransitionSystem};

use crate::analyse::rounds::report_of;
use crate::analyse::system::system_of;
use crate::analyse::template::template_of;
use crate::refusal::Refusal;
use ask_words::{Domain, Format, Policy};
use base_watch::Watch;
use flow_edges::Flow;
use flow_systems::System;
use flow_templates::{RowFault, Template};
use flow_transitions::{Auto, AutoFault, flow, groups, post_solutions_hold_along, read};
use lang_groups::Groups;
use std::alloc::Global;
use top_status::TextCause;

// The refusal of a text that has this fault.
fn auto_refusal(fault: AutoFault) -> Refusal
    ensures { (text : List ℕ) (rows : DomainValue (List ℕ))
        → (fault ≢ AutoFault.NoMemory → AreNoTransitions text rows (TextCause.Auto fault)) → IsRefusedAlong text rows result }
{
    match fault {
        AutoFault::NoMemory => Refusal::NoMemory,
        _ => Refusal::Text(TextCause::Auto(fault)),
    }
}

// The refusal of rows that have this fault.
fn row_refusal(fault: RowFault) -> Refusal
    ensures { (text : List ℕ) (rows : DomainValue (List ℕ))
        → (fault ≢ row_fault.NoMemory → AreNoTransitions text rows (TextCause.Rows fault)) → IsRefusedAlong text rows result }
{
    match fault {
        RowFault::NoMemory => Refusal::NoMemory,
        _ => Refusal::Text(TextCause::Rows(fault)),
    }
}

// The transition system that the text reads as.
fn auto_of(alloc: Global, text: &[u8]) -> Result<Auto, Refusal>
    requires { length text.now ≤ MOST_TEXT_BYTES }
    ensures ok { IfOk result (λ auto. IsAuto text.now (Ok (content auto))) }
    ensures err { IfErr result (λ refusal. (rows : DomainValue (List ℕ)) → IsRefusedAlong text.now rows refusal) }
{
    match read(alloc, text) {
        Ok(auto) => Ok(auto),
        Err(fault) => Err(auto_refusal(fault)),
    }
}

// Its points and edges.
fn flow_along(alloc: Global, auto: &Auto) -> Result<Flow, Refusal>
    ensures names { IfOk result (λ flow. flow.names ≡ auto.now.names) }
    ensures points { IfOk result (λ flow. flow.points ≡ auto.now.points) }
    ensures edges { IfOk result (λ flow. flow.edges ≡ edges_of (length auto.now.points) auto.now.edges) }
    ensures within { IfOk result (λ _. fault_of (length auto.now.points) auto.now.edges ≡ None) }
    ensures err { IfErr result (λ refusal. (text : List ℕ) (rows : DomainValue (List ℕ))
        → IsAuto text (Ok (content auto.now)) → IsRefusedAlong text rows refusal) }
{
    match flow(alloc, auto) {
        Ok(flow) => Ok(flow),
        Err(fault) => Err(auto_refusal(fault)),
    }
}

// The groups of its variables.
fn found_along(alloc: Global, text: &[u8], auto: &Auto) -> Result<Groups, Refusal>
    requires short { length text.now ≤ MOST_TEXT_BYTES }
    requires auto { IsAuto text.now (Ok (content auto.now)) }
    ensures ok { IfOk result (λ groups. HasGroups text.now groups) }
    ensures err { IfErr result (λ refusal. (rows : DomainValue (List ℕ)) → IsRefusedAlong text.now rows refusal) }
{
    match groups(alloc, text, auto) {
        Ok(groups) => Ok(groups),
        Err(fault) => Err(auto_refusal(fault)),
    }
}

// The groups that serve a domain over its variables: its own for packs, and none for others.
fn groups_along(
    alloc: Global,
    text: &[u8],
    rows: Domain<&[u8]>,
    auto: &Auto,
) -> Result<Groups, Refusal>
    requires short { length text.now ≤ MOST_TEXT_BYTES }
    requires auto { IsAuto text.now (Ok (content auto.now)) }
    ensures ok { IfOk result (λ groups. Serve (HasGroups text.now) (domain_text rows.entry) groups) }
    ensures err { IfErr result (λ refusal. IsRefusedAlong text.now (domain_text rows.entry) refusal) }
{
    match rows {
        Domain::Packs => found_along(alloc, text, auto),
        _ => Ok(Groups::none(alloc)),
    }
}

// The template over its variables, which are in these groups.
fn rows_along(
    alloc: Global,
    rows: Domain<&[u8]>,
    groups: &Groups,
    auto: &Auto,
) -> Result<Template, Refusal>
    requires { HasShortRows (domain_text rows) }
    ensures template { IfOk result (λ template. HasTemplateBy groups.now (domain_text rows.entry) auto.now.names (Ok template)) }
    ensures over { IfOk result (λ template. IsTrue (is_over (length auto.now.names) template)) }
    ensures err { IfErr result (λ refusal. (text : List ℕ) → IsAutoText text auto.now
        → Serve (HasGroups text) (domain_text rows.entry) groups.now → IsRefusedAlong text (domain_text rows.entry) refusal) }
{
    match template_of(alloc, rows, auto.names.as_slice(), groups) {
        Ok(template) => Ok(template),
        Err(fault) => Err(row_refusal(fault)),
    }
}

// The system of these texts.
fn system_along(alloc: Global, text: &[u8], rows: Domain<&[u8]>) -> Result<System, Refusal>
    requires short { length text.now ≤ MOST_TEXT_BYTES }
    requires short_rows { HasShortRows (domain_text rows) }
    ensures ok { IfOk result (λ system. IsTransitionSystem text.now (domain_text rows.entry) system) }
    ensures err { IfErr result (λ refusal. IsRefusedAlong text.now (domain_text rows.entry) refusal) }
{
    let auto = auto_of(alloc, text)?;
    let flow = flow_along(alloc, &auto)?;
    let groups = groups_along(alloc, text, rows, &auto)?;
    let template = rows_along(alloc, rows, &groups, &auto)?;
    let system = system_of(flow, template)?;
    Ok(system)
}

/// The whole report in a format of the least bounds of the transition system of `text`, over these rows, with the number of improvements
/// by the policy, of which there may be `limit` (docs/FORMATS.md, "The report").
///
/// # Errors
///
/// The first cause that stands: a fault of the text, of its edges or of the rows, too many unknowns, or improvements that are
/// spent; or a wide operation, a joint problem that is too large, or want of memory.
pub fn transitions_text<W: Watch>(
    alloc: Global,
    text: &[u8],
    rows: Domain<&[u8]>,
    policy: Policy,
    limit: u32,
    format: Format,
    watch: &mut W,
) -> Result<Vec<u8>, Refusal>
    requires short { length text.now ≤ MOST_TEXT_BYTES }
    requires short_rows { HasShortRows (domain_text rows) }
    requires limit { limit ≤ MOST_IMPROVEMENTS }
    ensures ok { IfOk result (λ bytes. IsAutoReport text.now (domain_text rows.entry) policy limit format bytes.items) }
    ensures err { IfErr result (λ refusal. IsUnanswered (transitions_question exact text.now (domain_text rows.entry) policy limit)
        refusal) }
{
    post_solutions_hold_along();
    let system = system_along(alloc, text, rows)?;
    let bytes = report_of(alloc, &system, policy, limit, format, watch)?;
    Ok(bytes)
}

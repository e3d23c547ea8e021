//! The system of a program and of its rows.

ghost use Rattle.std.specs.Prelude.{◌≡◌, ◌*◌, ◌≤◌, ◌<◌, ◌≢◌, ℕ, List, IfOk, IfErr, IsTrue, Ok, Err, length};
ghost use Rattle.base_limits.specs.declared.limits.TheConstants.{MOST_PROGRAM_BYTES};
ghost use Rattle.lang_tree.specs.Tree.{Statements};
ghost use Rattle.flow_templates.specs.declared.fault.RowFault.TheVariants.{NoMemory};
ghost use Rattle.flow_systems.specs.SystemLimits.{is_over};
ghost use Rattle.ask_words.specs.declared.request.Domain.{Domain as DomainValue};
ghost use Rattle.top_status.specs.declared.status.TextCause.TheVariants.{Unknowns};
ghost use Rattle.top_texts.specs.Short.{HasShortRows};
ghost use Rattle.ask_words.specs.Request.{domain_text, source_text};
ghost use Rattle.top_texts.specs.Outcomes.{HasNoRows, HasNoSystemOver, HasSystemOver, IsRefusedBy};
ghost use Rattle.top_texts.specs.Texts.{HasTemplateBy, IsSolvedSystem};
ghost use Rattle.flow_systems.specs.declared.limits.TheConstants.{MOST_UNKNOWNS};

use super::template::template_of;
use crate::groups::groups_of;
use crate::program::{flow_of, program_of};
use crate::refusal::Refusal;
use ask_words::{Domain, Source};
use flow_edges::Flow;
use flow_systems::{System, SystemFault};
use flow_templates::{RowFault, Template};
use lang_groups::Groups;
use lang_tree::Program;
use std::alloc::Global;
use top_status::TextCause;

// The refusal of rows that have this fault.
fn row_refusal(fault: RowFault) -> Refusal
    ensures { (groups : List (List ℕ)) (rows : DomainValue (List ℕ)) (names : List (List ℕ)) (body : Statements)
        → (fault ≢ NoMemory → HasTemplateBy groups rows names (Err fault)) → HasNoRows groups rows names body result }
{
    match fault {
        RowFault::NoMemory => Refusal::NoMemory,
        _ => Refusal::Text(TextCause::Rows(fault)),
    }
}

// The template over the variables of a program, which are in these groups.
fn rows_of(
    alloc: Global,
    rows: Domain<&[u8]>,
    groups: &Groups,
    program: &Program,
) -> Result<Template, Refusal>
    requires { HasShortRows (domain_text rows) }
    ensures template { IfOk result (λ template. HasTemplateBy groups.now (domain_text rows.entry) program.now.names (Ok template)) }
    ensures over { IfOk result (λ template. IsTrue (is_over (length program.now.names) template)) }
    ensures err { IfErr result (λ refusal. HasNoRows groups.now (domain_text rows.entry) program.now.names program.now.body refusal) }
{
    match template_of(alloc, rows, program.names.as_slice(), groups) {
        Ok(template) => Ok(template),
        Err(fault) => Err(row_refusal(fault)),
    }
}

// The system of a flow and a template.
pub(crate) fn system_of(flow: Flow, template: Template) -> Result<System, Refusal>
    requires { IsTrue (is_over (length flow.names) template) }
    ensures flow { IfOk result (λ system. system.flow ≡ flow) }
    ensures template { IfOk result (λ system. system.template ≡ template) }
    ensures within { IfOk result (λ _. length flow.points * length template ≤ MOST_UNKNOWNS) }
    ensures above { IfErr result (λ _. MOST_UNKNOWNS < length flow.points * length template) }
    ensures count { IfErr result (λ refusal. refusal ≡ Refusal.Text (Unknowns (length flow.points * length template))) }
{
    match System::new(flow, template) {
        Ok(system) => Ok(system),
        Err(SystemFault::Unknowns { count }) => Err(Refusal::Text(TextCause::Unknowns(count))),
    }
}

// The system of a core, whose variables are in these groups, and of these rows.
pub(crate) fn program_system(
    alloc: Global,
    rows: Domain<&[u8]>,
    groups: &Groups,
    program: &Program,
) -> Result<System, Refusal>
    requires { HasShortRows (domain_text rows) }
    ensures ok { IfOk result (λ system. HasSystemOver groups.now (domain_text rows.entry) program.now.names program.now.body system) }
    ensures err { IfErr result (λ refusal. HasNoSystemOver groups.now (domain_text rows.entry) program.now.names program.now.body
        refusal) }
{
    let flow = flow_of(alloc, program)?;
    let template = rows_of(alloc, rows, groups, program)?;
    let system = system_of(flow, template)?;
    Ok(system)
}

/// The system of a program and of these rows.
///
/// # Errors
///
/// The first cause that stands: a fault of the program or of the rows, or too many unknowns; or want of memory.
pub fn system_on(
    alloc: Global,
    program: Source<&[u8]>,
    rows: Domain<&[u8]>,
) -> Result<System, Refusal>
    requires short { length program.text.now ≤ MOST_PROGRAM_BYTES }
    requires short_rows { HasShortRows (domain_text rows) }
    ensures ok { IfOk result (λ system. IsSolvedSystem (source_text program.entry) (domain_text rows.entry) system) }
    ensures err { IfErr result (λ refusal. IsRefusedBy (source_text program.entry) (domain_text rows.entry) refusal) }
{
    let core = program_of(alloc, program)?;
    let groups = groups_of(alloc, program, rows, &core)?;
    let system = program_system(alloc, rows, &groups, &core)?;
    Ok(system)
}

//! From a program and the bytes of a certificate to a system and its certificate, or the cause for which they
//! are refused.

ghost use Rattle.std.specs.Prelude.{◌≡◌, ◌*◌, ◌≤◌, ◌<◌, ◌^◌, ◌≢◌, ◌&&◌, ℕ, List, [], IfOk, IfErr, IsTrue, Ok, Err, Some, length, slice_get};
ghost use Rattle.std.specs.Prelude.{nat_lt};
ghost use Rattle.std.specs.List.{list_all};
ghost use Rattle.ask_words.specs.Request.{source_text};
ghost use Rattle.base_limits.specs.declared.limits.TheConstants.{MOST_PROGRAM_BYTES};
ghost use Rattle.lang_tree.specs.Tree.{Statements};
ghost use Rattle.flow_edges.specs.Edges.{edges_of_program};
ghost use Rattle.flow_edges.specs.Points.{points_of_program};
ghost use Rattle.flow_templates.specs.RowFaults.{faults_of};
ghost use Rattle.flow_templates.specs.declared.fault.RowFault.TheVariants.{NoMemory};
ghost use Rattle.flow_systems.specs.SystemLimits.{is_over};
ghost use Rattle.cert_types.specs.declared.cert.Cert.{Cert as CertValue};
ghost use Rattle.cert_text.specs.Certificates.{SpellsCert};
ghost use Rattle.cert_fitted.specs.Checked.{is_short};
ghost use Rattle.cert_fitted.specs.Fitted.{rows_for};
ghost use Rattle.top_texts.specs.Checks.{IsSpelt, fitted_to};
ghost use Rattle.top_texts.specs.Outcomes.{FitsProgram, IsNoSystem, IsUnspelt};

use crate::form::cert_of;
use crate::program::{flow_of, program_of};
use crate::refusal::Refusal;
use ask_words::Source;
use cert_fitted::fitted_rows;
use cert_types::Rows;
use cert_written as written;
use cert_written::Entries;
use flow_edges::Flow;
use flow_systems::{System, SystemFault};
use flow_templates::{RowFault, Template, from_rows};
use lang_tree::Program;
use std::alloc::Global;
use top_status::CertCause;

/// The core of a program with its points and edges, and a certificate as a text has it.
#[derive(Drop)]
pub struct Given {
    pub program: Program,
    pub flow: Flow,
    pub cert: written::Cert,
}

/// The core of a program, and the certificate that the bytes spell, as they have it.
///
/// # Errors
///
/// A fault of the program, or else of the form of the bytes; or want of memory.
pub fn read_given(alloc: Global, source: Source<&[u8]>, bytes: &[u8]) -> Result<Given, Refusal>
    requires { length source.text.now ≤ MOST_PROGRAM_BYTES }
    ensures spelt { IfOk result (λ given. IsSpelt (source_text source.entry) bytes.now given.program.names given.program.body
        (fitted_to given.program.names given.program.body given.cert)) }
    ensures reads { IfOk result (λ given. SpellsCert bytes.now given.cert) }
    ensures names { IfOk result (λ given. given.flow.names ≡ given.program.names) }
    ensures points { IfOk result (λ given. given.flow.points ≡ points_of_program given.program.body) }
    ensures edges { IfOk result (λ given. given.flow.edges ≡ edges_of_program given.program.body) }
    ensures err { IfErr result (λ refusal. IsUnspelt (source_text source.entry) bytes.now refusal) }
{
    let program = program_of(alloc, source)?;
    let flow = flow_of(alloc, &program)?;
    let cert = cert_of(alloc, bytes)?;
    Ok(Given {
        program,
        flow,
        cert,
    })
}

// Whether the items of a step can be numbered by 32 bits.
fn is_short(step: &written::Step) -> bool
    ensures { result ≡ is_short step.now }
{
    let count = match step {
        written::Step::Plain(items) => items.as_slice().len(),
        written::Step::Jump(items) => items.as_slice().len(),
        written::Step::Ray(items) => items.as_slice().len(),
    };
    count < 4294967296
}

// Whether the items of each step can be numbered by 32 bits.
fn are_short(steps: &[written::Step]) -> bool
    ensures { result ≡ list_all is_short steps.now }
{
    steps.iter().all(|step| is_short(step))
}

// Whether the steps and the items of each step can be numbered by 32 bits. It is so of every certificate that a file within
// its limit spells.
pub(crate) fn is_countable(cert: &written::Cert) -> bool
    ensures steps { IsTrue result → length cert.now.steps < 2 ^ 32 }
    ensures items { IsTrue result → IsTrue (list_all is_short cert.now.steps) }
{
    cert.steps.as_slice().len() < 4294967296 && are_short(cert.steps.as_slice())
}

// The refusal of a certificate's rows that have this fault.
fn row_refusal(fault: RowFault) -> Refusal
    ensures { (names : List (List ℕ)) (body : Statements) (cert : CertValue)
        → (fault ≢ NoMemory → slice_get (faults_of (length names) cert.rows) 0 ≡ Some fault)
        → IsNoSystem names body cert result }
{
    match fault {
        RowFault::NoMemory => Refusal::NoMemory,
        _ => Refusal::Certificate(CertCause::Rows(fault)),
    }
}

// The template of a certificate's rows, over the variables of a program.
fn template_of(alloc: Global, program: &Program, rows: &Rows) -> Result<Template, Refusal>
    requires { length rows.now < 2 ^ 32 }
    ensures rows { IfOk result (λ template. template ≡ rows.now) }
    ensures sound { IfOk result (λ _. faults_of (length program.now.names) rows.now ≡ []) }
    ensures over { IfOk result (λ template. IsTrue (is_over (length program.now.names) template)) }
    ensures err { IfErr result (λ refusal. (cert : CertValue) → cert.rows ≡ rows.now
        → IsNoSystem program.now.names program.now.body cert refusal) }
{
    let vars = program.names.as_slice().len() as u32;
    match from_rows(alloc, rows.as_slice(), vars) {
        Ok(template) => Ok(template),
        Err(fault) => Err(row_refusal(fault)),
    }
}

// The system of a program and of a certificate's rows.
fn system_with(alloc: Global, program: &Program, flow: Flow, rows: &Rows) -> Result<System, Refusal>
    requires rows { length rows.now < 2 ^ 32 }
    requires names { flow.names ≡ program.now.names }
    requires points { flow.points ≡ points_of_program program.now.body }
    ensures flow { IfOk result (λ system. system.flow ≡ flow) }
    ensures template { IfOk result (λ system. system.template ≡ rows.now) }
    ensures fits { IfOk result (λ _. (cert : CertValue) → cert.rows ≡ rows.now
        → FitsProgram program.now.names program.now.body cert) }
    ensures err { IfErr result (λ refusal. (cert : CertValue) → cert.rows ≡ rows.now
        → IsNoSystem program.now.names program.now.body cert refusal) }
{
    let template = template_of(alloc, program, rows)?;
    match System::new(flow, template) {
        Ok(system) => Ok(system),
        Err(SystemFault::Unknowns { count }) => {
            Err(Refusal::Certificate(CertCause::Unknowns(count)))
        }
    }
}

// The system of a program and of the rows for which written ones stand.
pub(crate) fn system_of(
    alloc: Global,
    program: &Program,
    flow: Flow,
    rows: &[Entries],
) -> Result<System, Refusal>
    requires names { flow.names ≡ program.now.names }
    requires points { flow.points ≡ points_of_program program.now.body }
    ensures flow { IfOk result (λ system. system.flow ≡ flow) }
    ensures template { IfOk result (λ system. system.template ≡ rows_for (length program.now.names) rows.now) }
    ensures fits { IfOk result (λ _. (cert : CertValue) → cert.rows ≡ rows_for (length program.now.names) rows.now
        → FitsProgram program.now.names program.now.body cert) }
    ensures err { IfErr result (λ refusal. (cert : CertValue) → cert.rows ≡ rows_for (length program.now.names) rows.now
        → IsNoSystem program.now.names program.now.body cert refusal) }
{
    let rows = fitted_rows(alloc, program.names.as_slice().len(), rows)?;
    if rows.as_slice().len() > 4294967295 {
        return Err(Refusal::NoMemory);
    }
    system_with(alloc, program, flow, &rows)
}

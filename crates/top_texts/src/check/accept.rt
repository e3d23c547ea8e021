//! The report of the bounds of a certificate that is accepted.

ghost use Rattle.std.specs.Prelude.{◌≡◌, ◌*◌, ◌≤◌, ◌<◌, ◌^◌, ℕ, List, IfOk, IfErr, IsTrue, None, Some, length};
ghost use Rattle.std.specs.List.{list_all};
ghost use Rattle.flow_edges.specs.Edges.{edges_of_program};
ghost use Rattle.flow_edges.specs.Points.{points_of_program};
ghost use Rattle.flow_systems.specs.Equations.{Equations, Least};
ghost use Rattle.flow_systems.specs.View.{equations_of};
ghost use Rattle.theory_validity.specs.Certificates.{Certificate, ValidCertificate, bounds_vector};
ghost use Rattle.solve_composition.specs.Composed.{AreComposed};
ghost use Rattle.solve_composition.specs.Operations.{wide_composition};
ghost use Rattle.cert_checker.specs.CheckEvents.{check_events};
ghost use Rattle.cert_checker.specs.Events.{first_stop};
ghost use Rattle.cert_checker.specs.Items.{is_short};
ghost use Rattle.cert_fitted.specs.Fitted.{cert_for};
ghost use Rattle.top_texts.specs.Checks.{IsSpelt, NoneIsWide, fitted_to, theirs};
ghost use Rattle.top_texts.specs.Outcomes.{GetsNoReport, IsUnaccepted};
ghost use Rattle.top_texts.specs.Reports.{IsReportBy};
ghost use Rattle.top_texts.specs.Texts.{Program as ProgramText};

use super::certificate::{is_countable, system_of};
use crate::refusal::Refusal;
use ask_words::Format;
use cert_checker::{CheckFault, Scratch, check};
use cert_fitted::{FittedFault, check_fitted};
use cert_types::Cert;
use cert_written as written;
use flow_edges::Flow;
use flow_systems::{Footer, System};
use lang_tree::Program;
use solve_transformer::{PathFault, Paths, compose_all};
use std::alloc::Global;
use top_status::{CertCause, Excess};
use top_written::written_report;

// The composed edges of a system.
fn paths_of(alloc: Global, system: &System) -> Result<Paths, Refusal>
    ensures composed { IfOk result (λ paths. AreComposed (equations_of system.now) paths) }
    ensures narrow { IfOk result (λ _. wide_composition (equations_of system.now) ≡ None) }
    ensures err { IfErr result (λ refusal. (certificate : Certificate) → IsUnaccepted (equations_of system.now) certificate refusal) }
{
    match compose_all(alloc, system) {
        Ok(paths) => Ok(paths),
        Err(PathFault::Wide(spot)) => Err(Refusal::Exceeded(Excess::Wide(spot))),
        Err(PathFault::NoMemory) => Err(Refusal::NoMemory),
    }
}

// The refusal of a certificate whose check stops there.
fn check_refusal(fault: CheckFault) -> Refusal
    ensures { (system : Equations) (certificate : Certificate) → wide_composition system ≡ None
        → first_stop (check_events system certificate) ≡ Some fault → IsUnaccepted system certificate result }
{
    match fault {
        CheckFault::Wide(spot) => Refusal::Exceeded(Excess::Wide(spot)),
        _ => Refusal::Certificate(CertCause::Check(fault)),
    }
}

// Whether the certificate is valid for a system with its rows.
pub(crate) fn accept(alloc: Global, system: &System, cert: &Cert) -> Result<(), Refusal>
    requires rows { system.now.template ≡ cert.now.rows }
    requires few { length cert.now.steps < 2 ^ 32 }
    requires short { IsTrue (list_all is_short cert.now.steps) }
    ensures valid { IfOk result (λ _. ValidCertificate (equations_of system.now) (theirs cert.now)) }
    ensures narrow { IfOk result (λ _. NoneIsWide (equations_of system.now) (theirs cert.now)) }
    ensures least { IfOk result (λ _. Least (equations_of system.now) (bounds_vector (equations_of system.now) cert.now.bounds)) }
    ensures err { IfErr result (λ refusal. IsUnaccepted (equations_of system.now) (theirs cert.now) refusal) }
{
    let paths = paths_of(alloc, system)?;
    let mut scratch = Scratch::new(alloc, system)?;
    match check(system, &paths, cert, &mut scratch) {
        Ok(()) => Ok(()),
        Err(fault) => Err(check_refusal(fault)),
    }
}

// Whether the certificate for which a written one stands in a system is valid for it.
fn accept_written(alloc: Global, system: &System, cert: &written::Cert) -> Result<(), Refusal>
    ensures valid { IfOk result (λ _. ValidCertificate (equations_of system.now) (theirs (cert_for (equations_of system.now) cert.now))) }
    ensures narrow { IfOk result (λ _. NoneIsWide (equations_of system.now) (theirs (cert_for (equations_of system.now) cert.now))) }
    ensures least { IfOk result (λ _. Least (equations_of system.now) (bounds_vector (equations_of system.now) cert.now.bounds)) }
    ensures err { IfErr result (λ refusal. IsUnaccepted (equations_of system.now) (theirs (cert_for (equations_of system.now) cert.now))
        refusal) }
{
    if !is_countable(cert) {
        return Err(Refusal::NoMemory);
    }
    let paths = paths_of(alloc, system)?;
    let mut scratch = Scratch::new(alloc, system)?;
    match check_fitted(alloc, system, &paths, cert, &mut scratch) {
        Ok(()) => Ok(()),
        Err(FittedFault::Check(fault)) => Err(check_refusal(fault)),
        Err(FittedFault::NoMemory) => Err(Refusal::NoMemory),
    }
}

/// The whole report in a format of the bounds of a certificate as a text has it, where it is valid for a program.
///
/// # Errors
///
/// The first cause that stands: a fault of the certificate's rows, too many unknowns, a test that fails, or a wide operation; or
/// want of memory.
pub fn report_by(
    alloc: Global,
    program: &Program,
    flow: Flow,
    cert: &written::Cert,
    format: Format,
) -> Result<Vec<u8>, Refusal>
    requires names { flow.names ≡ program.now.names }
    requires points { flow.points ≡ points_of_program program.now.body }
    requires edges { flow.edges ≡ edges_of_program program.now.body }
    ensures ok { IfOk result (λ bytes. (source : ProgramText) (given : List ℕ)
        → IsSpelt source given program.now.names program.now.body (fitted_to program.now.names program.now.body cert.now)
        → IsReportBy source given format bytes.items) }
    ensures err { IfErr result (λ refusal. GetsNoReport program.now.names program.now.body
        (fitted_to program.now.names program.now.body cert.now) refusal) }
{
    let system = system_of(alloc, program, flow, cert.rows.as_slice())?;
    accept_written(alloc, &system, cert)?;
    Ok(written_report(alloc, &system, &cert.bounds, Footer::Accepted, format)?)
}

//! The whole check of a certificate.

ghost use Rattle.std.specs.Prelude.{◌≡◌, ◌↔◌, ◌<◌, ◌^◌, IsTrue, IsOk, Err, Some, None, length};
ghost use Rattle.std.specs.List.{list_all};
ghost use Rattle.base_fractions.specs.Fits.{long_limit};
ghost use Rattle.base_fractions.specs.Operation.{first_wide};
ghost use Rattle.flow_systems.specs.Equations.{Least};
ghost use Rattle.flow_systems.specs.View.{equations_of};
ghost use Rattle.solve_composition.specs.Composed.{AreComposed};
ghost use Rattle.theory_validity.specs.Certificates.{ValidCertificate, bounds_vector};
ghost use Rattle.theory_validity.specs.Faults.{Fault, certificate_fault};
ghost use Rattle.cert_types.specs.Certificates.{certificate_of};
ghost use Rattle.cert_checker.specs.Events.{IsRun, fault_answer, operations_of};
ghost use Rattle.cert_checker.specs.CheckEvents.{check_events};
ghost use Rattle.cert_checker.specs.Items.{is_short};
ghost use Rattle.cert_checker.specs.Rooms.{HasRoom};

use crate::fault::CheckFault;
use crate::final_vector::compare;
use crate::scratch::Scratch;
use crate::size::has_size;
use crate::steps::check_steps;
use crate::uppers::check_uppers;
use cert_types::Cert;
use flow_systems::System;
use solve_composition::Paths;

/// Checks a certificate against the system whose template is the certificate's rows, with the composed forms of its edges.
/// The order of the tests is written in `docs/FORMATS.md`; the bounds of a certificate that passes are the least vector.
///
/// # Errors
///
/// The first test that fails, or the first sum that is too wide, whichever comes first. Takes no memory.
pub fn check(
    system: &System,
    paths: &Paths,
    cert: &Cert,
    scratch: &mut Scratch,
) -> Result<(), CheckFault>
    requires rows { system.now.template ≡ cert.now.rows }
    requires paths { AreComposed (equations_of system.now) paths.now }
    requires few { length cert.now.steps < 2 ^ 32 }
    requires short { IsTrue (list_all is_short cert.now.steps) }
    requires room { HasRoom (equations_of system.now) scratch.old }
    ensures room { HasRoom (equations_of system.now) scratch.new }
    ensures answer { let theirs = certificate_of (length system.now.template) cert.now in
        IsRun (λ u. Unit {0}) (check_events (equations_of system.now) theirs) result }
    ensures valid { let theirs = certificate_of (length system.now.template) cert.now in
        IsOk result ↔ (ValidCertificate (equations_of system.now) theirs ×
        (first_wide long_limit (operations_of (check_events (equations_of system.now) theirs)) ≡ None)) }
    ensures fault { let theirs = certificate_of (length system.now.template) cert.now in
        (fault : Fault) → result ≡ Err (fault_answer fault) → certificate_fault (equations_of system.now) theirs ≡ Some fault }
    ensures least { IsOk result → Least (equations_of system.now) (bounds_vector (equations_of system.now) cert.now.bounds) }
{
    if !has_size(system, &cert.bounds, cert.uppers.as_slice().len()) {
        return Err(CheckFault::Size);
    }
    check_steps(system, cert.steps.as_slice(), scratch)?;
    compare(&scratch.base, &cert.bounds)?;
    check_uppers(system, paths, &cert.bounds, cert.uppers.as_slice())
}

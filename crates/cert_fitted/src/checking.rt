//! The check of a written certificate: each step and each piece of evidence is fitted, tested and dropped.

ghost use Rattle.std.specs.Prelude.{◌≡◌, ◌≢◌, ◌↔◌, ◌*◌, ◌<◌, ◌/◌, ◌^◌, [], ◌∷◌, Err, IsOk, IsTrue, None, Some, length, map};
ghost use Rattle.std.specs.List.{list_all};
ghost use Rattle.base_fractions.specs.Fits.{long_limit};
ghost use Rattle.base_fractions.specs.Operation.{first_wide};
ghost use Rattle.flow_systems.specs.Cells.{guard_count};
ghost use Rattle.flow_systems.specs.Equations.{Least, Vector};
ghost use Rattle.flow_systems.specs.View.{equations_of};
ghost use Rattle.solve_composition.specs.Composed.{AreComposed};
ghost use Rattle.theory_validity.specs.Certificates.{ValidCertificate, after_steps, bounds_vector, needs};
ghost use Rattle.theory_validity.specs.Faults.{Fault, certificate_fault};
ghost use Rattle.theory_validity.specs.Steps.{start_vector};
ghost use Rattle.cert_types.specs.Certificates.{certificate_of, evidence_of, step_of};
ghost use Rattle.cert_checker.specs.CheckEvents.{check_events, uppers_events};
ghost use Rattle.cert_checker.specs.Events.{fault_answer, operations_of};
ghost use Rattle.cert_checker.specs.Needs.{need_of};
ghost use Rattle.cert_checker.specs.Rooms.{HasRoom};
ghost use Rattle.cert_checker.specs.Stands.{Stands};
ghost use Rattle.cert_checker.specs.StepEvents.{steps_events};
ghost use Rattle.cert_fitted.specs.Checked.{IsFittedRun, is_short};
ghost use Rattle.cert_fitted.specs.Fitted.{cert_for, step_for, upper_for, uppers_for};
ghost use Rattle.cert_fitted.specs.Needed.{guards_needed};
ghost use Rattle.cert_fitted.specs.declared.checking.FittedFault.TheVariants.{Check, NoMemory};

use crate::fitting::{step_for, upper_for};
use crate::needed::guards_at;
use cert_checker::{
    CheckFault, Needed, Scratch, check_end, check_upper, compare, has_size, start, take_step,
};
use cert_written as written;
use flow_systems::{Bounds, System};
use solve_composition::Paths;
use std::alloc::{AllocError, Global};

/// Why the check of a written certificate ends.
#[derive(Clone, Copy, Debug, PartialEq, Eq, Drop)]
pub enum FittedFault {
    /// The check of the certificate for which it stands ends so.
    Check(CheckFault),
    /// There was no memory for a step or a piece of evidence.
    NoMemory,
}

impl From<CheckFault> for FittedFault {
    ghost use Rattle.std.specs.Prelude.{◌≡◌};
    ghost use Rattle.cert_fitted.specs.declared.checking.FittedFault.TheVariants.{Check};

    ghost from_gives = { λ found fault. fault ≡ Check found };

    fn from(found: CheckFault) -> FittedFault {
        FittedFault::Check(found)
    }
}

impl From<AllocError> for FittedFault {
    ghost use Rattle.std.specs.Prelude.{◌≡◌};
    ghost use Rattle.cert_fitted.specs.declared.checking.FittedFault.TheVariants.{NoMemory};

    ghost from_gives = { λ _ fault. fault ≡ NoMemory };

    fn from(_refused: AllocError) -> FittedFault {
        FittedFault::NoMemory
    }
}

// The tests of the steps for which written ones stand: the scratch has the vector that they lead to as its `base`.
fn check_steps(
    alloc: Global,
    system: &System,
    steps: &[written::Step],
    scratch: &mut Scratch,
) -> Result<(), FittedFault>
    requires few { length steps.now < 2 ^ 32 }
    requires short { IsTrue (list_all is_short steps.now) }
    requires room { HasRoom (equations_of system.now) scratch.old }
    ensures room { HasRoom (equations_of system.now) scratch.new }
    ensures answer { let theirs = map (step_of (length system.now.template)) (map (step_for (equations_of system.now)) steps.now) in
        IsFittedRun (λ u. Stands (equations_of system.now) scratch.new.base (after_steps theirs start_vector))
        (steps_events (equations_of system.now) start_vector 0 theirs) result }
{
    start(system, scratch);
    for (number, step) in steps.iter().enumerate() {
        let fitted = step_for(alloc, system, step)?;
        take_step(system, &fitted, number as u32, scratch)?;
    }
    Ok(())
}

// The tests of the evidence for which a written piece stands where this is needed.
fn check_upper_for(
    alloc: Global,
    system: &System,
    paths: &Paths,
    bounds: &Bounds,
    needed: Needed,
    upper: &written::Upper,
) -> Result<(), FittedFault>
    requires paths { AreComposed (equations_of system.now) paths.now }
    requires bounds { length bounds.now ≡ length system.now.flow.points * length system.now.template }
    requires unknown { needed.unknown < length bounds.now }
    requires edge { needed.edge < length system.now.flow.edges }
    ensures { (z : Vector) → Stands (equations_of system.now) bounds.now z → let need = need_of (equations_of system.now) needed in
        need.edge.to ≡ needed.unknown / length system.now.template →
        IsFittedRun (λ u. Unit {0}) (uppers_events (equations_of system.now) z (need ∷ [])
        (evidence_of (upper_for (length system.now.template) (guard_count need.edge.actions) upper.now) ∷ [])) result }
{
    let rows = system.template.as_slice().len();
    let guards = guards_at(system, needed.edge);
    let fitted = upper_for(alloc, rows, guards, upper)?;
    check_upper(system, paths, bounds, needed, &fitted)?;
    Ok(())
}

// The tests of all evidence that the bounds need, in order, as the written one stands for it.
fn check_uppers(
    alloc: Global,
    system: &System,
    paths: &Paths,
    bounds: &Bounds,
    uppers: &[written::Upper],
) -> Result<(), FittedFault>
    requires paths { AreComposed (equations_of system.now) paths.now }
    requires bounds { length bounds.now ≡ length system.now.flow.points * length system.now.template }
    ensures { let S = equations_of system.now in let z = bounds_vector S bounds.now in
        IsFittedRun (λ u. Unit {0}) (uppers_events S z (needs S z)
        (map evidence_of (uppers_for (length S.template) (guards_needed S bounds.now) uppers.now))) result }
{
    let mut from = Needed::first(system);
    for upper in uppers {
        match from.next(system, bounds) {
            None => return Ok(()),
            Some(needed) => {
                check_upper_for(alloc, system, paths, bounds, needed, upper)?;
                from = needed.after();
            }
        }
    }
    check_end(system, bounds, from)?;
    Ok(())
}

/// Checks the certificate for which a written one stands where its rows are the template of the system, with the composed forms of the
/// system's edges. One step and one piece of evidence are fitted at a time, so little memory is taken beside the written certificate.
///
/// # Errors
///
/// The first test that fails, or the first sum that is too wide, whichever comes first; or want of memory.
pub fn check_fitted(
    alloc: Global,
    system: &System,
    paths: &Paths,
    cert: &written::Cert,
    scratch: &mut Scratch,
) -> Result<(), FittedFault>
    requires paths { AreComposed (equations_of system.now) paths.now }
    requires few { length cert.now.steps < 2 ^ 32 }
    requires short { IsTrue (list_all is_short cert.now.steps) }
    requires room { HasRoom (equations_of system.now) scratch.old }
    ensures room { HasRoom (equations_of system.now) scratch.new }
    ensures answer { let S = equations_of system.now in let theirs = certificate_of (length S.template) (cert_for S cert.now) in
        IsFittedRun (λ u. Unit {0}) (check_events S theirs) result }
    ensures valid { let S = equations_of system.now in let theirs = certificate_of (length S.template) (cert_for S cert.now) in
        result ≢ Err NoMemory → IsOk result ↔ (ValidCertificate S theirs ×
        (first_wide long_limit (operations_of (check_events S theirs)) ≡ None)) }
    ensures fault { let S = equations_of system.now in let theirs = certificate_of (length S.template) (cert_for S cert.now) in
        (fault : Fault) → result ≡ Err (Check (fault_answer fault)) → certificate_fault S theirs ≡ Some fault }
    ensures least { IsOk result → Least (equations_of system.now) (bounds_vector (equations_of system.now) cert.now.bounds) }
{
    if !has_size(system, &cert.bounds, cert.uppers.as_slice().len()) {
        return Err(FittedFault::Check(CheckFault::Size));
    }
    check_steps(alloc, system, cert.steps.as_slice(), scratch)?;
    compare(&scratch.base, &cert.bounds)?;
    check_uppers(alloc, system, paths, &cert.bounds, cert.uppers.as_slice())
}

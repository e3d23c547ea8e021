//! The steps of a certificate.

ghost use Rattle.std.specs.Prelude.{◌≡◌, ◌*◌, ◌<◌, ◌^◌, ◌↔◌, ℕ, IfOk, IsTrue, MatchResult, Some, None, length, map};
ghost use Rattle.std.specs.List.{list_all};
ghost use Rattle.base_fractions.specs.Extended.{extended};
ghost use Rattle.flow_systems.specs.Equations.{Equations, Vector};
ghost use Rattle.flow_systems.specs.View.{equations_of};
ghost use Rattle.cert_types.specs.Certificates.{step_of};
ghost use Rattle.theory_validity.specs.Steps.{after_step, new_value, put, start_vector};
ghost use Rattle.theory_validity.specs.Certificates.{after_steps};
ghost use Rattle.cert_checker.specs.Events.{IsRun, first_stop};
ghost use Rattle.cert_checker.specs.Items.{item_count, item_at, is_short};
ghost use Rattle.cert_checker.specs.StepEvents.{StepPasses, second_pass_events, step_events, steps_events};
ghost use Rattle.cert_checker.specs.Stands.{Stands, start_at};
ghost use Rattle.cert_checker.specs.Rooms.{HasRoom, IsAt};
ghost use Rattle.cert_checker.specs.Usable.{IsUsable};

use crate::fault::CheckFault;
use crate::first_pass::first_pass;
use crate::new_bounds::{set_new_bounds, set_rates};
use crate::scratch::Scratch;
use crate::second_pass::{test_jump, test_ray};
use base_fractions::Ext;
use cert_types::Step;
use flow_systems::{Bounds, System};
use std::alloc::{AllocError, Global};

// The tests of a step's items after all of them have passed at the vector that the step finds.
fn second_pass(
    system: &System,
    step: &Step,
    number: u32,
    base: &Bounds,
    next: &Bounds,
    rates: &mut Bounds,
) -> Result<(), CheckFault>
    requires few { item_count step.now < 2 ^ 32 }
    requires usable { (k : ℕ) → k < item_count step.now → IsUsable (step_of (length system.now.template) step.now).kind
        (equations_of system.now)
        (item_at (length system.now.template) step.now k) }
    requires base { length base.now ≡ length system.now.flow.points * length system.now.template }
    requires next { length next.now ≡ length system.now.flow.points * length system.now.template }
    requires rates { length rates.old ≡ length system.now.flow.points * length system.now.template }
    ensures size { length rates.new ≡ length rates.old }
    ensures answer { (z : Vector) → Stands (equations_of system.now) base.now z
        → let theirs = step_of (length system.now.template) step.now in
        Stands (equations_of system.now) next.now (put (new_value theirs.kind) theirs.items z) →
        IsRun (λ u. Unit {0}) (second_pass_events theirs.kind (equations_of system.now) z theirs.items number 0 theirs.items) result }
{
    match step {
        Step::Plain(_) => Ok(()),
        Step::Jump(_) => test_jump(system, step, number, base, next),
        Step::Ray(_) => {
            set_rates(step, base, rates);
            test_ray(system, step, number, rates)
        }
    }
}

// Takes a step: both vectors are those that the step finds, and then those that it leads to.
fn take(
    system: &System,
    step: &Step,
    number: u32,
    base: &mut Bounds,
    next: &mut Bounds,
    rates: &mut Bounds,
) -> Result<(), CheckFault>
    requires few { item_count step.now < 2 ^ 32 }
    requires base { length base.old ≡ length system.now.flow.points * length system.now.template }
    requires next { length next.old ≡ length system.now.flow.points * length system.now.template }
    requires rates { length rates.old ≡ length system.now.flow.points * length system.now.template }
    ensures base { length base.new ≡ length base.old }
    ensures next { length next.new ≡ length next.old }
    ensures rates { length rates.new ≡ length rates.old }
    ensures taken { (z : Vector) → Stands (equations_of system.now) base.old z → Stands (equations_of system.now) next.old z →
        let theirs = step_of (length system.now.template) step.now in
        MatchResult result (λ u. Stands (equations_of system.now) base.new (after_step theirs z)
        × Stands (equations_of system.now) next.new (after_step theirs z) ×
        (first_stop (step_events (equations_of system.now) z number theirs) ≡ None))
        (λ fault. first_stop (step_events (equations_of system.now) z number theirs) ≡ Some fault) }
{
    first_pass(system, step, number, base)?;
    set_new_bounds(step, next);
    second_pass(system, step, number, base, next, rates)?;
    set_new_bounds(step, base);
    Ok(())
}

// The same bounds once more.
fn copied(alloc: Global, bounds: &Bounds) -> Result<Bounds, AllocError>
    ensures { IfOk result (λ copy. copy ≡ bounds.now) }
{
    let list = bounds.as_slice().to_vec(alloc)?;
    Ok(Bounds::new(list))
}

/// Whether a step passes where these are the bounds, as a step of a certificate does: it is valid there, and no sum of its tests is too
/// wide.
///
/// # Errors
///
/// Want of memory.
pub fn step_passes(
    alloc: Global,
    system: &System,
    step: &Step,
    bounds: &Bounds,
) -> Result<bool, AllocError>
    requires few { item_count step.now < 2 ^ 32 }
    requires bounds { length bounds.now ≡ length system.now.flow.points * length system.now.template }
    ensures { IfOk result (λ passes. (z : Vector) → Stands (equations_of system.now) bounds.now z
        → IsTrue passes ↔ StepPasses (equations_of system.now) z (step_of (length system.now.template) step.now)) }
{
    let mut base = copied(alloc, bounds)?;
    let mut next = copied(alloc, bounds)?;
    let mut rates = copied(alloc, bounds)?;
    match take(system, step, 0, &mut base, &mut next, &mut rates) {
        Ok(()) => Ok(true),
        Err(_) => Ok(false),
    }
}

// The bound from which an unknown starts.
fn first_bound(rows: u32, unknown: u32) -> Ext
    ensures { extended result ≡ start_at rows unknown }
{
    if unknown < rows {
        Ext::PosInf
    } else {
        Ext::NegInf
    }
}

// Gives all unknowns the bounds from which the steps start.
fn restart(rows: u32, bounds: &mut Bounds)
    requires { length bounds.old < 2 ^ 32 }
    ensures size { length bounds.new ≡ length bounds.old }
    ensures start { (system : Equations) → rows ≡ length system.template → length bounds.old ≡ system.points * length system.template →
        Stands system bounds.new start_vector }
{
    for u in 0..bounds.as_slice().len() as u32 {
        bounds.set(u, first_bound(rows, u));
    }
}

/// Gives a scratch the vector from which steps start: `+inf` at the entry and `-inf` elsewhere.
pub fn start(system: &System, scratch: &mut Scratch)
    requires { HasRoom (equations_of system.now) scratch.old }
    ensures room { HasRoom (equations_of system.now) scratch.new }
    ensures start { IsAt (equations_of system.now) scratch.new start_vector }
{
    let rows = system.template.as_slice().len() as u32;
    restart(rows, &mut scratch.base);
    restart(rows, &mut scratch.next);
}

/// Takes the step of this number, where a scratch has the vector that it finds: the scratch then has the one that it leads to.
///
/// # Errors
///
/// The first test of the step that fails, or the first sum that is too wide, whichever comes first; the scratch then has anything. Takes
/// no memory.
pub fn take_step(
    system: &System,
    step: &Step,
    number: u32,
    scratch: &mut Scratch,
) -> Result<(), CheckFault>
    requires few { item_count step.now < 2 ^ 32 }
    requires room { HasRoom (equations_of system.now) scratch.old }
    ensures room { HasRoom (equations_of system.now) scratch.new }
    ensures answer { (z : Vector) → IsAt (equations_of system.now) scratch.old z →
        let theirs = step_of (length system.now.template) step.now in
        IsRun (λ u. IsAt (equations_of system.now) scratch.new (after_step theirs z))
        (step_events (equations_of system.now) z number theirs) result }
{
    take(
        system,
        step,
        number,
        &mut scratch.base,
        &mut scratch.next,
        &mut scratch.rates,
    )
}

// The tests of steps that follow each other from the start: the scratch has the vector that they lead to as its `base`.
pub(crate) fn check_steps(
    system: &System,
    steps: &[Step],
    scratch: &mut Scratch,
) -> Result<(), CheckFault>
    requires few { length steps.now < 2 ^ 32 }
    requires short { IsTrue (list_all is_short steps.now) }
    requires room { HasRoom (equations_of system.now) scratch.old }
    ensures room { HasRoom (equations_of system.now) scratch.new }
    ensures answer { let theirs = map (step_of (length system.now.template)) steps.now in
        IsRun (λ u. Stands (equations_of system.now) scratch.new.base (after_steps theirs start_vector))
        (steps_events (equations_of system.now) start_vector 0 theirs) result }
{
    start(system, scratch);
    for (number, step) in steps.iter().enumerate() {
        take_step(system, step, number as u32, scratch)?;
    }
    Ok(())
}

//! The tests of a step's items at the vector that the step finds.

ghost use Rattle.std.specs.Prelude.{◌≡◌, ◌↔◌, ◌*◌, ◌<◌, ◌^◌, [], ◌∷◌, ◌++◌, List, IsTrue, length};
ghost use Rattle.base_numbers.specs.Rational.{ℚ};
ghost use Rattle.base_numbers.specs.Extended.{fin, ◌<ᴱ◌};
ghost use Rattle.base_fractions.specs.Extended.{extended};
ghost use Rattle.flow_systems.specs.declared.spot.Site.{Site};
ghost use Rattle.flow_systems.specs.Equations.{Vector};
ghost use Rattle.flow_systems.specs.View.{equations_of};
ghost use Rattle.cert_types.specs.Certificates.{step_of};
ghost use Rattle.theory_validity.specs.Steps.{Placed, Sized};
ghost use Rattle.theory_validity.specs.Faults.{Fault, TraceFault, LowFault};
ghost use Rattle.cert_checker.specs.Events.{Answers, Event, IsRun, Test, decided};
ghost use Rattle.cert_checker.specs.Items.{item_count, item_at, earlier_items};
ghost use Rattle.cert_checker.specs.StepEvents.{IsOpen, IsRaised, at_item, dec_raised, first_events, first_pass_events, low_events};
ghost use Rattle.cert_checker.specs.Stands.{Stands};

use crate::fault::{CheckFault, ensure, item_site, value_or};
use crate::following::{Way, follow_item};
use crate::item::{count, low_at, number_at, unknown_at};
use crate::names::is_named;
use base_fractions::{Ext, Frac, Wide};
use cert_types::Step;
use flow_systems::{Bounds, System};

// Whether a bound is below a number.
pub fn is_below(bound: Ext, number: Frac) -> bool
    ensures { IsTrue result ↔ (extended bound <ᴱ fin number) }
{
    match bound {
        Ext::NegInf => true,
        Ext::Fin(limit) => limit < number,
        Ext::PosInf => false,
    }
}

// Whether a step can start from an unknown with this bound.
fn is_open(step: &Step, bound: Ext) -> bool
    ensures { IsTrue result ↔ IsOpen (step_of 1 step.now).kind (extended bound) }
{
    match step {
        Step::Plain(_) => true,
        Step::Jump(_) => matches!(bound, Ext::Fin(_)),
        Step::Ray(_) => !matches!(bound, Ext::PosInf),
    }
}

// Whether an item's trace with this value shows what the step says of it.
fn is_raised(step: &Step, bound: Ext, number: Frac, value: Frac) -> bool
    ensures { IsTrue result ↔ IsRaised (step_of 1 step.now).kind (extended bound) number value }
{
    match step {
        Step::Plain(_) => is_below(bound, number) && number <= value,
        _ => is_below(bound, value),
    }
}

// The last test of an item at the vector that the step finds: what its low trace, followed, shows.
fn ensure_raised(
    step: &Step,
    bound: Ext,
    to: Frac,
    followed: Result<Option<Frac>, Wide<Frac>>,
    number: u32,
    k: u32,
) -> Result<(), CheckFault>
    ensures { (value : ℚ) (events : Site → Fault → List Event) → Answers (λ v. v ≡ value) events followed →
        let last = dec_raised (step_of 1 step.now).kind (extended bound) to value in
        IsRun (λ u. Unit {0}) (events (at_item number k) (TraceFault number k) ++ Test (decided last) (LowFault number k) ∷ []) result }
{
    let wrong = CheckFault::Trace {
        step: number,
        item: k,
    };
    let value = value_or(followed, item_site(number, k), wrong)?;
    ensure(
        is_raised(step, bound, to, value),
        CheckFault::Low {
            step: number,
            item: k,
        },
    )
}

// The tests of a named item's low trace.
fn test_low(
    system: &System,
    step: &Step,
    number: u32,
    k: u32,
    bounds: &Bounds,
) -> Result<(), CheckFault>
    requires item { k < item_count step.now }
    requires placed { Placed (equations_of system.now) (item_at (length system.now.template) step.now k) }
    requires sized { Sized (equations_of system.now) (item_at (length system.now.template) step.now k)
        (item_at (length system.now.template) step.now k).low }
    requires bounds { length bounds.now ≡ length system.now.flow.points * length system.now.template }
    ensures { (z : Vector) → Stands (equations_of system.now) bounds.now z → let rows = length system.now.template in
        IsRun (λ u. Unit {0}) (low_events (step_of rows step.now).kind (equations_of system.now) z number k (item_at rows step.now k))
        result }
{
    let place = k as usize;
    let unknown = unknown_at(step, place);
    ensure(
        is_open(step, bounds.at(unknown)),
        CheckFault::Low {
            step: number,
            item: k,
        },
    )?;
    ensure_raised(
        step,
        bounds.at(unknown),
        number_at(step, place),
        follow_item(system, bounds, step, place, Way::Trace, low_at(step, place)),
        number,
        k,
    )
}

// An item's tests.
fn test_item(
    system: &System,
    step: &Step,
    number: u32,
    k: u32,
    bounds: &Bounds,
) -> Result<(), CheckFault>
    requires item { k < item_count step.now }
    requires bounds { length bounds.now ≡ length system.now.flow.points * length system.now.template }
    ensures { (z : Vector) → Stands (equations_of system.now) bounds.now z → let theirs = step_of (length system.now.template) step.now in
        let item = item_at (length system.now.template) step.now k in
        IsRun (λ u. Unit {0}) (first_events theirs.kind (equations_of system.now) z number k (earlier_items theirs.items k) item) result }
{
    ensure(
        is_named(system, step, k as usize),
        CheckFault::Trace {
            step: number,
            item: k,
        },
    )?;
    test_low(system, step, number, k, bounds)
}

/// The tests of all items, in order.
pub fn first_pass(
    system: &System,
    step: &Step,
    number: u32,
    bounds: &Bounds,
) -> Result<(), CheckFault>
    requires few { item_count step.now < 2 ^ 32 }
    requires bounds { length bounds.now ≡ length system.now.flow.points * length system.now.template }
    ensures { (z : Vector) → Stands (equations_of system.now) bounds.now z → let theirs = step_of (length system.now.template) step.now in
        IsRun (λ u. Unit {0}) (first_pass_events theirs.kind (equations_of system.now) z number 0 [] theirs.items) result }
{
    for k in 0..count(step) as u32 {
        test_item(system, step, number, k, bounds)?;
    }
    Ok(())
}

//! The tests of a step's items after all of them have passed at the vector that the step finds.

ghost use Rattle.std.specs.Prelude.{◌≡◌, ◌↔◌, ◌*◌, ◌<◌, ◌^◌, ℕ, IsTrue, length};
ghost use Rattle.base_numbers.specs.Extended.{fin, ◌≤ᴱ◌};
ghost use Rattle.base_fractions.specs.Extended.{extended};
ghost use Rattle.flow_systems.specs.Equations.{Vector};
ghost use Rattle.flow_systems.specs.View.{equations_of};
ghost use Rattle.cert_types.specs.Certificates.{step_of};
ghost use Rattle.theory_validity.specs.Steps.{Kind, new_value, put};
ghost use Rattle.cert_checker.specs.Events.{IsRun};
ghost use Rattle.cert_checker.specs.Items.{item_count, item_at};
ghost use Rattle.cert_checker.specs.StepEvents.{allowances, landing_events, going_events, second_pass_events};
ghost use Rattle.cert_checker.specs.Stands.{Stands};
ghost use Rattle.cert_checker.specs.Usable.{IsUsable};

use crate::fault::{CheckFault, ensure, ensure_reached, item_site};
use crate::following::{Way, follow_item};
use crate::item::{count, number_at, second_at, unknown_at};
use base_fractions::{Ext, Frac, OrderedField};
use cert_types::Step;
use flow_systems::{Bounds, System};

// Whether a bound is at most a number.
fn is_at_most(bound: Ext, number: Frac) -> bool
    ensures { IsTrue result ↔ (extended bound ≤ᴱ fin number) }
{
    match bound {
        Ext::NegInf => true,
        Ext::Fin(limit) => limit <= number,
        Ext::PosInf => false,
    }
}

// The tests of a jump's item where the new bounds are in place.
fn test_jump_item(
    system: &System,
    step: &Step,
    number: u32,
    k: u32,
    base: &Bounds,
    next: &Bounds,
) -> Result<(), CheckFault>
    requires item { k < item_count step.now }
    requires jump { (step_of (length system.now.template) step.now).kind ≡ Kind.Jump }
    requires usable { IsUsable Kind.Jump (equations_of system.now) (item_at (length system.now.template) step.now k) }
    requires base { length base.now ≡ length system.now.flow.points * length system.now.template }
    requires next { length next.now ≡ length system.now.flow.points * length system.now.template }
    ensures { (z p : Vector) → Stands (equations_of system.now) base.now z → Stands (equations_of system.now) next.now p →
        IsRun (λ u. Unit {0}) (landing_events (equations_of system.now) z p number k (item_at (length system.now.template) step.now k))
        result }
{
    let place = k as usize;
    let to = number_at(step, place);
    ensure(
        is_at_most(base.at(unknown_at(step, place)), to),
        CheckFault::High {
            step: number,
            item: k,
        },
    )?;
    ensure_reached(
        follow_item(
            system,
            next,
            step,
            place,
            Way::Trace,
            second_at(step, place),
        ),
        to,
        item_site(number, k),
        CheckFault::High {
            step: number,
            item: k,
        },
    )
}

/// The tests of all items of a jump.
pub fn test_jump(
    system: &System,
    step: &Step,
    number: u32,
    base: &Bounds,
    next: &Bounds,
) -> Result<(), CheckFault>
    requires few { item_count step.now < 2 ^ 32 }
    requires jump { (step_of (length system.now.template) step.now).kind ≡ Kind.Jump }
    requires usable { (k : ℕ) → k < item_count step.now → IsUsable Kind.Jump (equations_of system.now)
        (item_at (length system.now.template) step.now k) }
    requires base { length base.now ≡ length system.now.flow.points * length system.now.template }
    requires next { length next.now ≡ length system.now.flow.points * length system.now.template }
    ensures { (z : Vector) → Stands (equations_of system.now) base.now z
        → let items = (step_of (length system.now.template) step.now).items in
        Stands (equations_of system.now) next.now (put (new_value Kind.Jump) items z) →
        IsRun (λ u. Unit {0}) (second_pass_events Kind.Jump (equations_of system.now) z items number 0 items) result }
{
    for k in 0..count(step) as u32 {
        test_jump_item(system, step, number, k, base, next)?;
    }
    Ok(())
}

// The tests of a ray's item.
fn test_ray_item(
    system: &System,
    step: &Step,
    number: u32,
    k: u32,
    rates: &Bounds,
) -> Result<(), CheckFault>
    requires item { k < item_count step.now }
    requires ray { (step_of (length system.now.template) step.now).kind ≡ Kind.Ray }
    requires usable { IsUsable Kind.Ray (equations_of system.now) (item_at (length system.now.template) step.now k) }
    requires rates { length rates.now ≡ length system.now.flow.points * length system.now.template }
    ensures { (z : Vector) → let items = (step_of (length system.now.template) step.now).items in
        Stands (equations_of system.now) rates.now (allowances items z) →
        IsRun (λ u. Unit {0}) (going_events (equations_of system.now) z items number k (item_at (length system.now.template) step.now k))
        result }
{
    let place = k as usize;
    let rate = number_at(step, place);
    ensure(
        Frac::zero() < rate,
        CheckFault::Ray {
            step: number,
            item: k,
        },
    )?;
    ensure_reached(
        follow_item(
            system,
            rates,
            step,
            place,
            Way::Direction,
            second_at(step, place),
        ),
        rate,
        item_site(number, k),
        CheckFault::Ray {
            step: number,
            item: k,
        },
    )
}

/// The tests of all items of a ray.
pub fn test_ray(system: &System, step: &Step, number: u32, rates: &Bounds) -> Result<(), CheckFault>
    requires few { item_count step.now < 2 ^ 32 }
    requires ray { (step_of (length system.now.template) step.now).kind ≡ Kind.Ray }
    requires usable { (k : ℕ) → k < item_count step.now → IsUsable Kind.Ray (equations_of system.now)
        (item_at (length system.now.template) step.now k) }
    requires rates { length rates.now ≡ length system.now.flow.points * length system.now.template }
    ensures { (z : Vector) → let items = (step_of (length system.now.template) step.now).items in
        Stands (equations_of system.now) rates.now (allowances items z) →
        IsRun (λ u. Unit {0}) (second_pass_events Kind.Ray (equations_of system.now) z items number 0 items) result }
{
    for k in 0..count(step) as u32 {
        test_ray_item(system, step, number, k, rates)?;
    }
    Ok(())
}

//! The bounds that a step leads to, and the rates that a ray allows.

ghost use Rattle.std.specs.Prelude.{◌≡◌, ◌<◌, ◌^◌, ℕ, length, get_or, slice_set};
ghost use Rattle.base_numbers.specs.Extended.{neg_inf};
ghost use Rattle.base_fractions.specs.Extended.{extended};
ghost use Rattle.flow_systems.specs.Equations.{Equations, Vector};
ghost use Rattle.cert_types.specs.Certificates.{step_of};
ghost use Rattle.theory_validity.specs.Steps.{new_value, put};
ghost use Rattle.cert_checker.specs.Items.{item_count, item_at};
ghost use Rattle.cert_checker.specs.StepEvents.{allowance, allowances};
ghost use Rattle.cert_checker.specs.Stands.{Stands};

use crate::item::{count, number_at, unknown_at};
use base_fractions::{Ext, Frac, OrderedField};
use cert_types::Step;
use flow_systems::Bounds;

// The bound that an item's unknown takes.
fn new_bound(step: &Step, k: usize) -> Ext
    requires { k < item_count step.now }
    ensures { (rows : ℕ) → extended result ≡ new_value (step_of rows step.now).kind (item_at rows step.now k) }
{
    match step {
        Step::Ray(_) => Ext::PosInf,
        _ => Ext::Fin(number_at(step, k)),
    }
}

// Gives an unknown that is there a bound.
fn place(bounds: &mut Bounds, unknown: u32, bound: Ext)
    ensures { bounds.new ≡ slice_set bounds.old unknown (extended bound) }
{
    if (unknown as usize) < bounds.as_slice().len() {
        bounds.set(unknown, bound);
    }
}

/// Gives the unknowns of a step's items the bounds that they take; where two items have one unknown, the first decides.
pub fn set_new_bounds(step: &Step, bounds: &mut Bounds)
    ensures size { length bounds.new ≡ length bounds.old }
    ensures settled { (system : Equations) (z : Vector) → Stands system bounds.old z →
        let theirs = step_of (length system.template) step.now in Stands system bounds.new (put (new_value theirs.kind) theirs.items z) }
{
    let mut k = count(step);
    while k > 0 {
        k -= 1;
        place(bounds, unknown_at(step, k), new_bound(step, k));
    }
}

// How fast a row with this bound may rise along a ray if no item names its unknown.
fn free_rate(bound: Ext) -> Ext
    ensures { extended result ≡ allowance (extended bound) }
{
    match bound {
        Ext::Fin(_) => Ext::Fin(Frac::zero()),
        _ => Ext::PosInf,
    }
}

// How fast each row may rise along a ray if no item named an unknown.
fn free_rates(base: &Bounds, rates: &mut Bounds)
    requires few { length base.now < 2 ^ 32 }
    requires size { length rates.old ≡ length base.now }
    ensures size { length rates.new ≡ length rates.old }
    ensures rates { (u : ℕ) → u < length base.now → get_or rates.new u neg_inf ≡ allowance (get_or base.now u neg_inf) }
{
    for u in 0..base.as_slice().len() as u32 {
        rates.set(u, free_rate(base.at(u)));
    }
}

/// How fast each row may rise along a ray: by the rate of the item with its unknown, and else not at all if its bound is
/// finite and without limit if not.
pub fn set_rates(step: &Step, base: &Bounds, rates: &mut Bounds)
    requires few { length base.now < 2 ^ 32 }
    requires size { length rates.old ≡ length base.now }
    ensures size { length rates.new ≡ length rates.old }
    ensures rates { (system : Equations) (z : Vector) → Stands system base.now z →
        let theirs = step_of (length system.template) step.now in Stands system rates.new (allowances theirs.items z) }
{
    free_rates(base, rates);
    let mut k = count(step);
    while k > 0 {
        k -= 1;
        place(rates, unknown_at(step, k), Ext::Fin(number_at(step, k)));
    }
}

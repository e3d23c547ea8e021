//! The items of a step, whatever its kind. Items are numbered from 0.

ghost use Rattle.std.specs.Prelude.{◌≡◌, ◌<◌, ◌/◌, ◌%◌, ℕ, Bool, IsTrue};
ghost use Rattle.cert_types.specs.Certificates.{pieces_of};
ghost use Rattle.cert_checker.specs.Items.{item_count, has_second, item_at};

use base_fractions::Frac;
use cert_types::Step;
use flow_systems::Trace;

// How many items a step has.
pub fn count(step: &Step) -> usize
    ensures { result ≡ item_count step.now }
{
    match step {
        Step::Plain(items) => items.as_slice().len(),
        Step::Jump(items) => items.as_slice().len(),
        Step::Ray(items) => items.as_slice().len(),
    }
}

// The number of an item's unknown.
pub fn unknown_at(step: &Step, k: usize) -> u32
    requires { k < item_count step.now }
    ensures point { (rows : ℕ) → (item_at rows step.now k).point ≡ result / rows }
    ensures row { (rows : ℕ) → (item_at rows step.now k).row ≡ result % rows }
{
    match step {
        Step::Plain(items) => items.as_slice()[k].unknown,
        Step::Jump(items) => items.as_slice()[k].unknown,
        Step::Ray(items) => items.as_slice()[k].unknown,
    }
}

// The number of an item's edge.
pub fn edge_at(step: &Step, k: usize) -> u32
    requires { k < item_count step.now }
    ensures { (rows : ℕ) → (item_at rows step.now k).edge ≡ result }
{
    match step {
        Step::Plain(items) => items.as_slice()[k].edge,
        Step::Jump(items) => items.as_slice()[k].edge,
        Step::Ray(items) => items.as_slice()[k].edge,
    }
}

// An item's trace at the vector that the step finds.
pub fn low_at(step: &Step, k: usize) -> &Trace
    requires { k < item_count step.now }
    ensures { (rows : ℕ) → (item_at rows step.now k).low ≡ pieces_of result.now }
{
    match step {
        Step::Plain(items) => &items.as_slice()[k].low,
        Step::Jump(items) => &items.as_slice()[k].low,
        Step::Ray(items) => &items.as_slice()[k].low,
    }
}

// An item's trace where the new bounds are in place, or its direction; its first trace where it has no second one.
pub fn second_at(step: &Step, k: usize) -> &Trace
    requires { k < item_count step.now }
    ensures { (rows : ℕ) → IsTrue (has_second step.now) → (item_at rows step.now k).second ≡ pieces_of result.now }
{
    match step {
        Step::Plain(items) => &items.as_slice()[k].low,
        Step::Jump(items) => &items.as_slice()[k].high,
        Step::Ray(items) => &items.as_slice()[k].direction,
    }
}

// An item's new bound, or its rate.
pub fn number_at(step: &Step, k: usize) -> Frac
    requires { k < item_count step.now }
    ensures { (rows : ℕ) → (item_at rows step.now k).number ≡ result }
{
    match step {
        Step::Plain(items) => items.as_slice()[k].to,
        Step::Jump(items) => items.as_slice()[k].to,
        Step::Ray(items) => items.as_slice()[k].rate,
    }
}

//! Written sums over their common denominators.

ghost use Rattle.std.specs.Prelude.{◌≡◌, ◌≤◌, ◌<◌, ◌++◌, ◌+ℤ◌, ◌*ℤ◌, pos, List, [], ◌∷◌, length, map, IfSome, IsTrue, IsFalse, MatchOption};
ghost use Rattle.std.specs.List.{position};
ghost use Rattle.base_numbers.specs.Rational.{whole, ◌/ℚ◌};
ghost use Rattle.lang_tree.specs.Numbers.{is_number};
ghost use Rattle.flow_rationals.specs.EquFaults.{below_faults};
ghost use Rattle.flow_rationals.specs.Totals.{NoZeros, AreTotals};
ghost use Rattle.flow_rationals.specs.WrittenSums.{is_named, den_of, factor_below, part_below, ratio_value, factor_value, signed_value};
ghost use Rattle.flow_rationals.specs.WrittenSums.{part_value, key, lcm, parts_of};
ghost use Rattle.flow_rationals.specs.WrittenSums.{common_den, scaled_value, Amount, amount, fits_after, stay_within, is_small};

use crate::limits::MOST_EQUATIONS;
use crate::reading::written::{Addends, Below, Part, Ratio, Written};
use base_fractions::Frac;
use lang_tree::Name;

/// The greatest number that there may be.
const GREATEST: u64 = 9223372036854775807;

// The fraction of two literals.
fn quotient(num: u64, den: u64) -> Frac
    requires num { num ≤ GREATEST }
    requires den { 1 ≤ den }
    requires den_within { den ≤ GREATEST }
    ensures { result ≡ whole (pos num) /ℚ whole (pos den) }
{
    Frac::make(num as i64, den as i64).unwrap()
}

// The second number of a ratio, and 1 where there is none.
fn den_of(below: &Option<Below>) -> u64
    ensures den { result ≡ den_of below.now }
    ensures within { result ≤ GREATEST }
{
    match below {
        Some(below) => below.den.value(),
        None => 1,
    }
}

/// The fraction of a ratio.
pub(crate) fn ratio_value(ratio: &Ratio) -> Frac
    requires { below_faults ratio.now.below ≡ [] }
    ensures { result ≡ ratio_value ratio.now }
{
    quotient(ratio.num.value(), den_of(&ratio.below))
}

// The factor of a name, and 1 where there is none.
fn factor_value(factor: &Option<Ratio>) -> Frac
    requires { below_faults (factor_below factor.now) ≡ [] }
    ensures { result ≡ factor_value factor.now }
{
    match factor {
        Some(ratio) => ratio_value(ratio),
        None => quotient(1, 1),
    }
}

/// The fraction with the sign before it.
pub(crate) fn signed_value(minus: &Option<u32>, value: Frac) -> Frac
    ensures { result ≡ signed_value minus.now value }
{
    match minus {
        Some(_) => value.negate(),
        None => value,
    }
}

// The coefficient of a multiple, or the constant itself.
fn part_value(part: &Part) -> Frac
    requires { below_faults (part_below part.now) ≡ [] }
    ensures { result ≡ part_value part.now }
{
    match part {
        Part::Multiple { factor, .. } => factor_value(factor),
        Part::Constant { minus, ratio } => signed_value(minus, ratio_value(ratio)),
    }
}

// The product of two numbers, where it is within `2^63 - 1` in absolute value.
fn product(left: i64, right: i64) -> Option<i64>
    ensures { MatchOption result (IsFalse (is_number (left *ℤ right))) (λ z. (z ≡ left *ℤ right) × IsTrue (is_number (left *ℤ right))) }
{
    match left.checked_mul(right) {
        Some(i64::MIN) => None,
        product => product,
    }
}

// The sum of two numbers, where it is within `2^63 - 1` in absolute value.
fn sum(left: i64, right: i64) -> Option<i64>
    ensures { MatchOption result (IsFalse (is_number (left +ℤ right))) (λ z. (z ≡ left +ℤ right) × IsTrue (is_number (left +ℤ right))) }
{
    match left.checked_add(right) {
        Some(i64::MIN) => None,
        sum => sum,
    }
}

// The least common multiple, where it is within `2^63 - 1`: what is left of one number by its greatest common divisor with
// the other, times the other.
fn common_multiple(left: u64, right: u64) -> Option<u64>
    requires left { left ≤ GREATEST }
    requires right { 1 ≤ right }
    requires right_within { right ≤ GREATEST }
    ensures { MatchOption result (GREATEST < lcm left right) (λ m. (m ≡ lcm left right) × (m ≤ GREATEST)) }
{
    let part = quotient(left, right).num().unsigned_abs();
    match part.checked_mul(right) {
        Some(multiple) => {
            if multiple <= GREATEST {
                Some(multiple)
            } else {
                None
            }
        }
        None => None,
    }
}

// The denominator in lowest terms.
fn den(value: Frac) -> u64
    ensures den { result ≡ value.den }
    ensures positive { 1 ≤ value.den }
    ensures within { value.den ≤ GREATEST }
{
    value.den() as u64
}

/// The least common multiple of the denominators of parts in lowest terms, where it is within `2^63 - 1`.
pub(crate) fn common_den(first: &Part, more: &[Part]) -> Option<u64>
    requires { NoZeros (first.now ∷ more.now) }
    ensures { MatchOption result (GREATEST < common_den (first.now ∷ more.now))
        (λ m. (m ≡ common_den (first.now ∷ more.now)) × (m ≤ GREATEST)) }
{
    let mut multiple = den(part_value(first));
    for part in more {
        match common_multiple(multiple, den(part_value(part))) {
            Some(next) => multiple = next,
            None => return None,
        }
    }
    Some(multiple)
}

// The number of the first equation with this name.
fn place_of(equations: &[Written], name: &Name) -> Option<usize>
    ensures place { result ≡ position (is_named name.now) equations.now }
    ensures within { IfSome result (λ place. place < length equations.now) }
{
    equations
        .iter()
        .position(|e| e.name.bytes() == name.bytes())
}

// The number of the equation that a part has as its name; a constant has the number of equations.
fn key(equations: &[Written], part: &Part) -> usize
    ensures key { result ≡ key equations.now part.now }
    ensures within { result ≤ length equations.now }
{
    match part {
        Part::Multiple { name, .. } => match place_of(equations, name) {
            Some(place) => place,
            None => equations.len(),
        },
        Part::Constant { .. } => equations.len(),
    }
}

/// What parts add up to: one place for each name that there may be, and one for the constant.
pub(crate) type Totals = [i64; 12];

// The part over the common denominator, where it is within `2^63 - 1`.
fn scaled_part(part: &Part, common: u64) -> Option<i64>
    requires sound { below_faults (part_below part.now) ≡ [] }
    requires common { common ≤ GREATEST }
    ensures { MatchOption result (IsFalse (is_number (scaled_value common part.now)))
        (λ z. (z ≡ scaled_value common part.now) × IsTrue (is_number (scaled_value common part.now))) }
{
    let value = part_value(part);
    let size = common / den(value);
    product(value.num(), size as i64)
}

// What there is with a further part added to its name, where all stays within `2^63 - 1`.
fn added(totals: Totals, equations: &[Written], common: u64, part: &Part) -> Option<Totals>
    requires few { length equations.now ≤ MOST_EQUATIONS }
    requires sound { below_faults (part_below part.now) ≡ [] }
    requires common { common ≤ GREATEST }
    ensures { (before : List Amount) → AreTotals totals before → MatchOption result
        (IsFalse (fits_after before (amount equations.now common part.now)))
        (λ new. IsTrue (fits_after before (amount equations.now common part.now))
        × AreTotals new (before ++ amount equations.now common part.now ∷ [])) }
{
    let place = key(equations, part);
    match scaled_part(part, common) {
        Some(value) => match sum(totals[place], value) {
            Some(total) => {
                let mut new = totals;
                new[place] = total;
                Some(new)
            }
            None => None,
        },
        None => None,
    }
}

// No part adds nothing.
fn none() -> Totals
    ensures { AreTotals result [] }
{
    [0; 12]
}

/// What parts add up to over this denominator, where all stays within `2^63 - 1` from the left.
pub(crate) fn totals(
    equations: &[Written],
    common: u64,
    first: &Part,
    more: &[Part],
) -> Option<Totals>
    requires few { length equations.now ≤ MOST_EQUATIONS }
    requires sound { NoZeros (first.now ∷ more.now) }
    requires common { common ≤ GREATEST }
    ensures { MatchOption result (IsFalse (stay_within [] (map (amount equations.now common) (first.now ∷ more.now))))
        (λ new. IsTrue (stay_within [] (map (amount equations.now common) (first.now ∷ more.now)))
        × AreTotals new (map (amount equations.now common) (first.now ∷ more.now))) }
{
    match added(none(), equations, common, first) {
        Some(start) => more_totals(start, equations, common, first, more),
        None => None,
    }
}

// The same with the parts after the first one still to be added.
fn more_totals(
    start: Totals,
    equations: &[Written],
    common: u64,
    first: &Part,
    more: &[Part],
) -> Option<Totals>
    requires few { length equations.now ≤ MOST_EQUATIONS }
    requires sound { NoZeros more.now }
    requires common { common ≤ GREATEST }
    requires start { AreTotals start (amount equations.now common first.now ∷ []) }
    ensures { MatchOption result
        (IsFalse (stay_within (amount equations.now common first.now ∷ []) (map (amount equations.now common) more.now)))
        (λ new. IsTrue (stay_within (amount equations.now common first.now ∷ []) (map (amount equations.now common) more.now))
        × AreTotals new (map (amount equations.now common) (first.now ∷ more.now))) }
{
    let mut totals = start;
    for part in more {
        match added(totals, equations, common, part) {
            Some(new) => totals = new,
            None => return None,
        }
    }
    Some(totals)
}

/// Whether all numbers of a sum over its common denominator stay within `2^63 - 1`.
pub(crate) fn is_small(equations: &[Written], sum: &Addends) -> bool
    requires few { length equations.now ≤ MOST_EQUATIONS }
    requires sound { NoZeros (parts_of sum.now) }
    ensures { result ≡ is_small equations.now sum.now }
{
    let more = sum.more.as_slice();
    match common_den(&sum.first, more) {
        Some(common) => totals(equations, common, &sum.first, more).is_some(),
        None => false,
    }
}

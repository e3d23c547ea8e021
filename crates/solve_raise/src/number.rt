//! The number to which a bound is raised towards a greatest value.

ghost use Rattle.std.specs.Prelude.{◌≡◌, pos, ◌&&◌, [], ◌∷◌, true, false, MatchOption};
ghost use Rattle.base_numbers.specs.Rational.{whole, floor, one_ℚ, ◌+ℚ◌, ◌/ℚ◌, lt_ℚ};
ghost use Rattle.base_numbers.specs.Extended.{fin};
ghost use Rattle.base_fractions.specs.declared.wide.Op.TheVariants.{Add};
ghost use Rattle.base_fractions.specs.Extended.{extended};
ghost use Rattle.flow_systems.specs.Sums.{SumAnswers};
ghost use Rattle.theory_strategy.specs.Growth.{between as between_of, raised_to};
ghost use Rattle.solve_raise.specs.Numbers.{fitting, next_whole as next_whole_of, middle_operations, number_operations};

use base_fractions::{Ext, Frac, OrderedField, Wide};

// The greatest whole number that isn't above a number.
fn floor_of(number: Frac) -> Frac
    ensures { result ≡ whole (floor number) }
{
    if number.den() == 1 {
        return number;
    }
    Frac::make(number.floor(), 1).unwrap()
}

/// The least whole number above a number: the greatest that isn't above it, and 1.
pub fn next_whole(number: Frac) -> Result<Frac, Wide<Frac>>
    ensures { SumAnswers (next_whole_of number) (record { op = Add; left = whole (floor number); right = one_ℚ } ∷ []) result }
{
    floor_of(number).plus(Frac::one())
}

// The least whole number above a bound, if it fits and is below the value.
fn next_below(bound: Frac, value: Frac) -> Option<Frac>
    ensures { MatchOption result (fitting (next_whole_of bound) && lt_ℚ (next_whole_of bound) value ≡ false)
        (λ next. (next ≡ next_whole_of bound) × (fitting (next_whole_of bound) && lt_ℚ (next_whole_of bound) value ≡ true)) }
{
    let Ok(next) = next_whole(bound) else {
        return None;
    };
    if next < value { Some(next) } else { None }
}

// The number 2.
fn two() -> Frac
    ensures { result ≡ whole (pos 2) }
{
    Frac::make(2, 1).unwrap()
}

// The number half way from a bound to a value.
fn middle(bound: Frac, value: Frac) -> Result<Frac, Wide<Frac>>
    ensures { SumAnswers ((bound +ℚ value) /ℚ whole (pos 2)) (middle_operations bound value) result }
{
    let sum = bound.plus(value)?;
    sum.over(two())
}

// A number between a bound and a greater value.
fn between(bound: Frac, value: Frac) -> Result<Frac, Wide<Frac>>
    ensures { SumAnswers (between_of fitting bound value) (number_operations (fin bound) value) result }
{
    match next_below(bound, value) {
        Some(next) => Ok(next),
        None => middle(bound, value),
    }
}

/// The number to which a bound is raised towards a greater value: from `-inf` one less than the value; from a fraction the
/// least whole number above it where that fits and is below the value, and else the middle (`docs/METHOD.md`, growth).
///
/// # Errors
///
/// The first operation that is wide: the value minus 1, or the sum or the half of the middle. Takes no memory.
pub fn raised_number(bound: Ext, value: Frac) -> Result<Frac, Wide<Frac>>
    ensures { SumAnswers (raised_to fitting (extended bound) value) (number_operations (extended bound) value) result }
{
    match bound {
        Ext::NegInf => value.minus(Frac::one()),
        Ext::Fin(limit) => between(limit, value),
        Ext::PosInf => Ok(value),
    }
}

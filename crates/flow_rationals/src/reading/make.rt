//! The equations that are written.

ghost use Rattle.std.specs.Prelude.{◌≡◌, ◌≤◌, [], ◌∷◌, length, map, IfOk, IsTrue};
ghost use Rattle.std.specs.List.{flat_map};
ghost use Rattle.flow_rationals.specs.Equations.{is_start, is_equation};
ghost use Rattle.flow_rationals.specs.WrittenSums.{ratio_value, signed_value, parts_of, common_den, amounts_of, is_small, sum_of};
ghost use Rattle.flow_rationals.specs.EquFaults.{below_faults, sum_faults, choice_faults, equation_faults, faults_of};
ghost use Rattle.flow_rationals.specs.EquationTexts.{alternative_of, equation_of, equations_of};
ghost use Rattle.flow_rationals.specs.Totals.{NoZeros, AreTotals};

use crate::equation::{Alternative, Equation, Sum};
use crate::equations::Equations;
use crate::limits::MOST_EQUATIONS;
use crate::reading::scaled::{Totals, common_den, ratio_value, signed_value, totals};
use crate::reading::written::{Addends, Choice, Written};
use base_fractions::Frac;
use base_list::Sequence;
use lang_tree::Coeffs;
use std::alloc::{AllocError, Global};

// The common denominator of a sum with small numbers.
fn common_of(sum: &Addends) -> u64
    requires sound { NoZeros (parts_of sum.now) }
    requires small { common_den (parts_of sum.now) ≤ 9223372036854775807 }
    ensures { result ≡ common_den (parts_of sum.now) }
{
    common_den(&sum.first, sum.more.as_slice()).unwrap()
}

// What the parts of a sum with small numbers add up to over its common denominator.
fn totals_of(equations: &[Written], sum: &Addends) -> Totals
    requires few { length equations.now ≤ MOST_EQUATIONS }
    requires sound { NoZeros (parts_of sum.now) }
    requires small { IsTrue (is_small equations.now sum.now) }
    ensures { AreTotals result (amounts_of equations.now sum.now) }
{
    let common = common_of(sum);
    totals(equations, common, &sum.first, sum.more.as_slice()).unwrap()
}

// The sum that is written.
fn sum_of(alloc: Global, equations: &[Written], sum: &Addends) -> Result<Sum, AllocError>
    requires few { length equations.now ≤ MOST_EQUATIONS }
    requires sound { sum_faults equations.now sum.now ≡ [] }
    ensures { IfOk result (λ made. made ≡ sum_of equations.now sum.now) }
{
    let totals = totals_of(equations, sum);
    let names = equations.len();
    let coeffs = totals[..names].to_vec(alloc)?;
    Ok(Sum {
        coeffs: Coeffs::new(coeffs),
        constant: totals[names],
        den: common_of(sum) as i64,
    })
}

// The sums of a minimum after the first one, added to it.
fn least_of(
    alloc: Global,
    equations: &[Written],
    first: Sum,
    more: &[Addends],
) -> Result<Alternative, AllocError>
    requires few { length equations.now ≤ MOST_EQUATIONS }
    requires sound { flat_map (sum_faults equations.now) more.now ≡ [] }
    ensures { IfOk result (λ made. made ≡ first ∷ map (sum_of equations.now) more.now) }
{
    let mut sums = Vec::new(alloc);
    sums.push(first)?;
    for sum in more {
        let made = sum_of(alloc, equations, sum)?;
        sums.push(made)?;
    }
    Ok(Sequence::new(sums))
}

// The alternative that is written.
fn alternative_of(
    alloc: Global,
    equations: &[Written],
    choice: &Choice,
) -> Result<Alternative, AllocError>
    requires few { length equations.now ≤ MOST_EQUATIONS }
    requires sound { choice_faults equations.now choice.now ≡ [] }
    ensures { IfOk result (λ made. made ≡ alternative_of equations.now choice.now) }
{
    match choice {
        Choice::Alone(sum) => {
            let first = sum_of(alloc, equations, sum)?;
            least_of(alloc, equations, first, &[])
        }
        Choice::Least { first, more } => {
            let first = sum_of(alloc, equations, first)?;
            least_of(alloc, equations, first, more.as_slice())
        }
    }
}

// The alternatives that are written.
fn alternatives_of(
    alloc: Global,
    equations: &[Written],
    choices: &[Choice],
) -> Result<Sequence<Alternative>, AllocError>
    requires few { length equations.now ≤ MOST_EQUATIONS }
    requires sound { flat_map (choice_faults equations.now) choices.now ≡ [] }
    ensures { IfOk result (λ made. made ≡ map (alternative_of equations.now) choices.now) }
{
    let mut alternatives = Vec::new(alloc);
    for choice in choices {
        let alternative = alternative_of(alloc, equations, choice)?;
        alternatives.push(alternative)?;
    }
    Ok(Sequence::new(alternatives))
}

// The start that is written. That it fits, as every fraction of the code does, is the contract of its numerator.
fn start_of(equation: &Written) -> Frac
    requires { below_faults equation.now.start.below ≡ [] }
    ensures value { result ≡ signed_value equation.now.minus (ratio_value equation.now.start) }
    ensures fits { IsTrue (is_start result) }
{
    let start = signed_value(&equation.minus, ratio_value(&equation.start));
    let _num = start.num();
    start
}

// The equation that is written.
fn equation_of(
    alloc: Global,
    equations: &[Written],
    equation: &Written,
) -> Result<Equation, AllocError>
    requires few { length equations.now ≤ MOST_EQUATIONS }
    requires sound { equation_faults equations.now equation.now ≡ [] }
    ensures made { IfOk result (λ made. made ≡ equation_of equations.now equation.now) }
    ensures within { IfOk result (λ made. IsTrue (is_equation (length equations.now) made)) }
{
    let alternatives = alternatives_of(alloc, equations, equation.choices.as_slice())?;
    let start = start_of(equation);
    Ok(Equation {
        name: equation.name.again(),
        start,
        alternatives,
    })
}

/// The equations that are written, where they have no fault.
pub(crate) fn equations_of(alloc: Global, equations: &[Written]) -> Result<Equations, AllocError>
    requires some { 1 ≤ length equations.now }
    requires sound { faults_of equations.now ≡ [] }
    ensures { IfOk result (λ made. made ≡ equations_of equations.now) }
{
    let mut made = Vec::new(alloc);
    for equation in equations {
        let next = equation_of(alloc, equations, equation)?;
        made.push(next)?;
    }
    Ok(Equations::new(made))
}

//! Problems from lists of numbers, and what both tableaux answer.
ghost use Rattle.std.specs.Prelude.{◌≡◌, length, IfOk, OnOk};
ghost use Rattle.lp_dictionary.specs.Exact.{IsShaped};

use base_fractions::{Op, OrderedField};
use lp_dictionary::Dict;
use lp_simplex::{Coefficients, Outcome, Problem, Row, SolveFault, solve};
use lp_sparse::Sparse;
use std::alloc::Global;
use std::test::Fail;

/// A numerator and a denominator.
pub type Number = (i64, i64);

pub type Answer<F> = Result<Outcome<F>, SolveFault<F>>;

// The greatest number of rows and columns together.
const MOST: usize = 1000;

/// What a problem's answer is to be: point, value and multipliers; point and ray; multipliers; or the number of the pivot and the
/// operation that is wide.
#[derive(Drop)]
pub enum Expected<'a> {
    Best(&'a [Number], Number, &'a [Number]),
    Unbounded(&'a [Number], &'a [Number]),
    Empty(&'a [Number]),
    Wide(u32, Op, Number, Number),
}

// The values of a field that the numbers write.
fn values<F: OrderedField>(alloc: Global, numbers: &[Number]) -> Result<Coefficients<F>, Fail>
    ensures { IfOk result (λ v. length v ≡ length numbers.now) }
{
    let mut values = Coefficients::new(alloc);
    for number in numbers {
        values.push(F::make(number.0, number.1).ok_or("a number that fits")?)?;
    }
    Ok(values)
}

fn add_row<F: OrderedField>(
    problem: &mut Problem<F>,
    coeffs: Coefficients<F>,
    side: F,
) -> Result<(), Fail>
    requires { IsShaped problem.old }
    ensures { OnOk result (IsShaped problem.new) }
{
    if coeffs.len() != problem.goal.len() || problem.rows.len() + problem.goal.len() >= MOST {
        return Err("a row for this problem".into());
    }
    problem.rows.push(Row { coeffs, side })?;
    Ok(())
}

/// The problem of the goal's numbers, and then each row's coefficients and side.
pub fn problem_of<F: OrderedField>(
    alloc: Global,
    cols: usize,
    numbers: &[Number],
) -> Result<Problem<F>, Fail>
    ensures { IfOk result IsShaped }
{
    if cols > MOST {
        return Err("fewer columns".into());
    }
    let goal = numbers.get(..cols).ok_or("a goal")?;
    let mut problem = Problem {
        rows: Vec::new(alloc),
        goal: values(alloc, goal)?,
    };
    let mut rest = &numbers[cols..];
    while !rest.is_empty() {
        let coeffs = rest.get(..cols).ok_or("coefficients")?;
        let side = rest.get(cols).ok_or("a side")?;
        let value = F::make(side.0, side.1).ok_or("a side that fits")?;
        add_row(&mut problem, values(alloc, coeffs)?, value)?;
        rest = &rest[cols + 1..];
    }
    Ok(problem)
}

/// Whether the value is the one that the number writes.
pub fn equals<F: OrderedField>(value: F, expected: Number) -> bool {
    F::make(expected.0, expected.1) == Some(value)
}

fn are<F: OrderedField>(values: &[F], expected: &[Number]) -> bool {
    if values.len() != expected.len() {
        return false;
    }
    for (value, number) in values.iter().zip(expected) {
        if !equals(*value, *number) {
            return false;
        }
    }
    true
}

// Whether the answer is as expected.
fn is<F: OrderedField>(answer: &Answer<F>, expected: &Expected) -> bool {
    match (answer, expected) {
        (
            Ok(
                Outcome::Best {
                    point,
                    value,
                    multipliers,
                },
            ),
            Expected::Best(best, greatest, bounds),
        ) => { are(point, best) && equals(*value, *greatest) && are(multipliers, bounds) }
        (Ok(Outcome::Unbounded { point, ray }), Expected::Unbounded(start, direction)) => {
            are(point, start) && are(ray, direction)
        }
        (Ok(Outcome::Empty { multipliers }), Expected::Empty(excluding)) => {
            are(multipliers, excluding)
        }
        (Err(SolveFault::Wide { pivot, wide }), Expected::Wide(number, op, left, right)) => {
            *pivot == *number
                && wide.op == *op
                && equals(wide.left, *left)
                && equals(wide.right, *right)
        }
        _ => false,
    }
}

/// What both tableaux answer.
pub fn both<F: OrderedField>(
    alloc: Global,
    cols: usize,
    numbers: &[Number],
) -> Result<(Answer<F>, Answer<F>), Fail> {
    let problem = problem_of::<F>(alloc, cols, numbers)?;
    Ok((
        solve::<F, Dict<F>>(alloc, &problem),
        solve::<F, Sparse<F>>(alloc, &problem),
    ))
}

/// Whether both tableaux answer as expected.
pub fn answers<F: OrderedField>(
    alloc: Global,
    cols: usize,
    numbers: &[Number],
    expected: &Expected,
) -> Result<bool, Fail> {
    let (dense, sparse) = both::<F>(alloc, cols, numbers)?;
    Ok(is(&dense, expected) && is(&sparse, expected))
}

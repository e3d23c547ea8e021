//! Rows of a joint problem: a coefficient on a rise, and the split columns of one listed unknown.

ghost use Rattle.std.specs.Prelude.{◌≡◌, ◌+◌, ◌≤◌, ◌++◌, IfOk, OnOk, IsTrue, length, map};
ghost use Rattle.base_numbers.specs.Rational.{neg_ℚ, whole};
ghost use Rattle.lang_tree.specs.Numbers.{are_numbers};
ghost use Rattle.theory_transformers.specs.JointProblems.{split_list};
ghost use Rattle.solve_joint.specs.Rows.{on_numbers, dense_row};

use crate::span::Span;
use base_fractions::{Frac, OrderedField};
use flow_systems::fraction;
use lp_simplex::Coefficients;
use std::alloc::{AllocError, Global};

// A coefficient at the rise of one listed unknown, and 0 at the others.
fn push_rises(
    row: &mut Coefficients<Frac>,
    list: &[u32],
    target: u32,
    coefficient: Frac,
) -> Result<(), AllocError>
    ensures { OnOk result (row.new ≡ row.old ++ on_numbers coefficient target list.now) }
{
    let mut zeros = 0;
    for unknown in list {
        if *unknown == target {
            row.push_zeros(zeros)?;
            row.push(coefficient)?;
            zeros = 0;
        } else {
            zeros += 1;
        }
    }
    row.push_zeros(zeros)
}

// Each coefficient and then its negation.
fn push_split(row: &mut Coefficients<Frac>, coeffs: &[Frac]) -> Result<(), AllocError>
    ensures { OnOk result (row.new ≡ row.old ++ split_list coeffs.now) }
{
    for coefficient in coeffs {
        row.push(*coefficient)?;
        row.push(coefficient.negate())?;
    }
    Ok(())
}

/// A row over all columns, which takes memory for what isn't zero alone: first the rises of the list, with a coefficient on that of one
/// unknown, and in the span of a listed unknown the split columns of coefficients.
pub fn row_over(
    alloc: Global,
    span: &Span,
    target: u32,
    coefficient: Frac,
    coeffs: &[Frac],
) -> Result<Coefficients<Frac>, AllocError>
    requires { length span.now.list.now + (span.now.offset + (length coeffs.now + length coeffs.now)) ≤ span.now.cols }
    ensures { IfOk result (λ row. row ≡ dense_row span.now.cols (on_numbers coefficient target span.now.list.now) span.now.offset
        coeffs.now) }
{
    let mut row = Coefficients::new(alloc);
    push_rises(&mut row, span.list, target, coefficient)?;
    row.push_zeros(span.offset)?;
    push_split(&mut row, coeffs)?;
    let rest = span.cols - span.list.len() - span.offset - coeffs.len() - coeffs.len();
    row.push_zeros(rest)?;
    Ok(row)
}

/// The coefficients of a template row.
pub fn template_coeffs(alloc: Global, row: &[i64]) -> Result<Vec<Frac>, AllocError>
    requires { IsTrue (are_numbers row.now) }
    ensures { IfOk result (λ v. v.items ≡ map whole row.now) }
{
    let mut coeffs = Vec::with_capacity(alloc, row.len())?;
    for number in row {
        coeffs.push(fraction(*number))?;
    }
    Ok(coeffs)
}

/// The negated coefficients.
pub fn negated(alloc: Global, coeffs: &[Frac]) -> Result<Vec<Frac>, AllocError>
    ensures { IfOk result (λ v. v.items ≡ map neg_ℚ coeffs.now) }
{
    let mut list = Vec::with_capacity(alloc, coeffs.len())?;
    for coefficient in coeffs {
        list.push(coefficient.negate())?;
    }
    Ok(list)
}

//! The rows of one listed unknown in a joint problem.

ghost use Rattle.std.specs.Prelude.{◌≡◌, ◌+◌, ◌<◌, ◌≤◌, ◌++◌, ◌∷◌, [], ℕ, List, IfOk, OnOk, IsTrue, None, MatchResult, length, map};
ghost use Rattle.base_numbers.specs.Rational.{one_ℚ, neg_ℚ, zero_ℚ, ◌-ℚ◌};
ghost use Rattle.lang_tree.specs.Numbers.{are_numbers};
ghost use Rattle.base_fractions.specs.Extended.{extended};
ghost use Rattle.base_fractions.specs.Fits.{long_limit};
ghost use Rattle.base_fractions.specs.Operation.{first_wide};
ghost use Rattle.theory_validity.specs.Words.{Affine};
ghost use Rattle.theory_transformers.specs.Limits.{Limit};
ghost use Rattle.theory_transformers.specs.EdgeProblems.{source_limit, guard_limits};
ghost use Rattle.solve_joint.specs.Rows.{AllStand, SameForm, embedded, own_limit_of, side_operation, IsSideFault};

use crate::row::{negated, row_over, template_coeffs};
use crate::span::Span;
use base_fractions::{Ext, Frac, OrderedField};
use flow_systems::{Part, PartFault};
use lp_simplex::{Coefficients, Row};
use std::alloc::{AllocError, Global};

// Puts a row behind the others.
fn push_row(
    rows: &mut Vec<Row<Frac>>,
    coeffs: Coefficients<Frac>,
    side: Frac,
) -> Result<(), AllocError>
    ensures coeffs { OnOk result (map (λ r. r.coeffs) rows.new.items
        ≡ map (λ r. r.coeffs) rows.old.items ++ coeffs ∷ []) }
    ensures sides { OnOk result (map (λ r. r.side) rows.new.items ≡ map (λ r. r.side) rows.old.items ++ side ∷ []) }
{
    rows.push(Row { coeffs, side })?;
    Ok(())
}

/// The row of a template row at the source, if its bound is finite.
pub fn push_source(
    alloc: Global,
    rows: &mut Vec<Row<Frac>>,
    bound: Ext,
    row: &[i64],
    target: u32,
    span: &Span,
) -> Result<(), AllocError>
    requires numbers { IsTrue (are_numbers row.now) }
    requires fits { length span.now.list.now + (span.now.offset + (length row.now + length row.now)) ≤ span.now.cols }
    ensures { OnOk result ((n : ℕ) (ls : List Limit) → length row.now ≤ n →
        AllStand span.now.cols (map (λ r. r.coeffs) rows.old.items) (map (λ r. r.side) rows.old.items) ls →
        AllStand span.now.cols (map (λ r. r.coeffs) rows.new.items) (map (λ r. r.side) rows.new.items) (ls
        ++ source_limit (embedded (neg_ℚ one_ℚ) target span.now.list.now span.now.offset) n (extended bound) row.now [])) }
{
    match bound {
        Ext::Fin(side) => {
            let coeffs = template_coeffs(alloc, row)?;
            let minus_one = Frac::one().negate();
            let entries = row_over(alloc, span, target, minus_one, coeffs.as_slice())?;
            push_row(rows, entries, side)
        }
        Ext::NegInf => Ok(()),
        Ext::PosInf => Ok(()),
    }
}

/// The row of a guard.
pub fn push_guard(
    alloc: Global,
    rows: &mut Vec<Row<Frac>>,
    coeffs: &[Frac],
    constant: Frac,
    span: &Span,
) -> Result<(), AllocError>
    requires { length span.now.list.now + (span.now.offset + (length coeffs.now + length coeffs.now)) ≤ span.now.cols }
    ensures { OnOk result ((form : Affine) (ls : List Limit) → SameForm coeffs.now constant form
        → AllStand span.now.cols (map (λ r. r.coeffs) rows.old.items) (map (λ r. r.side) rows.old.items) ls
        → AllStand span.now.cols (map (λ r. r.coeffs) rows.new.items) (map (λ r. r.side) rows.new.items)
        (ls ++ guard_limits (embedded zero_ℚ 0 span.now.list.now span.now.offset) (form ∷ []))) }
{
    let entries = row_over(alloc, span, 0, Frac::zero(), coeffs)?;
    push_row(rows, entries, constant.negate())
}

/// The side of an own row: the end value's constant minus the bound.
pub fn own_side(constant: Frac, bound: Frac) -> Result<Frac, PartFault>
    ensures { MatchResult result (λ side. (side ≡ constant -ℚ bound) × (first_wide long_limit (side_operation constant bound ∷ []) ≡ None))
        (λ f. IsSideFault (side_operation constant bound ∷ []) f) }
{
    match constant.minus(bound) {
        Ok(side) => Ok(side),
        Err(wide) => Err(PartFault::Wide {
            part: Part::Side,
            wide,
        }),
    }
}

/// The own row, with its side.
pub fn push_own_row(
    alloc: Global,
    rows: &mut Vec<Row<Frac>>,
    coeffs: &[Frac],
    side: Frac,
    target: u32,
    span: &Span,
) -> Result<(), AllocError>
    requires { length span.now.list.now + (span.now.offset + (length coeffs.now + length coeffs.now)) ≤ span.now.cols }
    ensures { OnOk result ((form : Affine) (ls : List Limit) → SameForm coeffs.now form.constant form →
        AllStand span.now.cols (map (λ r. r.coeffs) rows.old.items) (map (λ r. r.side) rows.old.items) ls →
        AllStand span.now.cols (map (λ r. r.coeffs) rows.new.items) (map (λ r. r.side) rows.new.items) (ls
        ++ own_limit_of (embedded one_ℚ target span.now.list.now span.now.offset) form side ∷ [])) }
{
    let turned = negated(alloc, coeffs)?;
    let entries = row_over(alloc, span, target, Frac::one(), turned.as_slice())?;
    push_row(rows, entries, side)
}

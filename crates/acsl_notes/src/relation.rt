//! Conditions as text.

ghost use Rattle.std.specs.Prelude.{◌≡◌, ◌<◌, ◌++◌, [], IfOk, codes, decimal, get_or};
ghost use Rattle.std.specs.Fmt.{signed_decimal};
ghost use Rattle.acsl_notes.specs.Texts.{assertion_text, clause_text, invariant_text, side_text};
ghost use Rattle.acsl_notes.specs.View.{clause_of};
ghost use Rattle.flow_systems.specs.Report.{row_text};

use crate::clause::Said;
use base_fractions::Frac;
use itoa::Buffer;
use lang_tree::{Coeffs, Name};
use out_report::{push_number, push_row};
use std::alloc::AllocError;

/// Appends a number with its sign.
fn push_integer(text: &mut Vec<u8>, number: i64) -> Result<(), AllocError>
    ensures { IfOk result (λ _. text.new.items ≡ text.old.items ++ signed_decimal number) }
{
    let mut buffer = Buffer::new();
    text.extend_from_slice(buffer.format(number).as_bytes())?;
    Ok(())
}

/// Appends a row times a factor.
fn push_product(
    text: &mut Vec<u8>,
    names: &[Name],
    factor: u64,
    row: &[i64],
) -> Result<(), AllocError>
    ensures { IfOk result (λ _. text.new.items ≡ text.old.items ++ (decimal factor ++ codes " * (" ++ row_text names.now row.now
        ++ codes ")")) }
{
    push_number(text, factor)?;
    text.extend_from_slice(b" * (")?;
    push_row(text, names, row)?;
    text.extend_from_slice(b")")?;
    Ok(())
}

/// Appends a row, with a factor unless that is 1.
fn push_side(text: &mut Vec<u8>, names: &[Name], factor: u64, row: &[i64]) -> Result<(), AllocError>
    ensures { IfOk result (λ _. text.new.items ≡ text.old.items ++ side_text names.now factor row.now) }
{
    if factor == 1 {
        push_row(text, names, row)
    } else {
        push_product(text, names, factor, row)
    }
}

/// Appends what a row times the denominator of a bound is to its numerator.
fn push_relation(
    text: &mut Vec<u8>,
    names: &[Name],
    row: &[i64],
    sign: &[u8],
    bound: Frac,
) -> Result<(), AllocError>
    ensures { IfOk result (λ _. text.new.items ≡ text.old.items ++ (side_text names.now bound.den row.now ++ sign.now
        ++ signed_decimal bound.num)) }
{
    push_side(text, names, bound.den() as u64, row)?;
    text.extend_from_slice(sign)?;
    push_integer(text, bound.num())
}

/// The row of a number; none has no coefficients.
fn row_at(rows: &[Coeffs], row: usize) -> &[i64]
    ensures { result.now ≡ get_or rows.now row [] }
{
    if row < rows.len() {
        rows[row].as_slice()
    } else {
        &[]
    }
}

/// Appends a condition.
fn push_clause(
    text: &mut Vec<u8>,
    names: &[Name],
    rows: &[Coeffs],
    said: Said,
) -> Result<(), AllocError>
    ensures { IfOk result (λ _. text.new.items ≡ text.old.items ++ clause_text names.now (clause_of rows.now said)) }
{
    match said {
        Said::Never => {
            text.extend_from_slice(b"\\false")?;
            Ok(())
        }
        Said::AtMost { row, bound } => {
            push_relation(text, names, row_at(rows, row), b" <= ", bound)
        }
        Said::Equals { row, bound } => {
            push_relation(text, names, row_at(rows, row), b" == ", bound)
        }
    }
}

/// Appends these bytes and a condition as an invariant of a loop.
pub(crate) fn push_invariant(
    text: &mut Vec<u8>,
    names: &[Name],
    rows: &[Coeffs],
    between: &[u8],
    said: Said,
) -> Result<(), AllocError>
    ensures { IfOk result (λ _. text.new.items ≡ text.old.items ++ (between.now ++ invariant_text names.now (clause_of rows.now said))) }
{
    text.extend_from_slice(between)?;
    text.extend_from_slice(b"loop invariant ")?;
    push_clause(text, names, rows, said)?;
    text.extend_from_slice(b";")?;
    Ok(())
}

/// Appends a condition as an assertion.
pub(crate) fn push_assertion(
    text: &mut Vec<u8>,
    names: &[Name],
    rows: &[Coeffs],
    said: Said,
) -> Result<(), AllocError>
    ensures { IfOk result (λ _. text.new.items ≡ text.old.items ++ assertion_text names.now (clause_of rows.now said)) }
{
    text.extend_from_slice(b"/*@ assert ")?;
    push_clause(text, names, rows, said)?;
    text.extend_from_slice(b"; */")?;
    Ok(())
}

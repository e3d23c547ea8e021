//! Rows and bounds as text.

ghost use Rattle.std.specs.Prelude.{◌≡◌, ◌++◌, IfOk, decimal};
ghost use Rattle.base_fractions.specs.Extended.{extended};
ghost use Rattle.flow_systems.specs.Report.{bound_text, row_line, row_text, term_text};
ghost use Rattle.out_report.specs.Terms.{signed_text, some_text, still_first};

use base_fractions::Ext;
use itoa::Buffer;
use lang_tree::{Coeffs, Name};
use std::alloc::AllocError;

/// Appends the text of a bound.
pub(crate) fn push_bound(text: &mut Vec<u8>, bound: Ext) -> Result<(), AllocError>
    ensures { IfOk result (λ _. text.new.items ≡ text.old.items ++ bound_text (extended bound)) }
{
    text.extend_from_slice(bound.text().bytes())?;
    Ok(())
}

/// Appends a number.
pub fn push_number(text: &mut Vec<u8>, number: u64) -> Result<(), AllocError>
    ensures { IfOk result (λ _. text.new.items ≡ text.old.items ++ decimal number) }
{
    let mut buffer = Buffer::new();
    text.extend_from_slice(buffer.format(number).as_bytes())?;
    Ok(())
}

/// Appends a term without its sign.
fn push_term(text: &mut Vec<u8>, size: u64, name: &[u8]) -> Result<(), AllocError>
    ensures { IfOk result (λ _. text.new.items ≡ text.old.items ++ term_text size name.now) }
{
    if size != 1 {
        push_number(text, size)?;
        text.extend_from_slice(b"*")?;
    }
    text.extend_from_slice(name)?;
    Ok(())
}

/// Appends a term with its sign: the first of a row, or a later one.
fn push_signed(
    text: &mut Vec<u8>,
    coefficient: i64,
    name: &[u8],
    is_first: bool,
) -> Result<(), AllocError>
    ensures { IfOk result (λ _. text.new.items ≡ text.old.items ++ signed_text is_first coefficient name.now) }
{
    if is_first {
        if coefficient < 0 {
            text.extend_from_slice(b"-")?;
        }
    } else if coefficient < 0 {
        text.extend_from_slice(b" - ")?;
    } else {
        text.extend_from_slice(b" + ")?;
    }
    push_term(text, coefficient.unsigned_abs(), name)
}

/// Appends a term unless its coefficient is 0, and says whether the next one is the first.
fn push_unless_zero(
    text: &mut Vec<u8>,
    coefficient: i64,
    name: &[u8],
    is_first: bool,
) -> Result<bool, AllocError>
    ensures text { IfOk result (λ _. text.new.items ≡ text.old.items ++ some_text is_first coefficient name.now) }
    ensures next { IfOk result (λ next. next ≡ still_first is_first coefficient) }
{
    if coefficient == 0 {
        return Ok(is_first);
    }
    push_signed(text, coefficient, name, is_first)?;
    Ok(false)
}

/// Appends a row over the variables of these names.
pub fn push_row(text: &mut Vec<u8>, names: &[Name], row: &[i64]) -> Result<(), AllocError>
    ensures { IfOk result (λ _. text.new.items ≡ text.old.items ++ row_text names.now row.now) }
{
    let mut is_first = true;
    for index in 0..names.len().min(row.len()) {
        is_first = push_unless_zero(text, row[index], names[index].bytes(), is_first)?;
    }
    Ok(())
}

/// Appends the line of a row and its bound.
pub(crate) fn push_row_line(
    text: &mut Vec<u8>,
    names: &[Name],
    row: &Coeffs,
    bound: Ext,
) -> Result<(), AllocError>
    ensures { IfOk result (λ _. text.new.items ≡ text.old.items ++ row_line names.now row.now (extended bound)) }
{
    text.extend_from_slice(b"  ")?;
    push_row(text, names, row.as_slice())?;
    text.extend_from_slice(b" <= ")?;
    push_bound(text, bound)?;
    text.extend_from_slice(b"\n")?;
    Ok(())
}

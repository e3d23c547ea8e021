//! Columns of any sign as two columns each: the positive one and then the negative one.

ghost use Rattle.std.specs.Prelude.{◌≡◌, IfOk, IsTrue, map, get_or};
ghost use Rattle.base_numbers.specs.Rational.{whole, zero_ℚ};
ghost use Rattle.lang_tree.specs.Numbers.{are_numbers};
ghost use Rattle.solve_composition.specs.Composed.{first_entries};
ghost use Rattle.solve_transformer.specs.Splits.{pairs};

use base_fractions::{Frac, OrderedField};
use flow_systems::fraction;
use lp_dictionary::Coefficients;
use std::alloc::{AllocError, Global};

/// Each coefficient and its negation: columns of any sign as two columns each.
///
/// # Errors
///
/// Want of memory.
pub fn split_coeffs(alloc: Global, coeffs: &[Frac]) -> Result<Coefficients<Frac>, AllocError>
    ensures { IfOk result (λ list. list ≡ pairs coeffs.now) }
{
    let mut list = Coefficients::new(alloc);
    for coeff in coeffs {
        list.push(*coeff)?;
        list.push(coeff.negate())?;
    }
    Ok(list)
}

// A coefficient of a template row as a fraction, and 0 behind them.
fn row_entry(row: &[i64], column: usize) -> Frac
    requires { IsTrue (are_numbers row.now) }
    ensures { result ≡ get_or (map whole row.now) column zero_ℚ }
{
    if column < row.len() {
        fraction(row[column])
    } else {
        Frac::zero()
    }
}

/// Each coefficient of a template row and its negation, and zeros behind them: over `width` columns of any sign, as two columns each.
///
/// # Errors
///
/// Want of memory.
pub fn split_row(alloc: Global, row: &[i64], width: usize) -> Result<Coefficients<Frac>, AllocError>
    requires { IsTrue (are_numbers row.now) }
    ensures { IfOk result (λ list. list ≡ pairs (first_entries width (map whole row.now))) }
{
    let mut list = Coefficients::new(alloc);
    for column in 0..width {
        let coeff = row_entry(row, column);
        list.push(coeff)?;
        list.push(coeff.negate())?;
    }
    Ok(list)
}

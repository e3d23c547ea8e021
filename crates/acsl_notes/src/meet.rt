//! Rows whose bounds meet those of their opposites.

ghost use Rattle.std.specs.Prelude.{◌≡◌, ◌==◌, ◌+ℤ◌, length, nat_abs};
ghost use Rattle.std.specs.List.{list_any};
ghost use Rattle.base_fractions.specs.Extended.{extended};
ghost use Rattle.acsl_notes.specs.Clauses.{is_negative_of, is_opposite, meets};
ghost use Rattle.acsl_notes.specs.View.{bounded};

use base_fractions::{Ext, Frac};
use lang_tree::Coeffs;

/// Whether two numbers are opposite.
fn are_opposite(first: i64, second: i64) -> bool
    ensures { result ≡ (nat_abs (first +ℤ second) == 0) }
{
    first as i128 + second as i128 == 0
}

/// Whether the coefficients of one row are those of the other with the opposite sign.
fn is_opposite(row: &[i64], other: &[i64]) -> bool
    ensures { result ≡ is_opposite row.now other.now }
{
    if row.len() != other.len() {
        return false;
    }
    for index in 0..row.len() {
        if !are_opposite(row[index], other[index]) {
            return false;
        }
    }
    true
}

/// Whether a bound is the negative of a number.
fn is_negative_of(number: Frac, bound: Ext) -> bool
    ensures { result ≡ is_negative_of number (extended bound) }
{
    match bound {
        Ext::Fin(other) => {
            are_opposite(number.num(), other.num()) && number.den() == other.den()
        }
        _ => false,
    }
}

/// Whether the other row is the opposite of the row, and has the negative of its bound.
fn meets(row: &[i64], bound: Frac, other: &Coeffs, other_bound: Ext) -> bool
    ensures { result ≡ meets row.now bound (other.now, extended other_bound) }
{
    is_opposite(row, other.as_slice()) && is_negative_of(bound, other_bound)
}

/// Whether one of these rows is the opposite of the row, and has the negative of its bound.
pub(crate) fn is_met(row: &[i64], bound: Frac, others: &[Coeffs], bounds: &[Ext]) -> bool
    requires { length others.now ≡ length bounds.now }
    ensures { result ≡ list_any (meets row.now bound) (bounded others.now bounds.now) }
{
    for index in 0..others.len() {
        if meets(row, bound, &others[index], bounds[index]) {
            return true;
        }
    }
    false
}

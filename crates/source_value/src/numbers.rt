//! Numbers in their range, and lists of them.

ghost use Rattle.std.specs.Prelude.{◌≡◌, ◌≢◌, ◌+ℤ◌, ◌*ℤ◌, ◌≤ℤ◌, ◌^◌, neg_ℤ, pos, negsuc, int_div, int_rem, map, get_or, true, IfOk};
ghost use Rattle.lang_tree.specs.Numbers.{is_number, are_numbers};
ghost use Rattle.source_core.specs.Forms.{sums};
ghost use Rattle.source_value.specs.Answers.{Answers, IsNumber};

use crate::fault::OperationFault;
use std::alloc::Global;

/// The greatest absolute value of a number.
const GREATEST: i128 = i64::MAX as i128;

/// The number, unless it is out of its range.
pub(crate) fn ranged(number: i128) -> Result<i64, OperationFault>
    ensures { Answers IsNumber is_number result number }
{
    if -GREATEST <= number && number <= GREATEST {
        Ok(number as i64)
    } else {
        Err(OperationFault::Big)
    }
}

// `factor * number`.
fn product(factor: i128, number: i64) -> i128
    requires low { negsuc 9223372036854775807 ≤ℤ factor }
    requires high { factor ≤ℤ pos 9223372036854775808 }
    ensures value { result ≡ factor *ℤ number }
    ensures low { neg_ℤ (pos (2 ^ 126)) ≤ℤ result }
    ensures high { result ≤ℤ pos (2 ^ 126) }
{
    factor * number as i128
}

/// `left + factor * right`, unless it is out of its range.
pub(crate) fn multiple_added(left: i64, factor: i128, right: i64) -> Result<i64, OperationFault>
    requires low { negsuc 9223372036854775807 ≤ℤ factor }
    requires high { factor ≤ℤ pos 9223372036854775808 }
    ensures { Answers IsNumber is_number result (left +ℤ (factor *ℤ right)) }
{
    ranged(left as i128 + product(factor, right))
}

/// The quotient of two numbers, truncated towards 0.
pub(crate) fn quotient_of(number: i64, divisor: i64) -> i128
    requires { divisor ≢ pos 0 }
    ensures { result ≡ int_div number divisor }
{
    number as i128 / divisor as i128
}

/// What the quotient of two numbers leaves of the first, with the sign of that.
pub(crate) fn remainder_of(number: i64, divisor: i64) -> i128
    requires { divisor ≢ pos 0 }
    ensures { result ≡ int_rem number divisor }
{
    number as i128 % divisor as i128
}

// The number at a place; none is 0.
fn number_at(list: &[i64], place: usize) -> i64
    ensures { result ≡ get_or list.now place (pos 0) }
{
    if place < list.len() { list[place] } else { 0 }
}

/// At each place the number of `left` plus `factor` times that of `right`, one list going on where the other ends; unless one of these is
/// out of its range.
pub(crate) fn multiples_added(
    alloc: Global,
    left: &[i64],
    factor: i128,
    right: &[i64],
) -> Result<Vec<i64>, OperationFault>
    requires low { negsuc 9223372036854775807 ≤ℤ factor }
    requires high { factor ≤ℤ pos 9223372036854775808 }
    ensures list { Answers (λ list zs. list.items ≡ zs) are_numbers result (sums left.now (map (λ x. factor *ℤ x) right.now)) }
    ensures numbers { IfOk result (λ list. are_numbers list.items ≡ true) }
{
    let mut list = Vec::new(alloc);
    for i in 0..left.len().max(right.len()) {
        list.push(multiple_added(number_at(left, i), factor, number_at(right, i))?)?;
    }
    Ok(list)
}

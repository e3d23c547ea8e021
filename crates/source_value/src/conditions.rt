//! Conditions of the core, and what is compared in them.

ghost use Rattle.std.specs.Prelude.{◌≡◌, ◌≤◌, ◌+◌, ◌-ℤ◌, ◌≤ℤ◌, pos, negsuc, nat_abs, min, true, IfOk};
ghost use Rattle.lang_tree.specs.Limits.{has_numbers};
ghost use Rattle.lang_tree.specs.Tree.{compare, both, either, leaf_count};
ghost use Rattle.lang_tree.specs.DeedView.{condition_of};
ghost use Rattle.source_core.specs.Forms.{constant_form, minus};
ghost use Rattle.source_core.specs.Elaborated.{related, divides, is_index, is_held, is_divided, never};
ghost use Rattle.base_integers.specs.Integers.{greatest};
ghost use Rattle.source_value.specs.Answers.{Answers, IsCondition};
ghost use Rattle.source_core.specs.Fits.{condition_fits};
ghost use Rattle.source_tree.specs.Extents.{extent_of};

use crate::fault::OperationFault;
use crate::forms::{difference, less, rest, variable_form, zero_form};
use base_integers::Width;
use lang_tree::{Coeffs, Cond, Form, Rel};
use source_tree::Extent;
use std::alloc::{AllocError, Global};

/// The number of a condition's leaves, or one more than `most` where it has more. It calls itself at most so many times deeper than `!`
/// nests.
pub(crate) fn leaves_up_to(cond: &Cond, most: u32) -> u32
    requires { most ≤ 64 }
    ensures { result ≡ min (leaf_count (condition_of cond.now)) (most + 1) }
{
    match cond {
        Cond::Free => 1,
        Cond::Cmp(_, _) => 1,
        Cond::Not(inner) => leaves_up_to(inner, most),
        Cond::Both(first, second) => {
            let last = leaves_up_to(second, most);
            if last > most {
                last
            } else {
                last + leaves_up_to(first, most - last)
            }
        }
        Cond::Either(first, second) => {
            let last = leaves_up_to(second, most);
            if last > most {
                last
            } else {
                last + leaves_up_to(first, most - last)
            }
        }
    }
}

/// Both conditions.
pub(crate) fn both(alloc: Global, first: Cond, second: Cond) -> Result<Cond, AllocError>
    ensures { IfOk result (λ cond. condition_of cond ≡ both (condition_of first) (condition_of second)) }
{
    Ok(Cond::Both(Box::new(alloc, first)?, Box::new(alloc, second)?))
}

/// Either condition.
pub(crate) fn either(alloc: Global, first: Cond, second: Cond) -> Result<Cond, AllocError>
    ensures { IfOk result (λ cond. condition_of cond ≡ either (condition_of first) (condition_of second)) }
{
    Ok(Cond::Either(Box::new(alloc, first)?, Box::new(alloc, second)?))
}

/// The form's relation to 0.
pub(crate) fn compare(rel: Rel, form: Form) -> Result<Cond, OperationFault>
    ensures { has_numbers form ≡ true → Answers IsCondition condition_fits result (compare rel form) }
{
    if form.constant.unsigned_abs() + 1 <= i64::MAX as u64 {
        Ok(Cond::Cmp(rel, form))
    } else {
        Err(OperationFault::Big)
    }
}

/// The relation of two forms.
pub(crate) fn related(
    alloc: Global,
    rel: Rel,
    left: &Form,
    right: &Form,
) -> Result<Cond, OperationFault>
    ensures { Answers IsCondition condition_fits result (related rel left.now right.now) }
{
    compare(rel, difference(alloc, left, right)?)
}

/// A form's relation to a number.
#[derive(Clone, Copy)]
pub(crate) struct Bound {
    pub rel: Rel,
    pub number: i128,
}

/// The form's relation to the number.
pub(crate) fn bounded(form: &Form, bound: Bound) -> Result<Cond, OperationFault>
    requires low { negsuc 18446744073709551616 ≤ℤ bound.number }
    requires high { bound.number ≤ℤ pos 18446744073709551616 }
    ensures { Answers IsCondition condition_fits result (related bound.rel form.now (constant_form bound.number)) }
{
    compare(bound.rel, less(form, bound.number)?)
}

// Three comparisons that all are to hold: of the form, and of two of what is left of it.
fn all_three(
    alloc: Global,
    form: &Form,
    rest: &Form,
    first: Bound,
    second: Bound,
    third: Bound,
) -> Result<Cond, OperationFault>
    requires first_low { negsuc 18446744073709551616 ≤ℤ first.number }
    requires first_high { first.number ≤ℤ pos 18446744073709551616 }
    requires second_low { negsuc 18446744073709551616 ≤ℤ second.number }
    requires second_high { second.number ≤ℤ pos 18446744073709551616 }
    requires third_low { negsuc 18446744073709551616 ≤ℤ third.number }
    requires third_high { third.number ≤ℤ pos 18446744073709551616 }
    ensures { Answers IsCondition condition_fits result
        (both (both (related first.rel form.now (constant_form first.number)) (related second.rel rest.now (constant_form second.number)))
        (related third.rel rest.now (constant_form third.number))) }
{
    let of_form = bounded(form, first)?;
    let of_rest = bounded(rest, second)?;
    let of_size = bounded(rest, third)?;
    let of_both = both(alloc, of_form, of_rest)?;
    Ok(both(alloc, of_both, of_size)?)
}

// How large a number is.
fn size_of(number: i64) -> i128
    ensures value { result ≡ pos (nat_abs number) }
    ensures high { result ≤ℤ pos 9223372036854775808 }
{
    number.unsigned_abs() as i128
}

// The form is at least 0, and so is what is left of it, which is less than the size.
fn upper_half(alloc: Global, form: &Form, rest: &Form, size: i128) -> Result<Cond, OperationFault>
    requires low { pos 0 ≤ℤ size }
    requires high { size ≤ℤ pos 9223372036854775808 }
    ensures { Answers IsCondition condition_fits result
        (both (both (related Rel.Ge form.now (constant_form (pos 0))) (related Rel.Ge rest.now (constant_form (pos 0))))
        (related Rel.Le rest.now (constant_form (size -ℤ pos 1)))) }
{
    all_three(
        alloc,
        form,
        rest,
        Bound {
            rel: Rel::Ge,
            number: 0,
        },
        Bound {
            rel: Rel::Ge,
            number: 0,
        },
        Bound {
            rel: Rel::Le,
            number: size - 1,
        },
    )
}

// The form is below 0, and what is left of it is at most 0, and its opposite less than the size.
fn lower_half(alloc: Global, form: &Form, rest: &Form, size: i128) -> Result<Cond, OperationFault>
    requires low { pos 0 ≤ℤ size }
    requires high { size ≤ℤ pos 9223372036854775808 }
    ensures { Answers IsCondition condition_fits result
        (both (both (related Rel.Le form.now (constant_form (negsuc 0))) (related Rel.Le rest.now (constant_form (pos 0))))
        (related Rel.Ge rest.now (constant_form (pos 1 -ℤ size)))) }
{
    all_three(
        alloc,
        form,
        rest,
        Bound {
            rel: Rel::Le,
            number: -1,
        },
        Bound {
            rel: Rel::Le,
            number: 0,
        },
        Bound {
            rel: Rel::Ge,
            number: 1 - size,
        },
    )
}

/// The variable is the quotient of the form by the number, truncated towards 0.
pub(crate) fn divides(
    alloc: Global,
    form: &Form,
    divisor: i64,
    quotient: u32,
) -> Result<Cond, OperationFault>
    ensures { Answers IsCondition condition_fits result (divides form.now divisor quotient) }
{
    let quotient = variable_form(alloc, quotient)?;
    let rest = rest(alloc, form, divisor, &quotient)?;
    let size = size_of(divisor);
    let up = upper_half(alloc, form, &rest, size)?;
    let down = lower_half(alloc, form, &rest, size)?;
    Ok(either(alloc, up, down)?)
}

/// The form is an index within this extent.
pub(crate) fn is_index(alloc: Global, extent: Extent, form: &Form) -> Result<Cond, OperationFault>
    ensures { Answers IsCondition condition_fits result (is_index (extent_of extent) form.now) }
{
    let from_first = related(alloc, Rel::Le, &zero_form(alloc), form)?;
    match extent {
        Extent::Endless => Ok(from_first),
        Extent::Elements(size) => {
            let to_last = bounded(
                form,
                Bound {
                    rel: Rel::Le,
                    number: i128::from(size) - 1,
                },
            )?;
            Ok(both(alloc, from_first, to_last)?)
        }
    }
}

// The least integer of this width.
fn least_form(alloc: Global, width: Width) -> Form
    ensures { result ≡ constant_form (negsuc (greatest width)) }
{
    Form {
        coeffs: Coeffs::new(Vec::new(alloc)),
        constant: -i64::from(width.greatest()) - 1,
    }
}

/// The form is one of the integers of this width.
pub(crate) fn is_held(alloc: Global, width: Width, form: &Form) -> Result<Cond, OperationFault>
    ensures { Answers IsCondition condition_fits result (is_held width form.now) }
{
    let from_least = related(alloc, Rel::Le, &least_form(alloc, width), form)?;
    let to_greatest = bounded(
        form,
        Bound {
            rel: Rel::Le,
            number: i128::from(width.greatest()),
        },
    )?;
    Ok(both(alloc, from_least, to_greatest)?)
}

/// A condition that is never true.
pub(crate) fn never(alloc: Global) -> Cond
    ensures { IsCondition result never }
{
    Cond::Cmp(Rel::Ne, zero_form(alloc))
}

/// Unless the least integer of this width is divided by -1, a quotient is one of them.
pub(crate) fn is_divided(
    alloc: Global,
    width: Width,
    form: &Form,
    divisor: &Form,
) -> Result<Cond, OperationFault>
    ensures { Answers IsCondition condition_fits result (is_divided width form.now divisor.now) }
{
    let of_least = related(alloc, Rel::Eq, form, &least_form(alloc, width))?;
    let minus_one = -1;
    let by_minus_one = bounded(
        divisor,
        Bound {
            rel: Rel::Eq,
            number: minus_one,
        },
    )?;
    let overflows = both(alloc, of_least, by_minus_one)?;
    Ok(Cond::Not(Box::new(alloc, overflows)?))
}

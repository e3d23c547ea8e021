//! Forms and how they are combined.

ghost use Rattle.std.specs.Prelude.{◌≡◌, ◌≤ℤ◌, ◌-ℤ◌, pos, negsuc, IfOk};
ghost use Rattle.lang_tree.specs.Limits.{has_numbers};
ghost use Rattle.source_core.specs.Forms.{constant_form, variable_form, plus, minus, scaled, is_constant};
ghost use Rattle.source_core.specs.Elaborated.{is_divisor};
ghost use Rattle.source_value.specs.Answers.{Answers, IsForm};

use crate::fault::OperationFault;
use crate::numbers::{multiple_added, multiples_added, ranged};
use lang_tree::{Coeffs, Form};
use std::alloc::{AllocError, Global};

/// The whole number `number`, unless it is out of its range.
pub(crate) fn constant_form(alloc: Global, number: i128) -> Result<Form, OperationFault>
    ensures { Answers IsForm has_numbers result (constant_form number) }
{
    Ok(Form {
        coeffs: Coeffs::new(Vec::new(alloc)),
        constant: ranged(number)?,
    })
}

/// The whole number 0.
pub(crate) fn zero_form(alloc: Global) -> Form
    ensures { result ≡ constant_form (pos 0) }
{
    Form {
        coeffs: Coeffs::new(Vec::new(alloc)),
        constant: 0,
    }
}

/// The variable with the number `var`.
pub(crate) fn variable_form(alloc: Global, var: u32) -> Result<Form, AllocError>
    ensures { IfOk result (λ form. form ≡ variable_form var) }
{
    let mut list = vec![in alloc; 0; var as usize]?;
    list.push(1)?;
    Ok(Form {
        coeffs: Coeffs::new(list),
        constant: 0,
    })
}

/// `left + factor * right`, unless a number is out of its range.
pub(crate) fn multiple_of_form_added(
    alloc: Global,
    left: &Form,
    factor: i128,
    right: &Form,
) -> Result<Form, OperationFault>
    requires low { negsuc 9223372036854775807 ≤ℤ factor }
    requires high { factor ≤ℤ pos 9223372036854775808 }
    ensures { Answers IsForm has_numbers result (plus left.now (scaled factor right.now)) }
{
    let list = multiples_added(
        alloc,
        left.coeffs.as_slice(),
        factor,
        right.coeffs.as_slice(),
    )?;
    let constant = multiple_added(left.constant, factor, right.constant)?;
    Ok(Form {
        coeffs: Coeffs::new(list),
        constant,
    })
}

/// `left + right`.
pub(crate) fn sum(alloc: Global, left: &Form, right: &Form) -> Result<Form, OperationFault>
    ensures { Answers IsForm has_numbers result (plus left.now right.now) }
{
    multiple_of_form_added(alloc, left, 1, right)
}

/// `left - right`.
pub(crate) fn difference(alloc: Global, left: &Form, right: &Form) -> Result<Form, OperationFault>
    ensures { Answers IsForm has_numbers result (minus left.now right.now) }
{
    multiple_of_form_added(alloc, left, -1, right)
}

/// `factor * form`.
pub(crate) fn multiple(alloc: Global, factor: i64, form: &Form) -> Result<Form, OperationFault>
    ensures { Answers IsForm has_numbers result (scaled factor form.now) }
{
    multiple_of_form_added(alloc, &zero_form(alloc), factor as i128, form)
}

/// What is left of `form` behind `divisor` times `quotient`.
pub(crate) fn rest(
    alloc: Global,
    form: &Form,
    divisor: i64,
    quotient: &Form,
) -> Result<Form, OperationFault>
    ensures { Answers IsForm has_numbers result (minus form.now (scaled divisor quotient.now)) }
{
    multiple_of_form_added(alloc, form, -(divisor as i128), quotient)
}

/// `form - number`.
pub(crate) fn less(form: &Form, number: i128) -> Result<Form, OperationFault>
    requires low { negsuc 18446744073709551616 ≤ℤ number }
    requires high { number ≤ℤ pos 18446744073709551616 }
    ensures { Answers IsForm has_numbers result (minus form.now (constant_form number)) }
{
    let _numbers = form.coeffs.as_slice();
    Ok(Form {
        coeffs: form.coeffs.again()?,
        constant: ranged(form.constant as i128 - number)?,
    })
}

/// Whether all coefficients are 0.
pub(crate) fn is_constant(form: &Form) -> bool
    ensures { result ≡ is_constant form.now }
{
    form.coeffs.as_slice().iter().all(|x| *x == 0)
}

/// Whether the form is a whole number other than 0.
pub(crate) fn is_divisor(form: &Form) -> bool
    ensures { result ≡ is_divisor form.now }
{
    is_constant(form) && form.constant != 0
}

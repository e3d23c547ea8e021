//! The values of rows and forms at states of fractions, summed from the left.

ghost use Rattle.std.specs.Prelude.{◌≡◌, IsTrue};
ghost use Rattle.base_numbers.specs.Rational.{whole, ◌+ℚ◌, ◌*ℚ◌};
ghost use Rattle.lang_tree.specs.Numbers.{is_number, are_numbers};
ghost use Rattle.lang_tree.specs.Limits.{has_numbers};
ghost use Rattle.flow_systems.specs.States.{dotℚ, valueℚ};
ghost use Rattle.flow_systems.specs.Constants.{form_with};
ghost use Rattle.flow_systems.specs.Sums.{product_operations, row_operations, form_operations, SumAnswers};

use base_fractions::{Frac, OrderedField, Wide};
use lang_tree::Form;

/// Which constants the forms of an edge have while it is followed.
#[derive(Clone, Copy, Debug, PartialEq, Eq, Drop)]
pub enum Constants {
    /// Their own, as a trace goes.
    Kept,
    /// 0, as a direction goes.
    Zero,
}

/// A number of a program, whose size is below 2^63, as a fraction.
pub fn fraction(number: i64) -> Frac
    requires { IsTrue (is_number number) }
    ensures { result ≡ whole number }
{
    Frac::make(number, 1).unwrap()
}

// The sum with the product added to it.
fn add_product(sum: Frac, coeff: i64, value: Frac) -> Result<Frac, Wide<Frac>>
    requires { IsTrue (is_number coeff) }
    ensures { SumAnswers (sum +ℚ (whole coeff *ℚ value)) (product_operations sum coeff value) result }
{
    sum.add_product(fraction(coeff), value)
}

/// The value of a row at a state. It is summed from the left, starting with 0: each product has the coefficient on its left
/// and is then added. Coefficients without a value make no product, nor do values without a coefficient.
///
/// # Errors
///
/// The first operation whose exact result has a part above the limit, exactly where there is one. Takes no memory.
pub fn row_value(row: &[i64], state: &[Frac]) -> Result<Frac, Wide<Frac>>
    requires { IsTrue (are_numbers row.now) }
    ensures { SumAnswers (dotℚ row.now state.now) (row_operations row.now state.now) result }
{
    let mut sum = Frac::zero();
    for i in 0..row.len().min(state.len()) {
        sum = add_product(sum, row[i], state[i])?;
    }
    Ok(sum)
}

// The form's constant, or 0 in its place.
fn constant(form: &Form, constants: Constants) -> Frac
    requires { IsTrue (is_number form.now.constant) }
    ensures { result ≡ whole (form_with constants form.now).constant }
{
    match constants {
        Constants::Kept => fraction(form.constant),
        Constants::Zero => Frac::zero(),
    }
}

/// The value of a form at a state, with its constant or with 0 in its place, which is added last.
///
/// # Errors
///
/// The first operation whose exact result has a part above the limit, exactly where there is one. Takes no memory.
pub fn form_value(form: &Form, constants: Constants, state: &[Frac]) -> Result<Frac, Wide<Frac>>
    requires { IsTrue (has_numbers form.now) }
    ensures { SumAnswers (valueℚ (form_with constants form.now) state.now) (form_operations (form_with constants form.now) state.now)
        result }
{
    let sum = row_value(form.coeffs.as_slice(), state)?;
    sum.plus(constant(form, constants))
}

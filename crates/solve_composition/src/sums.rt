//! The sums over a state of forms: from the left, starting with 0, each product with the program's coefficient on its left.

ghost use Rattle.std.specs.Prelude.{◌≡◌, IsTrue, length, nat_lt};
ghost use Rattle.std.specs.List.{list_all};
ghost use Rattle.base_numbers.specs.Rational.{whole, ◌+ℚ◌, ◌*ℚ◌};
ghost use Rattle.lang_tree.specs.Numbers.{is_number, are_numbers};
ghost use Rattle.base_fractions.specs.Fits.{Fits, long_limit};
ghost use Rattle.flow_systems.specs.States.{dotℚ};
ghost use Rattle.flow_systems.specs.Sums.{product_operations, row_operations};
ghost use Rattle.solve_composition.specs.Sums.{FittingSum, dense_column, dense_constants};

use crate::affine::Affine;
use base_fractions::{Frac, OrderedField, Wide};
use flow_systems::fraction;

// The sum with the product added to it. A factor 0 makes no operation.
fn add_product(sum: Frac, coeff: i64, value: Frac) -> Result<Frac, Wide<Frac>>
    requires number { IsTrue (is_number coeff) }
    requires fits { Fits long_limit sum }
    ensures { FittingSum (sum +ℚ (whole coeff *ℚ value)) (product_operations sum coeff value) result }
{
    if coeff == 0 {
        return Ok(sum);
    }
    if value.is_zero() {
        return Ok(sum);
    }
    let product = fraction(coeff).times(value)?;
    sum.plus(product)
}

// The sum of the coefficients times those that the forms have at a column.
pub fn column_sum(coeffs: &[i64], state: &[Affine], column: usize) -> Result<Frac, Wide<Frac>>
    requires numbers { IsTrue (are_numbers coeffs.now) }
    requires column { IsTrue (list_all (λ f. nat_lt column (length f.coeffs)) state.now) }
    ensures { FittingSum (dotℚ coeffs.now (dense_column column state.now)) (row_operations coeffs.now (dense_column column state.now))
        result }
{
    let mut sum = Frac::zero();
    for i in 0..coeffs.len().min(state.len()) {
        sum = add_product(sum, coeffs[i], state[i].coeffs.as_slice()[column])?;
    }
    Ok(sum)
}

// The sum of the coefficients times the forms' constants.
pub fn constant_sum(coeffs: &[i64], state: &[Affine]) -> Result<Frac, Wide<Frac>>
    requires { IsTrue (are_numbers coeffs.now) }
    ensures { FittingSum (dotℚ coeffs.now (dense_constants state.now)) (row_operations coeffs.now (dense_constants state.now)) result }
{
    let mut sum = Frac::zero();
    for i in 0..coeffs.len().min(state.len()) {
        sum = add_product(sum, coeffs[i], state[i].constant)?;
    }
    Ok(sum)
}

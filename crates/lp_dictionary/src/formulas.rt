//! The four formulas at single entries.
ghost use Rattle.std.specs.Prelude.{◌≢◌};
ghost use Rattle.base_numbers.specs.Rational.{zero_ℚ, ◌*ℚ◌};
ghost use Rattle.base_fractions.specs.Operation.{Answers};
ghost use Rattle.lp_dictionary.specs.Formulas.{divided, divided_operations, product_operations, added, added_operations};

use base_fractions::{OrderedField, Wide};

/// An entry of the pivot's row after the pivot: formula 1 at the pivot itself, else formula 2.
#[inline(always)]
pub fn divided_by<F: OrderedField>(entry: F, pivot: F, at_pivot: bool) -> Result<F, Wide<F>>
    requires { F.meaning pivot ≢ zero_ℚ }
    ensures { Answers F.meaning F.LIMIT (divided (F.meaning entry) (F.meaning pivot) at_pivot)
        (divided_operations (F.meaning entry) (F.meaning pivot) at_pivot) result }
{
    if at_pivot {
        return F::one().over(pivot);
    }
    if entry.is_zero() {
        return Ok(entry);
    }
    let quotient = entry.over(pivot)?;
    Ok(quotient.negate())
}

/// Formula 3, the entry of another row in the pivot's column: `factor` times the new entry of the pivot's row.
pub fn product_of<F: OrderedField>(factor: F, above: F) -> Result<F, Wide<F>>
    requires { F.meaning factor ≢ zero_ℚ }
    ensures { Answers F.meaning F.LIMIT (F.meaning factor *ℚ F.meaning above) (product_operations (F.meaning factor) (F.meaning above))
        result }
{
    if above.is_zero() {
        return Ok(above);
    }
    factor.times(above)
}

/// Formula 4, an entry of another row outside the pivot's column: `factor` times the new entry of the pivot's row is added. In
/// the pivot's column the entry stays.
pub fn sum_of<F: OrderedField>(entry: F, factor: F, above: F, at_pivot: bool) -> Result<F, Wide<F>>
    requires { F.meaning factor ≢ zero_ℚ }
    ensures { Answers F.meaning F.LIMIT (added (F.meaning entry) (F.meaning factor) (F.meaning above) at_pivot)
        (added_operations (F.meaning entry) (F.meaning factor) (F.meaning above) at_pivot) result }
{
    if at_pivot {
        return Ok(entry);
    }
    if above.is_zero() {
        return Ok(entry);
    }
    let product = factor.times(above)?;
    entry.plus(product)
}

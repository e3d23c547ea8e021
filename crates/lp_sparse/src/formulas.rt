//! Formulas 3 and 4 of a pivot at single entries.
ghost use Rattle.std.specs.Prelude.{◌≢◌, ◌≡◌};
ghost use Rattle.base_numbers.specs.Rational.{zero_ℚ, ◌*ℚ◌};
ghost use Rattle.base_fractions.specs.Operation.{Answers};
ghost use Rattle.lp_dictionary.specs.Formulas.{product_operations, added_operations};
ghost use Rattle.lp_sparse.specs.Entries.{or_zero};
ghost use Rattle.lp_sparse.specs.Rows.{merged};
ghost use Rattle.lp_sparse.specs.Merge.{kept, term, term_operations};
ghost use Rattle.lp_sparse.specs.Units.{IsUnit};

use crate::unit::unit_product;
use base_fractions::{OrderedField, Wide};

/// Formula 3, the entry of another row in the pivot's column: `factor` times the new entry of the pivot's row. A factor that is known to
/// be 1 or -1 makes its product without an operation.
pub fn product_of<F: OrderedField>(factor: F, above: F, unit: Option<bool>) -> Result<F, Wide<F>>
    requires factor { F.meaning factor ≢ zero_ℚ }
    requires unit { IsUnit (F.meaning factor) unit }
    ensures { Answers F.meaning F.LIMIT (F.meaning factor *ℚ F.meaning above) (product_operations (F.meaning factor) (F.meaning above))
        result }
{
    if above.is_zero() {
        return Ok(above);
    }
    match unit {
        Some(negated) => Ok(unit_product(factor, above, negated)),
        None => factor.times(above),
    }
}

/// Formula 4, an entry of another row outside the pivot's column: `factor` times the new entry of the pivot's row is added. In
/// the pivot's column it is the product of formula 3.
pub fn merged_of<F: OrderedField>(
    entry: F,
    factor: F,
    above: F,
    product: F,
    at_pivot: bool,
    unit: Option<bool>,
) -> Result<F, Wide<F>>
    requires factor { F.meaning factor ≢ zero_ℚ }
    requires unit { IsUnit (F.meaning factor) unit }
    ensures { Answers F.meaning F.LIMIT (merged (F.meaning entry) (F.meaning factor) (F.meaning above) (F.meaning product) at_pivot)
        (added_operations (F.meaning entry) (F.meaning factor) (F.meaning above) at_pivot) result }
{
    if at_pivot {
        return Ok(product);
    }
    if above.is_zero() {
        return Ok(entry);
    }
    match unit {
        Some(negated) => entry.plus(unit_product(factor, above, negated)),
        None => entry.add_product(factor, above),
    }
}

/// The same where the row may have no entry at the column.
pub fn sum_of<F: OrderedField>(
    entry: Option<F>,
    factor: F,
    above: F,
    product: F,
    at_pivot: bool,
    unit: Option<bool>,
) -> Result<F, Wide<F>>
    requires factor { F.meaning factor ≢ zero_ℚ }
    requires unit { IsUnit (F.meaning factor) unit }
    ensures { Answers F.meaning F.LIMIT (merged (or_zero F.meaning entry) (F.meaning factor) (F.meaning above) (F.meaning product) at_pivot)
        (added_operations (or_zero F.meaning entry) (F.meaning factor) (F.meaning above) at_pivot) result }
{
    match entry {
        Some(entry) => merged_of(entry, factor, above, product, at_pivot, unit),
        None => term_of(factor, above, product, at_pivot, unit),
    }
}

/// The same where the pivot's row has no entry.
pub fn kept_of<F: OrderedField>(entry: F, product: F, at_pivot: bool) -> F
    ensures { F.meaning result ≡ kept (F.meaning entry) (F.meaning product) at_pivot }
{
    if at_pivot { product } else { entry }
}

/// The same where the row has no entry: the product alone.
pub fn term_of<F: OrderedField>(
    factor: F,
    above: F,
    product: F,
    at_pivot: bool,
    unit: Option<bool>,
) -> Result<F, Wide<F>>
    requires factor { F.meaning factor ≢ zero_ℚ }
    requires unit { IsUnit (F.meaning factor) unit }
    ensures { Answers F.meaning F.LIMIT (term (F.meaning factor) (F.meaning above) (F.meaning product) at_pivot)
        (term_operations (F.meaning factor) (F.meaning above) at_pivot) result }
{
    if at_pivot {
        return Ok(product);
    }
    product_of(factor, above, unit)
}

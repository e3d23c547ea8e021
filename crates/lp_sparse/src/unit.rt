//! Factors that are 1 or -1, whose products take no operation.
ghost use Rattle.std.specs.Prelude.{◌≡◌, IsTrue};
ghost use Rattle.base_numbers.specs.Rational.{one_ℚ, ◌*ℚ◌};
ghost use Rattle.base_fractions.specs.Fits.{Fits};
ghost use Rattle.lp_sparse.specs.Units.{IsUnit, IsUnitBy};

use base_fractions::OrderedField;

fn is_one<F: OrderedField>(value: F) -> bool
    ensures { IsTrue result → F.meaning value ≡ one_ℚ }
{
    if value.num() != 1 {
        return false;
    }
    if value.den() != 1 {
        return false;
    }
    true
}

/// Whether the factor is 1, as `Some(false)`, or -1, as `Some(true)`.
pub fn unit_of<F: OrderedField>(factor: F) -> Option<bool>
    ensures { IsUnit (F.meaning factor) result }
{
    if is_one(factor) {
        return Some(false);
    }
    if is_one(factor.negate()) {
        return Some(true);
    }
    None
}

/// The product with a factor that is 1, or -1 if it is negated.
pub fn unit_product<F: OrderedField>(factor: F, value: F, negated: bool) -> F
    requires { IsUnitBy (F.meaning factor) negated }
    ensures value { F.meaning result ≡ F.meaning factor *ℚ F.meaning value }
    ensures fits { Fits F.LIMIT (F.meaning result) }
{
    if negated {
        return value.negate();
    }
    let _num = value.num();
    value
}

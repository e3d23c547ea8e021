//! Bounds that nothing exceeds.

ghost use Rattle.std.specs.Prelude.{◌≡◌};
ghost use Rattle.base_fractions.specs.Extended.{extended};
ghost use Rattle.solve_offers.specs.Offers.{is_top};

use base_fractions::Ext;

/// Whether a bound is `+inf`, which nothing exceeds. Takes no memory.
pub fn is_unlimited(bound: Ext) -> bool
    ensures { result ≡ is_top (extended bound) }
{
    match bound {
        Ext::PosInf => true,
        _ => false,
    }
}

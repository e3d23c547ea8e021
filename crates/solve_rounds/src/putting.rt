//! Bounds that are put, unknown by unknown.

ghost use Rattle.std.specs.Prelude.{◌≡◌, length, map, get_or};
ghost use Rattle.base_numbers.specs.Rational.{zero_ℚ};
ghost use Rattle.base_numbers.specs.Extended.{fin, pos_inf};
ghost use Rattle.solve_rounds.specs.Putting.{AreNumberedIn, puts};

use base_fractions::{Ext, Frac};
use flow_systems::Bounds;
use solve_ray::RateOf;

/// Gives the unknowns of a list their numbers.
pub(crate) fn put_numbers(bounds: &mut Bounds, list: &[u32], to: &[Frac])
    requires within { AreNumberedIn (length bounds.old) list.now }
    requires count { length to.now ≡ length list.now }
    ensures { bounds.new ≡ puts (λ k. fin (get_or to.now k zero_ℚ)) list.now bounds.old (length list.now) }
{
    for k in 0..list.len() {
        bounds.set(list[k], Ext::Fin(to[k]));
    }
}

/// Gives the unknowns with a rate `+inf`.
pub(crate) fn put_tops(bounds: &mut Bounds, rates: &[RateOf])
    requires { AreNumberedIn (length bounds.old) (map (λ rate. rate.unknown) rates.now) }
    ensures { bounds.new ≡ puts (λ k. pos_inf) (map (λ rate. rate.unknown) rates.now) bounds.old (length rates.now) }
{
    for k in 0..rates.len() {
        bounds.set(rates[k].unknown, Ext::PosInf);
    }
}

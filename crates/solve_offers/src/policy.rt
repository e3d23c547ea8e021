//! Two policies.

ghost use Rattle.solve_offers.specs.Offers.{SomeExceeds, IsFirstGreatest, IsFirstExceeding};

use crate::offer::{Offer, exceeds};

/// The first position of the greatest value. Takes no memory.
pub fn best(offer: &Offer) -> usize
    requires { SomeExceeds offer.now }
    ensures { IsFirstGreatest offer.now.values result }
{
    let values = offer.values.as_slice();
    let mut best = 0;
    for (k, value) in values.iter().enumerate() {
        if exceeds(*value, values[best]) {
            best = k;
        }
    }
    best
}

/// The first position whose value exceeds the bound. Takes no memory.
pub fn first(offer: &Offer) -> usize
    requires { SomeExceeds offer.now }
    ensures { IsFirstExceeding offer.now result }
{
    let values = offer.values.as_slice();
    for (k, value) in values.iter().enumerate() {
        if exceeds(*value, offer.bound) {
            return k;
        }
    }
    unreachable!()
}

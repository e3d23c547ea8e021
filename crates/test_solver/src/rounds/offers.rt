//! Policies and choosers over offers.

ghost use Rattle.solve_offers.specs.Offers.{Exceeds, SomeExceeds};

use crate::cases::{Case, first_wrong};
use base_fractions::{Ext, Frac};
use solve_offers::{Chooser, EdgeNumbers, Offer, Values, best, exceeds, first};
use std::alloc::{AllocError, Global};

/// The last position whose value exceeds the bound.
pub(crate) fn last(offer: &Offer) -> usize
    requires { SomeExceeds offer.now }
    ensures { Exceeds offer.now result }
{
    let values = offer.values.as_slice();
    for k in (0..values.len()).rev() {
        if exceeds(values[k], offer.bound) {
            return k;
        }
    }
    unreachable!()
}

// The positions that `best`, `first` and a chooser with the policy `last` answer, where some value exceeds the bound.
fn chosen(offer: &Offer) -> Option<[usize; 3]> {
    if offer.some_exceeds() {
        let by_last = Chooser::new(last).choose(offer);
        Some([best(offer), first(offer), by_last])
    } else {
        None
    }
}

/// A bound or a value.
#[derive(Clone, Copy)]
enum At {
    Lost,
    Whole(i64),
    Free,
}

use At::{Free, Lost, Whole};

fn bound_of(at: At) -> Option<Ext> {
    match at {
        Lost => Some(Ext::NegInf),
        Whole(number) => Some(Ext::Fin(Frac::make(number, 1)?)),
        Free => Some(Ext::PosInf),
    }
}

// An offer of four edges; nothing where a number doesn't fit.
fn make_offer(alloc: Global, bound: At, values: &[At; 4]) -> Option<Offer> {
    let values = [
        bound_of(values[0])?,
        bound_of(values[1])?,
        bound_of(values[2])?,
        bound_of(values[3])?,
    ];
    Some(Offer {
        bound: bound_of(bound)?,
        edges: EdgeNumbers::new(Vec::from_array(alloc, [2, 3, 5, 7]).ok()?),
        values: Values::new(Vec::from_array(alloc, values).ok()?),
    })
}

// The bound of an offer, its values, and what the policies choose.
impl Case for (At, [At; 4], Option<[usize; 3]>) {
    fn is_right(&self, alloc: Global) -> bool {
        match make_offer(alloc, self.0, &self.1) {
            Some(offer) => chosen(&offer) == self.2,
            None => false,
        }
    }
}

#[test]
fn policies_choose(rt: HostRuntime) {
    let offers: [(At, [At; 4], Option<[usize; 3]>); 4] = [
        (Lost, [Lost, Whole(1), Whole(2), Whole(2)], Some([2, 1, 3])),
        (Whole(1), [Whole(1), Whole(2), Free, Lost], Some([2, 1, 2])),
        (Whole(2), [Whole(1), Free, Free, Whole(2)], Some([1, 1, 2])),
        (Whole(2), [Whole(1), Whole(2), Lost, Whole(1)], None),
    ];
    assert_eq!(rt; first_wrong(rt.alloc(), &offers), None);
}

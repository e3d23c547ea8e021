//! Rates of unknowns, with the directions in which they grow.

use base_fractions::Frac;
use base_list::Sequence;
use flow_systems::Trace;

/// An unknown that grows without end: how much for each unit along the ray, and the direction of its trace.
#[derive(Drop)]
pub struct RateOf {
    pub unknown: u32,
    pub rate: Frac,
    pub direction: Trace,
}

/// Rates of unknowns, in order.
pub type RateList = Sequence<RateOf>;

/// The unknowns that grow along a ray, each with its rate and its direction.
#[derive(Drop)]
pub struct Rates {
    pub list: RateList,
}

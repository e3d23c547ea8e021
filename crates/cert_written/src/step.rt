//! The steps of a certificate.
//!
//! Steps, items and edges are numbered from 0. The unknown of point `p` and row `r` has the number `p * rows + r`.

use crate::trace::Trace;
use base_fractions::Frac;
use base_list::Sequence;

/// An item of a plain step: the trace `low` along the edge shows the unknown at least at `to`.
#[derive(Drop)]
pub struct Item {
    pub unknown: u32,
    pub edge: u32,
    pub low: Trace,
    pub to: Frac,
}

/// Items in order.
pub type Items = Sequence<Item>;

/// An item of a jump: `low` runs at the vector that the step finds, and `high` where every new bound `to` of the step is
/// in place.
#[derive(Drop)]
pub struct JumpItem {
    pub unknown: u32,
    pub edge: u32,
    pub low: Trace,
    pub high: Trace,
    pub to: Frac,
}

/// Items in order.
pub type JumpItems = Sequence<JumpItem>;

/// An item of a ray: along the direction, whose parts are those of a trace, the unknown's row rises by at least the rate.
#[derive(Drop)]
pub struct RayItem {
    pub unknown: u32,
    pub edge: u32,
    pub low: Trace,
    pub direction: Trace,
    pub rate: Frac,
}

/// Items in order.
pub type RayItems = Sequence<RayItem>;

/// A step from one vector of bounds to a greater one.
#[derive(Drop)]
pub enum Step {
    /// The unknowns take what a trace shows.
    Plain(Items),
    /// The unknowns take what they would show if they had it, from a start where each edge leads above its bound.
    Jump(JumpItems),
    /// The unknowns take `+inf`.
    Ray(RayItems),
}

/// Steps in order.
pub type Steps = Sequence<Step>;

//! Traces along an edge.

use base_fractions::Frac;
use base_list::Sequence;

/// Fractions in order.
pub type Fracs = Sequence<Frac>;

/// A trace along an edge: the values of the variables at its start, and one value for each free assignment, in order.
/// They determine every state on the edge.
#[derive(Drop)]
pub struct Trace {
    pub start: Fracs,
    pub free: Fracs,
}

//! Claims.

use flow_edges::Cases;
use lang_tree::{Cond, Name};

/// A claim: in every run, at every configuration at a point, a condition is true.
#[derive(Drop)]
pub struct Claim {
    /// The number of the point, counted from 0.
    pub point: u32,
    /// The label that names the point.
    pub label: Name,
    pub cond: Cond,
    /// The cases in which the condition may be false.
    pub against: Cases,
}

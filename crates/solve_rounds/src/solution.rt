//! Solutions.

use cert_types::{Steps, Uppers};
use flow_systems::Bounds;

/// What the rounds end with: the least bounds, the number of rounds, the steps of all rounds in order, and the evidence that no
/// edge leads above the bounds. With the template's rows these are a valid certificate.
#[derive(Drop)]
pub struct Solved {
    pub bounds: Bounds,
    pub improvements: u32,
    pub steps: Steps,
    pub uppers: Uppers,
}

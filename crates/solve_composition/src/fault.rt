//! Why edges aren't composed.

use base_fractions::{Frac, Wide};
use flow_systems::{Fault, Spot};

/// Why a system's edges aren't composed: the first operation that was too wide, in the first edge with one, or there was no memory.
pub type PathFault = Fault<Spot>;

/// Why a form isn't composed: its first operation that was too wide, or there was no memory.
pub type FormFault = Fault<Wide<Frac>>;

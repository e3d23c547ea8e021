//! Why a round stops.

use flow_systems::{Fault, Spot};

/// Why a part of a round isn't done: an operation was too wide, or there was no memory.
pub type Stop = Fault<Spot>;

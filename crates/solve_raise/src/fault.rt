//! Why an unknown isn't raised.

use base_fractions::{Frac, Wide};
use flow_systems::Fault;

/// Why a step that raises an unknown isn't made: an operation has a result with a part above the limit, or there was no memory.
pub type RaiseFault = Fault<Wide<Frac>>;

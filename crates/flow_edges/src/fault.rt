//! Why a program has no flow.

ghost use Rattle.std.specs.Prelude.{◌≡◌};

use std::alloc::AllocError;

/// Why a program has no flow. The first that stands in this order is answered, and `NoMemory` at any time.
#[derive(Clone, Copy, Debug, PartialEq, Eq, Drop)]
pub enum FlowFault {
    /// The condition of the statement at this line, or its negation where that is used, has more than 64 cases. Of several
    /// such statements it is the first in the text.
    Cases { line: u32 },
    /// There are this many points, which is more than `MOST_POINTS`.
    Points { count: u32 },
    /// There are more than `MOST_EDGES` edges.
    Edges,
    /// The edge with this number, from 0, has more than `MOST_ACTIONS` actions; of several such edges it is the lowest.
    Actions { edge: u32 },
    /// All edges together have more than `MOST_ALL_ACTIONS` actions.
    AllActions,
    /// There are this many checks, which is more than `MOST_CHECKS`.
    Checks { count: u32 },
    NoMemory,
}

impl From<AllocError> for FlowFault {
    ghost use Rattle.flow_edges.specs.declared.fault.FlowFault.TheVariants.{NoMemory};

    ghost from_gives = { λ _ e. e ≡ NoMemory };

    fn from(_e: AllocError) -> FlowFault {
        FlowFault::NoMemory
    }
}

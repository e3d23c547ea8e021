//! Why there are no verdicts on checks.

use base_fractions::{Frac, Wide};
use flow_systems::Part;
use std::alloc::AllocFailed;

/// Why there is no verdict on a check.
#[derive(Clone, Copy, Debug, PartialEq, Eq, Drop)]
pub enum CheckFault {
    /// An operation was too wide, in this part of the problem of this case at the check's place on this edge. Edges and cases are
    /// counted from 0, and a number above 4,294,967,295 is given as this greatest one.
    Wide {
        edge: u32,
        case: u32,
        part: Part,
        wide: Wide<Frac>,
    },
    /// There was no memory.
    NoMemory,
}

/// Why there are no verdicts on a list of checks.
#[derive(Clone, Copy, Debug, PartialEq, Eq, Drop)]
pub enum ChecksFault {
    /// An operation was too wide, in this part of the problem of this case at this check's place on this edge. Checks, edges and
    /// cases are counted from 0, and a number above 4,294,967,295 is given as this greatest one.
    Wide {
        check: u32,
        edge: u32,
        case: u32,
        part: Part,
        wide: Wide<Frac>,
    },
    /// There was no memory.
    NoMemory,
}

impl<T: Drop> From<AllocFailed<T>> for ChecksFault {
    ghost use Rattle.std.specs.Prelude.{◌≡◌};
    ghost use Rattle.ask_checks.specs.declared.outcome.ChecksFault.TheVariants.{NoMemory};

    ghost from_gives = { λ _ fault. fault ≡ NoMemory };

    fn from(_failed: AllocFailed<T>) -> ChecksFault {
        ChecksFault::NoMemory
    }
}

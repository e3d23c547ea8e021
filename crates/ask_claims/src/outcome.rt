//! Why there are no verdicts on claims.

use base_fractions::{Frac, Wide};
use flow_systems::Part;
use std::alloc::AllocFailed;

/// Why there are no verdicts on a list of claims.
#[derive(Clone, Copy, Debug, PartialEq, Eq, Drop)]
pub enum ClaimsFault {
    /// An operation was too wide, in this part of the problem of this case of this claim. Claims and cases are counted from
    /// 0, and a number above 4,294,967,295 is given as this greatest one.
    Wide {
        claim: u32,
        case: u32,
        part: Part,
        wide: Wide<Frac>,
    },
    /// There was no memory.
    NoMemory,
}

impl<T: Drop> From<AllocFailed<T>> for ClaimsFault {
    ghost use Rattle.std.specs.Prelude.{◌≡◌};
    ghost use Rattle.ask_claims.specs.declared.outcome.ClaimsFault.TheVariants.{NoMemory};

    ghost from_gives = { λ _ fault. fault ≡ NoMemory };

    fn from(_failed: AllocFailed<T>) -> ClaimsFault {
        ClaimsFault::NoMemory
    }
}

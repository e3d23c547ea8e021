//! Why there is no guess.

use base_fractions::{Frac, Wide};
use flow_systems::PartFault;
use lp_simplex::SolveFault;
use std::alloc::{AllocError, AllocFailed};

/// Why there is no guess.
#[derive(Clone, Copy, Drop)]
pub enum Halt {
    /// It was given up.
    GivenUp,
    /// There was no memory.
    NoMemory,
}

impl From<AllocError> for Halt {
    fn from(_error: AllocError) -> Halt {
        Halt::NoMemory
    }
}

impl<T: Drop> From<AllocFailed<T>> for Halt {
    fn from(_failed: AllocFailed<T>) -> Halt {
        Halt::NoMemory
    }
}

impl From<Wide<Frac>> for Halt {
    fn from(_wide: Wide<Frac>) -> Halt {
        Halt::GivenUp
    }
}

impl From<PartFault> for Halt {
    fn from(fault: PartFault) -> Halt {
        match fault {
            PartFault::Wide { .. } => Halt::GivenUp,
            PartFault::NoMemory => Halt::NoMemory,
        }
    }
}

impl From<SolveFault<Frac>> for Halt {
    fn from(fault: SolveFault<Frac>) -> Halt {
        match fault {
            SolveFault::Wide { .. } => Halt::GivenUp,
            SolveFault::NoMemory => Halt::NoMemory,
        }
    }
}

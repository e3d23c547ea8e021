//! Why a reading ends early.

ghost use Rattle.std.specs.Prelude.{◌≡◌};
ghost use Rattle.source_meaning.specs.declared.fault.FunctionFault.TheVariants.{NoMemory};
ghost use Rattle.source_reader.specs.declared.stop.Stop.TheVariants.{Fault};

use source_meaning::FunctionFault;
use std::alloc::{AllocError, AllocFailed};

/// Why a reading ends early.
#[derive(Clone, Copy, Debug, Drop)]
pub enum Stop {
    /// The function has a fault, or there is no memory.
    Fault(FunctionFault),
    /// The tokens aren't spelled as what is read. Where they keep to the grammar this isn't answered.
    Unlike,
}

impl From<FunctionFault> for Stop {
    ghost from_gives = { λ fault stop. stop ≡ Fault fault };

    fn from(fault: FunctionFault) -> Self {
        Stop::Fault(fault)
    }
}

impl From<AllocError> for Stop {
    ghost from_gives = { λ _ stop. stop ≡ Fault NoMemory };

    fn from(_error: AllocError) -> Self {
        Stop::Fault(FunctionFault::NoMemory)
    }
}

impl<T: Drop> From<AllocFailed<T>> for Stop {
    ghost from_gives = { λ _ stop. stop ≡ Fault NoMemory };

    fn from(_error: AllocFailed<T>) -> Self {
        Stop::Fault(FunctionFault::NoMemory)
    }
}

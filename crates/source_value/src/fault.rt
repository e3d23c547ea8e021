//! Why an operation gives no value.

ghost use Rattle.std.specs.Prelude.{◌≡◌};
ghost use Rattle.source_value.specs.declared.fault.OperationFault.TheVariants.{NoMemory};

use std::alloc::{AllocError, AllocFailed};

/// Why an operation gives no value.
#[derive(Clone, Copy, Debug, PartialEq, Eq)]
pub enum OperationFault {
    /// A number of the result would leave its range (`specs/Fits.antt`).
    Big,
    /// There is no memory for the result.
    NoMemory,
}

impl From<AllocError> for OperationFault {
    ghost from_gives = { λ _ e. e ≡ NoMemory };

    fn from(_error: AllocError) -> Self {
        OperationFault::NoMemory
    }
}

impl<T: Drop> From<AllocFailed<T>> for OperationFault {
    ghost from_gives = { λ _ e. e ≡ NoMemory };

    fn from(_error: AllocFailed<T>) -> Self {
        OperationFault::NoMemory
    }
}

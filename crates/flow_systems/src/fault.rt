//! Why a value isn't made from fractions.

use base_fractions::{Frac, Wide};
use std::alloc::{AllocError, AllocFailed};

/// Why a value isn't made: this was too wide, or there was no memory. What was too wide is an operation, or the spot of one.
#[derive(Clone, Copy, Debug, PartialEq, Eq, Drop)]
pub enum Fault<W> {
    /// This was the first that was too wide.
    Wide(W),
    /// There was no memory.
    NoMemory,
}

impl From<Wide<Frac>> for Fault<Wide<Frac>> {
    ghost use Rattle.std.specs.Prelude.{◌≡◌};
    ghost use Rattle.flow_systems.specs.declared.fault.Fault.TheVariants.{Wide as WideFault};

    ghost from_gives = { λ wide fault. fault ≡ WideFault wide };

    fn from(wide: Wide<Frac>) -> Fault<Wide<Frac>> {
        Fault::Wide(wide)
    }
}

impl<W> From<AllocError> for Fault<W> {
    ghost use Rattle.std.specs.Prelude.{◌≡◌};
    ghost use Rattle.flow_systems.specs.declared.fault.Fault.TheVariants.{NoMemory};

    ghost from_gives = { λ _ fault. fault ≡ NoMemory };

    fn from(_error: AllocError) -> Fault<W> {
        Fault::NoMemory
    }
}

impl<W, T: Drop> From<AllocFailed<T>> for Fault<W> {
    ghost use Rattle.std.specs.Prelude.{◌≡◌};
    ghost use Rattle.flow_systems.specs.declared.fault.Fault.TheVariants.{NoMemory};

    ghost from_gives = { λ _ fault. fault ≡ NoMemory };

    fn from(_failed: AllocFailed<T>) -> Fault<W> {
        Fault::NoMemory
    }
}

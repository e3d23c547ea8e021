//! Why rows are refused.

use std::alloc::{AllocError, AllocFailed};

/// Why rows are no template. Lines are numbered from 1.
///
/// The first faulty line decides, and in a line the first of `Length`, `BadRow`, `UnknownName` and `ZeroRow` that fits;
/// `Count` comes only where no line is faulty. `Large` comes of ready-made templates alone. `docs/FORMATS.md` has the rules.
#[derive(Clone, Copy, Debug, PartialEq, Eq)]
pub enum RowFault {
    /// All coefficients of the row on this line are 0.
    ZeroRow { line: u32 },
    /// There are no rows, or more than `MOST_ROWS`; `count` is their number.
    Count { count: u32 },
    /// A ready-made template over the variables has so many rows, more than `MOST_ROWS`: `count`.
    Large { count: u32 },
    /// The row on this line names no variable of the program.
    UnknownName { line: u32 },
    /// This line is neither blank nor a row, or a coefficient leaves `2^63 - 1`.
    BadRow { line: u32 },
    /// The row of this number hasn't one coefficient for each variable.
    Length { line: u32 },
    /// Memory was wanted.
    NoMemory,
}

impl From<AllocError> for RowFault {
    ghost use Rattle.std.specs.Prelude.{◌≡◌};
    ghost use Rattle.flow_templates.specs.declared.fault.RowFault.TheVariants.{NoMemory};

    ghost from_gives = { λ _ fault. fault ≡ NoMemory };

    fn from(_refused: AllocError) -> RowFault {
        RowFault::NoMemory
    }
}

impl<T: Drop> From<AllocFailed<T>> for RowFault {
    ghost use Rattle.std.specs.Prelude.{◌≡◌};
    ghost use Rattle.flow_templates.specs.declared.fault.RowFault.TheVariants.{NoMemory};

    ghost from_gives = { λ _ fault. fault ≡ NoMemory };

    fn from(_refused: AllocFailed<T>) -> RowFault {
        RowFault::NoMemory
    }
}

//! Why bytes are no certificate.

use std::alloc::{AllocError, AllocFailed};

/// A field of a certificate; `Top` is the whole, with its keys.
#[derive(Clone, Copy, Debug, PartialEq, Eq)]
pub enum Field {
    Top,
    Format,
    Rows,
    Bounds,
    /// The list of traces, which formats 2 and 3 have.
    Traces,
    Steps,
    Uppers,
}

/// Why bytes are no certificate. The fields are tested in the order of `Field`, and each by all its refusals before the next.
#[derive(Clone, Copy, Debug, PartialEq, Eq)]
pub enum FormFault {
    /// The bytes are no JSON.
    NotJson,
    /// The field hasn't its shape.
    Shape(Field),
    /// The field has its shape, and a text in it isn't the canonical text of a number of its kind.
    Number(Field),
    /// The format is a whole number other than 1, 2 and 3.
    Version,
    /// The traces that items name by number hold more than `MOST_VALUES` values, counted once for each naming; without
    /// zeros in format 3.
    Expanded,
    /// Memory was refused.
    NoMemory,
}

impl From<AllocError> for FormFault {
    ghost use Rattle.std.specs.Prelude.{◌≡◌};
    ghost use Rattle.cert_text.specs.declared.fault.FormFault.TheVariants.{NoMemory};

    ghost from_gives = { λ _ fault. fault ≡ NoMemory };

    fn from(_: AllocError) -> FormFault {
        FormFault::NoMemory
    }
}

impl<T: Drop> From<AllocFailed<T>> for FormFault {
    ghost use Rattle.std.specs.Prelude.{◌≡◌};
    ghost use Rattle.cert_text.specs.declared.fault.FormFault.TheVariants.{NoMemory};

    ghost from_gives = { λ _ fault. fault ≡ NoMemory };

    fn from(_: AllocFailed<T>) -> FormFault {
        FormFault::NoMemory
    }
}

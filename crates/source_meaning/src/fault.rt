//! Why a function is no program.

ghost use Rattle.std.specs.Prelude.{◌≡◌};
ghost use Rattle.source_meaning.specs.declared.fault.FunctionFault.TheVariants.{NoMemory};

use std::alloc::{AllocError, AllocFailed};

/// A limit of functions (docs/FORMATS.md, "Functions").
#[derive(Clone, Copy, Debug, PartialEq, Eq)]
pub enum Limit {
    /// `MOST_VARIABLES` variables.
    Variables,
    /// `MOST_HIDDEN` hidden variables of a statement.
    Hidden,
    /// 64 leaves of a condition, or of what stands in a prelude.
    Leaves,
    /// 4,096 statements of the program that the function is.
    Statements,
}

/// The first fault of a function that keeps to the grammar; `at` counts the bytes of the text before a token
/// (docs/FORMATS.md, "Functions").
#[derive(Clone, Copy, Debug, PartialEq, Eq)]
pub enum FunctionFault {
    /// A name is used where it is not known.
    UnknownName { at: u32 },
    /// A variable, an array or a label is declared while it is known, or as another thing than before; or a constant is declared.
    NameTwice { at: u32 },
    /// A variable is called or has an index, or an array is called or has none, or not as many as it is declared with; or a constant is
    /// called, changed or has an index.
    WrongKind { at: u32 },
    /// An array has no element, or more than 2^31 - 1.
    Array { at: u32 },
    /// A number leaves its range.
    BigNumber { at: u32 },
    /// A variable is stepped inside an expression.
    SideEffect { at: u32 },
    /// The first token past a limit, or the first one of the statement that passes it.
    Limit { at: u32, which: Limit },
    /// A `break` or a `continue` stands in no loop's body.
    OutsideLoop { at: u32 },
    /// No variable is declared.
    NoVariables,
    /// There is no memory for the program.
    NoMemory,
}

impl From<AllocError> for FunctionFault {
    ghost from_gives = { λ _ e. e ≡ NoMemory };

    fn from(_error: AllocError) -> Self {
        FunctionFault::NoMemory
    }
}

impl<T: Drop> From<AllocFailed<T>> for FunctionFault {
    ghost from_gives = { λ _ e. e ≡ NoMemory };

    fn from(_error: AllocFailed<T>) -> Self {
        FunctionFault::NoMemory
    }
}

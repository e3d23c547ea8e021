//! Why tokens are no program.

ghost use Rattle.std.specs.Prelude.{◌≡◌};
ghost use Rattle.lang_meaning.specs.declared.fault.ParseFault.TheVariants.{NoMemory};

use std::alloc::{AllocError, AllocFailed};

/// A limit of the language.
#[derive(Clone, Copy, Debug, PartialEq, Eq)]
pub enum Limit {
    /// 64 nested constructs.
    Nesting,
    /// `MOST_VARIABLES` variables.
    Variables,
    /// `MOST_STATEMENTS` statements.
    Statements,
    /// 64 leaves of a condition.
    Leaves,
}

/// The first fault of a text's tokens; `at` counts the bytes of the text before a token
/// (docs/FORMATS.md, "The order of faults").
#[derive(Clone, Copy, Debug, PartialEq, Eq)]
pub enum ParseFault {
    /// The tokens before this one begin a sentence of the grammar, and with it they begin none.
    Unexpected { at: u32 },
    /// A name is used where it is not known.
    UnknownName { at: u32 },
    /// A variable or a label is declared a second time.
    NameTwice { at: u32 },
    /// A product of two sides that are not constant, or a truth value that is used as a number.
    NotAffine { at: u32 },
    /// `nondet()` stands neither as a whole right side nor as a leaf of a condition.
    NondetHere { at: u32 },
    /// The first token or statement past a limit.
    Limit { at: u32, which: Limit },
    /// No variable is declared.
    NoVariables,
    /// A coefficient or a constant leaves its range.
    BigNumber { at: u32 },
    /// A `break` or a `continue` stands in no loop's body.
    OutsideLoop { at: u32 },
    /// There is no memory for the program.
    NoMemory,
}

impl From<AllocError> for ParseFault {
    ghost from_gives = { λ _ e. e ≡ NoMemory };

    fn from(_error: AllocError) -> Self {
        ParseFault::NoMemory
    }
}

impl<T: Drop> From<AllocFailed<T>> for ParseFault {
    ghost from_gives = { λ _ e. e ≡ NoMemory };

    fn from(_error: AllocFailed<T>) -> Self {
        ParseFault::NoMemory
    }
}

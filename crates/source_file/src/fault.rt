//! Why a file is no program.

ghost use Rattle.std.specs.Prelude.{◌≡◌};
ghost use Rattle.source_file.specs.declared.fault.SourceFault.TheVariants.{NoMemory};

use lang_tokens::Foreign;
use source_meaning::FunctionFault;
use std::alloc::{AllocError, AllocFailed};

/// The first fault of a file whose tokens are there, where one of its functions is asked about; `at` counts the bytes of the text before a
/// token (docs/FORMATS.md, "The order of faults").
#[derive(Clone, Copy, Debug, PartialEq, Eq)]
pub enum SourceFault {
    /// The first token with which the file, or the function, can't go on.
    Unexpected { at: u32 },
    /// The first token that opens a construct in 64 others.
    Nesting { at: u32 },
    /// A function with a body has the name of one before it, or a constant that of one before it.
    NameTwice { at: u32 },
    /// No function has the name that is asked about; or none is named, there is no `main`, and not one function alone.
    WhichFunction,
    /// A token of the function that is asked about stands in no function of the language.
    Foreign { at: u32, foreign: Foreign },
    /// A word of the function that is asked about is a macro there.
    Macro { at: u32 },
    /// A fault of the function that is asked about.
    Function(FunctionFault),
    /// There is no memory for the program.
    NoMemory,
}

impl From<AllocError> for SourceFault {
    ghost from_gives = { λ _ e. e ≡ NoMemory };

    fn from(_error: AllocError) -> Self {
        SourceFault::NoMemory
    }
}

impl<T: Drop> From<AllocFailed<T>> for SourceFault {
    ghost from_gives = { λ _ e. e ≡ NoMemory };

    fn from(_error: AllocFailed<T>) -> Self {
        SourceFault::NoMemory
    }
}

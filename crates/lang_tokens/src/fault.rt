//! Why a text has no tokens.

use std::alloc::AllocFailed;

/// The first fault of a text, in the order of its bytes; `at` counts the bytes before the fault
/// (docs/FORMATS.md, "Tokens").
#[derive(Clone, Copy, Debug, PartialEq, Eq)]
pub enum LexFault {
    /// No token, blank or comment starts at this byte, or C joins two lines at this `\` of a comment.
    BadByte { at: u32 },
    /// The comment that starts with this `/*` has no `*/`.
    OpenComment { at: u32 },
    /// The number that starts here exceeds 9223372036854775807.
    LongNumber { at: u32 },
    /// The word that starts here has more than 32 bytes.
    LongName { at: u32 },
    /// The number that starts here has more than one digit and starts with 0, or a letter or `_`
    /// follows it at once.
    BadNumber { at: u32 },
    /// There is no memory for the tokens.
    NoMemory,
}

impl<T: Drop> From<AllocFailed<T>> for LexFault {
    ghost use Rattle.std.specs.Prelude.{◌≡◌};
    ghost use Rattle.lang_tokens.specs.declared.fault.LexFault.TheVariants.{NoMemory};

    ghost from_gives = { λ _ fault. fault ≡ NoMemory };

    fn from(_failed: AllocFailed<T>) -> Self {
        LexFault::NoMemory
    }
}

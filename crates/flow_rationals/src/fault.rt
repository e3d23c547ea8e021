//! Why a text is no equations.

use lang_tokens::LexFault;
use std::alloc::{AllocError, AllocFailed};

/// The first fault of a text of equations; `at` counts the bytes before the token that is meant
/// (docs/FORMATS.md, "Equations").
///
/// `Lex`, `Unexpected`, `NameTwice` and `Count` come before all others, in this order. Then the first place decides:
/// `Terms` comes before anything else at its place, and `Big` after the last token of its sum. `Alternatives` is last.
#[derive(Clone, Copy, Debug, PartialEq, Eq)]
pub enum EquFault {
    /// The text has no tokens.
    Lex(LexFault),
    /// The tokens before this one begin a text of equations, and with it they begin none.
    Unexpected { at: u32 },
    /// The equation that starts here is a second one of its name.
    NameTwice { at: u32 },
    /// There are more than `MOST_EQUATIONS` equations; `count` is their number.
    Count { count: u32 },
    /// This name has no equation.
    UnknownName { at: u32 },
    /// This second number of a ratio is 0.
    ZeroBelow { at: u32 },
    /// The sum that starts here is one more than `MOST_SUMS` of a minimum.
    Terms { at: u32 },
    /// The common denominator of the sum that starts here, a part times it, or a sum of such parts for one name or for
    /// the constant leaves `2^63 - 1`.
    Big { at: u32 },
    /// There are more than `MOST_ALTERNATIVES` alternatives; `count` is their number.
    Alternatives { count: u32 },
    /// Memory was wanted.
    NoMemory,
}

impl From<AllocError> for EquFault {
    ghost use Rattle.std.specs.Prelude.{◌≡◌};
    ghost use Rattle.flow_rationals.specs.declared.fault.EquFault.TheVariants.{NoMemory};

    ghost from_gives = { λ _ fault. fault ≡ NoMemory };

    fn from(_refused: AllocError) -> EquFault {
        EquFault::NoMemory
    }
}

impl<T: Drop> From<AllocFailed<T>> for EquFault {
    ghost use Rattle.std.specs.Prelude.{◌≡◌};
    ghost use Rattle.flow_rationals.specs.declared.fault.EquFault.TheVariants.{NoMemory};

    ghost from_gives = { λ _ fault. fault ≡ NoMemory };

    fn from(_refused: AllocFailed<T>) -> EquFault {
        EquFault::NoMemory
    }
}

//! Why a text is no file of claims.

use lang_parser::ParseFault;
use lang_tokens::LexFault;
use std::alloc::AllocFailed;

/// The first fault of a file of claims; `at` counts the bytes of the text before a token (docs/FORMATS.md, "Claims").
#[derive(Clone, Copy, Debug, PartialEq, Eq)]
pub enum ClaimFault {
    /// The text has no tokens.
    Lex(LexFault),
    /// A token can't stand in its place; or an expression is refused, is no condition, or has a `nondet`.
    Parse(ParseFault),
    /// The name of a claim is no label of the program.
    UnknownLabel { at: u32 },
    /// The name of the 65th claim.
    Count { at: u32 },
    /// The condition of the claim whose name stands here may be false in more than 64 cases.
    Cases { at: u32 },
    /// There is no memory for the claims.
    NoMemory,
}

impl From<ParseFault> for ClaimFault {
    ghost use Rattle.std.specs.Prelude.{◌≡◌};
    ghost use Rattle.ask_claims.specs.Claims.{of_parse};

    ghost from_gives = { λ p e. e ≡ of_parse p };

    fn from(fault: ParseFault) -> Self {
        match fault {
            ParseFault::NoMemory => ClaimFault::NoMemory,
            fault => ClaimFault::Parse(fault),
        }
    }
}

impl<T: Drop> From<AllocFailed<T>> for ClaimFault {
    ghost use Rattle.std.specs.Prelude.{◌≡◌};
    ghost use Rattle.ask_claims.specs.declared.fault.ClaimFault.TheVariants.{NoMemory};

    ghost from_gives = { λ _ e. e ≡ NoMemory };

    fn from(_error: AllocFailed<T>) -> Self {
        ClaimFault::NoMemory
    }
}

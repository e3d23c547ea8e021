//! Why a text is no transition system, or one without a flow.

ghost use Rattle.std.specs.Prelude.{◌≡◌};

use lang_parser::ParseFault;
use lang_tokens::LexFault;
use std::alloc::{AllocError, AllocFailed};

/// Why a text is no transition system, or why a transition system has no flow; `at` counts the bytes of the text before what is meant
/// (docs/FORMATS.md, "Transition systems").
///
/// Of a text `Lex` comes first, and then the first place decides. Of a transition system the first of `Cases`, `Edges` and `Actions` that
/// stands is
/// answered. `NoMemory` comes at any time.
#[derive(Clone, Copy, Debug, PartialEq, Eq)]
pub enum AutoFault {
    /// The text has no tokens.
    Lex(LexFault),
    /// A token can't stand in its place; a variable or a point stands twice; there is a variable too many; a variable is unknown; an
    /// expression is
    /// refused, or isn't what an act asks for.
    Parse(ParseFault),
    /// This name of an edge is no point.
    UnknownPoint { at: u32 },
    /// This second name of an edge is the first point.
    IntoEntry { at: u32 },
    /// An assumption of the edge whose first name stands here has more than 64 cases. Of several such edges it is the first in the text.
    Cases { at: u32 },
    /// There are fewer than 2 points or more than `MOST_POINTS`; `count` is their number.
    Points { count: u32 },
    /// There are more than `MOST_EDGES` edges, one for each choice of cases.
    Edges,
    /// The edge with this number, from 0, has more than `MOST_ACTIONS` actions; of several such edges it is the lowest.
    Actions { edge: u32 },
    /// Memory was wanted.
    NoMemory,
}

impl From<AllocError> for AutoFault {
    ghost use Rattle.flow_transitions.specs.declared.fault.AutoFault.TheVariants.{NoMemory};

    ghost from_gives = { λ _ e. e ≡ NoMemory };

    fn from(_refused: AllocError) -> AutoFault {
        AutoFault::NoMemory
    }
}

impl<T: Drop> From<AllocFailed<T>> for AutoFault {
    ghost use Rattle.flow_transitions.specs.declared.fault.AutoFault.TheVariants.{NoMemory};

    ghost from_gives = { λ _ e. e ≡ NoMemory };

    fn from(_refused: AllocFailed<T>) -> AutoFault {
        AutoFault::NoMemory
    }
}

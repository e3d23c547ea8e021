//! Verdicts.

use base_fractions::{Frac, Wide};
use flow_systems::{Fracs, Part};

/// What bounds say of a condition at a place.
#[derive(Drop)]
pub enum Verdict {
    /// No rational state that is found there passes a case against the condition: none that actions lead to from one that
    /// fits the bounds at the point.
    Proved,
    /// This one does: it has one fraction for each variable, in order of declaration, and then one for each hidden variable up to the
    /// last that has been given a value there.
    Open { state: Fracs },
}

/// Why there is no verdict.
#[derive(Clone, Copy, Debug, PartialEq, Eq, Drop)]
pub enum VerdictFault {
    /// An operation was too wide, in this part of the problem of this case. Cases are counted from 0, and a number above
    /// 4,294,967,295 is given as this greatest one.
    Wide {
        case: u32,
        part: Part,
        wide: Wide<Frac>,
    },
    /// There was no memory.
    NoMemory,
}

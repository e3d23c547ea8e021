//! Where an operation was too wide for a fraction.

use base_fractions::{Frac, Wide};
use std::alloc::{AllocError, AllocFailed};

/// A part of solving a linear problem.
#[derive(Clone, Copy, Debug, PartialEq, Eq, Drop)]
pub enum Part {
    /// The sides of the problem.
    Side,
    /// The pivot of this number, counted from 1, with the ratios that prepare it. A number above 4,294,967,295 is given as
    /// this greatest one.
    Pivot(u32),
    /// The numbers that are read from the last dictionary.
    Reading,
}

/// What was computed. Edges, rows, unknowns, turns, raises, steps, items, claims, checks and cases are numbered from 0.
#[derive(Clone, Copy, Debug, PartialEq, Eq, Drop)]
pub enum Site {
    /// The composed forms of an edge.
    Compose {
        edge: u32,
    },
    /// The transformer of an edge and a row, to offer it.
    Offer {
        edge: u32,
        row: u32,
        part: Part,
    },
    /// The transformer of an edge and a row, to test for a raise.
    Growth {
        edge: u32,
        row: u32,
        part: Part,
    },
    /// The joint problem of a turn.
    Joint {
        turn: u32,
        part: Part,
    },
    /// The numbers of a raise.
    Raise {
        raise: u32,
    },
    /// An item of a certificate's step.
    Step {
        step: u32,
        item: u32,
    },
    /// What a certificate says of an unknown and an edge.
    Upper {
        unknown: u32,
        edge: u32,
    },
    /// The problem of a case of a claim's negation.
    Claim {
        claim: u32,
        case: u32,
        part: Part,
    },
    /// The problem of a case in which the condition of a check may be false, where the check stands on an edge.
    Check {
        check: u32,
        edge: u32,
        case: u32,
        part: Part,
    },
}

/// An operation that was too wide, in which round, 0 outside rounds, and at which site.
#[derive(Clone, Copy, Debug, PartialEq, Eq, Drop)]
pub struct Spot {
    pub round: u32,
    pub site: Site,
    pub wide: Wide<Frac>,
}

/// Why a linear problem wasn't solved.
#[derive(Clone, Copy, Debug, PartialEq, Eq, Drop)]
pub enum PartFault {
    /// An operation of this part was too wide.
    Wide { part: Part, wide: Wide<Frac> },
    /// There was no memory.
    NoMemory,
}

impl From<AllocError> for PartFault {
    ghost use Rattle.std.specs.Prelude.{◌≡◌};
    ghost use Rattle.flow_systems.specs.declared.spot.PartFault.TheVariants.{NoMemory};

    ghost from_gives = { λ _ fault. fault ≡ NoMemory };

    fn from(_error: AllocError) -> PartFault {
        PartFault::NoMemory
    }
}

impl<T: Drop> From<AllocFailed<T>> for PartFault {
    ghost use Rattle.std.specs.Prelude.{◌≡◌};
    ghost use Rattle.flow_systems.specs.declared.spot.PartFault.TheVariants.{NoMemory};

    ghost from_gives = { λ _ fault. fault ≡ NoMemory };

    fn from(_failed: AllocFailed<T>) -> PartFault {
        PartFault::NoMemory
    }
}

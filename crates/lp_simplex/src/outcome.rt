//! What the method answers.
use base_fractions::Wide;
use std::alloc::AllocError;

/// The outcome of a problem, with its evidence (docs/FORMATS.md, "Linear programs", has the rules by which it is read).
#[derive(Drop)]
pub enum Outcome<F> {
    /// The supremum is attained: a point that reaches it, its value, and one multiplier a row, at least 0, that bound each value.
    Best {
        point: Vec<F>,
        value: F,
        multipliers: Vec<F>,
    },
    /// There is no bound: a point, and a direction in which all are points and the value rises.
    Unbounded {
        point: Vec<F>,
        ray: Vec<F>,
    },
    /// There is no point: one multiplier a row, at least 0, with a combination of the rows that has no negative coefficient and
    /// a negative side.
    Empty {
        multipliers: Vec<F>,
    },
}

/// Why the method was refused: the first wide operation with the number of its pivot, counted from 1 and at most 4294967295, or
/// want of memory.
#[derive(Drop)]
pub enum SolveFault<F> {
    Wide { pivot: u32, wide: Wide<F> },
    NoMemory,
}

impl<F: Drop> From<AllocError> for SolveFault<F> {
    ghost use Rattle.std.specs.Prelude.{◌≡◌};
    ghost use Rattle.lp_simplex.specs.declared.outcome.SolveFault.TheVariants.{NoMemory};

    ghost from_gives = { λ _ e. e ≡ NoMemory };

    fn from(_e: AllocError) -> SolveFault<F> {
        SolveFault::NoMemory
    }
}

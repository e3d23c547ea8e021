//! Why the rounds halt.

use flow_systems::{Bounds, Spot};
use solve_offers::Stop;
use std::alloc::AllocError;

/// Why there is no solution.
#[derive(Drop)]
pub enum Halt {
    /// An operation was too wide.
    Wide(Spot),
    /// The joint problem of a turn has so many cells, more than `MOST_CELLS`.
    Large(u64),
    /// As many rounds as allowed were made. They led to these bounds, which are no post-solution.
    Spent(Bounds),
    /// There was no memory.
    NoMemory,
}

/// Why a round isn't made.
#[derive(Clone, Copy, Drop)]
pub(crate) enum RoundStop {
    /// An operation was too wide.
    Wide(Spot),
    /// The joint problem of a turn has so many cells, more than `MOST_CELLS`.
    Large(u64),
    /// There was no memory.
    NoMemory,
}

impl From<Stop> for RoundStop {
    ghost use Rattle.std.specs.Prelude.{◌≡◌};
    ghost use Rattle.solve_rounds.specs.HaltOf.{round_stop_of};

    ghost from_gives = { λ stop round_stop. round_stop ≡ round_stop_of stop };

    fn from(stop: Stop) -> RoundStop {
        match stop {
            Stop::Wide(spot) => RoundStop::Wide(spot),
            Stop::NoMemory => RoundStop::NoMemory,
        }
    }
}

impl From<AllocError> for RoundStop {
    ghost use Rattle.std.specs.Prelude.{◌≡◌};
    ghost use Rattle.solve_rounds.specs.declared.halt.RoundStop.TheVariants.{NoMemory};

    ghost from_gives = { λ _ stop. stop ≡ NoMemory };

    fn from(_e: AllocError) -> RoundStop {
        RoundStop::NoMemory
    }
}

impl From<RoundStop> for Halt {
    ghost use Rattle.std.specs.Prelude.{◌≡◌};
    ghost use Rattle.solve_rounds.specs.HaltOf.{halt_of_round};

    ghost from_gives = { λ stop halt. halt ≡ halt_of_round stop };

    fn from(stop: RoundStop) -> Halt {
        match stop {
            RoundStop::Wide(spot) => Halt::Wide(spot),
            RoundStop::Large(cells) => Halt::Large(cells),
            RoundStop::NoMemory => Halt::NoMemory,
        }
    }
}

impl From<Stop> for Halt {
    ghost use Rattle.std.specs.Prelude.{◌≡◌};
    ghost use Rattle.solve_rounds.specs.HaltOf.{halt_of};

    ghost from_gives = { λ stop halt. halt ≡ halt_of stop };

    fn from(stop: Stop) -> Halt {
        Halt::from(RoundStop::from(stop))
    }
}

//! What the transformer of an edge and a row is at a vector.

use base_fractions::Frac;
use flow_systems::{Fracs, Trace};

/// The transformer of an edge and a row at a vector, with what shows it. Rows of the template and guards of the edge are
/// counted from 0, and have one multiplier each, at least 0; a row whose bound isn't finite has the multiplier 0.
#[derive(Drop)]
pub enum Value {
    /// No state is there: this is the lowest row at the source whose bound is `-inf`.
    Unreached {
        row: u32,
    },
    /// No state passes: with these multipliers the rows and guards contradict one another.
    Empty {
        rows: Fracs,
        guards: Fracs,
    },
    /// The supremum, a trace that reaches it, and multipliers that bound it.
    Best {
        value: Frac,
        trace: Trace,
        rows: Fracs,
        guards: Fracs,
    },
    /// There is no bound: a trace, and a direction along which the row rises for ever.
    Unbounded {
        trace: Trace,
        direction: Trace,
    },
}

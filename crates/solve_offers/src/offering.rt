//! Where offers are made.

ghost use Rattle.std.specs.Prelude.{◌≡◌, ◌*◌, length};
ghost use Rattle.flow_systems.specs.View.{equations_of};
ghost use Rattle.solve_composition.specs.Composed.{AreComposed};

use flow_systems::{Bounds, System};
use solve_transformer::Paths;

/// The composed forms of a system's edges, and the bounds at which a round's offers are made.
#[derive(Drop)]
pub struct Offering<'a> {
    /// The system.
    pub system: &'a System,
    /// The composed forms of its edges.
    pub paths: &'a Paths,
    /// A bound for each of its unknowns.
    pub bounds: &'a Bounds,
    /// The number of the round, from 1.
    pub round: u32,
    pub ghost composed: { AreComposed (equations_of system.now) paths.now },
    pub ghost sized: { length bounds.now ≡ length system.now.flow.points * length system.now.template },
}

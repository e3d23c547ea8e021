//! A base for the unknowns of a system.

ghost use Rattle.std.specs.Prelude.{◌≡◌, ◌*◌, length};
ghost use Rattle.flow_systems.specs.View.{equations_of};
ghost use Rattle.solve_composition.specs.Composed.{AreComposed};

use flow_systems::{Bounds, System};
use solve_composition::Paths;

/// The composed forms of a system's edges, and a base: a bound for each of its unknowns.
#[derive(Drop)]
pub(crate) struct Based<'a> {
    pub system: &'a System,
    pub paths: &'a Paths,
    pub base: &'a Bounds,
    pub ghost composed: { AreComposed (equations_of system.now) paths.now },
    pub ghost sized: { length base.now ≡ length system.now.flow.points * length system.now.template },
}

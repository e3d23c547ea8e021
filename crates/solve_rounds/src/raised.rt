//! What the turns of a round share.

ghost use Rattle.std.specs.Prelude.{◌≡◌, ◌*◌, length};
ghost use Rattle.flow_systems.specs.View.{equations_of};
ghost use Rattle.solve_composition.specs.Composed.{AreComposed};
ghost use Rattle.solve_rounds.specs.Turning.{IsPickAt};

use cert_types::Step;
use flow_systems::{Pick, System};
use solve_transformer::Paths;

/// A system, a pick of its edges, and what the growth of a round by the pick has raised.
#[derive(Drop)]
pub(crate) struct Raised<'a> {
    /// The system.
    pub system: &'a System,
    /// The composed forms of its edges.
    pub paths: &'a Paths,
    /// An edge for each unknown that has one.
    pub pick: &'a Pick,
    /// The number of the round, from 1.
    pub round: u32,
    /// The raises of the growth in order.
    pub raises: &'a [Step],
    /// For each unknown the number of its last raise, counted from 0.
    pub places: &'a [u32],
    pub ghost composed: { AreComposed (equations_of system.now) paths.now },
    pub ghost sized: { length pick.now ≡ length system.now.flow.points * length system.now.template },
    pub ghost chosen: { IsPickAt system.now pick.now },
}

//! A program as points and edges.

ghost use Rattle.std.specs.Prelude.{IsTrue};
ghost use Rattle.flow_edges.specs.FlowLimits.{is_flow};

use crate::edge::Edges;
use crate::point::Points;
use lang_tree::Names;

/// The points and the edges of a program over these variables.
///
/// There are 1 to `MOST_VARIABLES` variables, 2 to `MOST_POINTS` points, at most `MOST_EDGES` edges and at most `MOST_ACTIONS` actions on
/// each. The first point alone is the entry, and no edge ends there. Every point that an edge names is there, and every variable that it
/// names is one of these or one of at most `MOST_HIDDEN` hidden ones behind them, which have no values at an edge's start; a form has
/// coefficients for the first of these, in order, and none for those behind, and its numbers are within `2^63 - 1` in absolute value.
#[derive(Drop)]
pub struct Flow {
    pub names: Names,
    pub points: Points,
    pub edges: Edges,
    pub ghost within_limits: { IsTrue (is_flow names points edges) },
}

//! Transition systems within the limits.

ghost use Rattle.std.specs.Prelude.{IsTrue};
ghost use Rattle.flow_transitions.specs.AutoLimits.{is_auto};

use crate::auto_edge::AutoEdges;
use flow_edges::Points;
use lang_tree::Names;

/// A transition system: its variables, its points, and its edges in order of the text.
///
/// There are 1 to `MOST_VARIABLES` variables and 2 to `MOST_POINTS` points. The first point has the place `Entry` and line 0, each other
/// one the
/// place `Label`. Every edge goes from a point to another than the first. An act is a `Set`, a `Havoc` or an `Assume`, with variables,
/// forms and
/// conditions as in a program: one coefficient for each variable, numbers within `2^63 - 1` in absolute value, the constant of a comparison
/// within `2^63 - 2`, at most 64 leaves in a condition.
#[derive(Drop)]
pub struct Auto {
    pub names: Names,
    pub points: Points,
    pub edges: AutoEdges,
    pub ghost within_limits: { IsTrue (is_auto names points edges) },
}

//! How many variables, points and edges a transition system may have, and how many actions each of its edges: fewer than a program may
//! have, so that its edges have never too many actions together, and a ready-made template over its variables never too many rows.

/// The greatest number of variables.
pub(crate) const MOST_VARIABLES: usize = 12;

/// The greatest number of points.
pub(crate) const MOST_POINTS: u32 = 96;

/// The greatest number of edges.
pub(crate) const MOST_EDGES: u32 = 256;

/// The greatest number of actions of an edge.
pub(crate) const MOST_ACTIONS: usize = 256;

//! How many points, edges and actions a flow may have, and how many checks a program that has one.

/// The greatest number of points of a flow.
pub const MOST_POINTS: u32 = 1024;

/// The greatest number of edges of a flow.
pub const MOST_EDGES: u32 = 8192;

/// The greatest number of actions of an edge.
pub const MOST_ACTIONS: usize = 1024;

/// How many actions of an edge are kept while it is walked: an edge with more than `MOST_ACTIONS` is refused, so what comes later
/// doesn't matter.
pub const KEPT: usize = MOST_ACTIONS + 1;

/// The greatest number of actions of all edges of a program together.
pub const MOST_ALL_ACTIONS: usize = 131_072;

/// The greatest number of checks of a program that has a flow.
pub const MOST_CHECKS: u32 = 1024;

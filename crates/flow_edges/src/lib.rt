//! A program's points, and the edges between them.
//!
//! `docs/MEANING.md` reads the definitions of `specs/` in order.
#![tactic(auto)]

mod build;
mod case;
mod checked;
mod completion;
mod count;
mod deed_walk;
mod edge;
mod edge_count;
mod edge_walk;
mod fault;
mod graph;
mod guard;
mod law;
mod limits;
mod listing;
mod loop_walk;
mod onward;
mod places;
mod point;
mod point_edges;
mod saturated;
mod trail;
mod wide;

pub use build::flow;
pub use case::{Case, Cases, CasesFault};
pub use checked::{CheckCases, Checks, checks};
pub use edge::{Action, Actions, Edge, Edges};
pub use fault::FlowFault;
pub use graph::Flow;
pub use law::{
    checks_are_on_edges, conditions_have_room, edges_are_in_range, edges_are_paths,
    points_are_numbered, steps_are_recorded, ways_are_steps, work_behind_points,
};
pub use limits::{KEPT, MOST_ACTIONS, MOST_ALL_ACTIONS, MOST_CHECKS, MOST_EDGES, MOST_POINTS};
pub use listing::cases;
pub use point::{Place, Point, Points};

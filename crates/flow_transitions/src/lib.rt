//! Transition systems: points, and edges with acts between them; their flow, and what bounds say of their runs.
//!
//! `docs/MEANING.md`, "Transition systems", reads the definitions of `specs/` in order.
#![tactic(auto)]

mod auto;
mod auto_edge;
mod build;
mod choices;
mod counting;
mod edges;
mod fault;
mod grouping;
mod law;
mod limits;
mod points;
mod reading;

pub use auto::Auto;
pub use auto_edge::{AutoEdge, AutoEdges};
pub use build::flow;
pub use fault::AutoFault;
pub use grouping::groups;
pub use law::{
    choices_are_acts, one_answer, one_grouping, post_solutions_hold_along, texts_are_read,
};
pub use reading::read;

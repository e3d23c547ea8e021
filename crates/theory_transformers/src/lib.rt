//! The exact transformer of an edge and a row, the joint problem of picked edges, and the parts that it is cut into.
#![tactic(auto)]

mod law;

pub use law::{
    joint_problems_decide, parts_are_ordered, transformers_are_local, transformers_are_reached,
    transformers_are_suprema,
};

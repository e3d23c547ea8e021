//! Where loops, labels and the end of a function stand in a text, and which variables are known there.
#![tactic(auto)]

mod anchor;
mod find;
mod goal;
mod laws;
mod part;
mod search;

pub use anchor::{Anchor, Known, What};
pub use find::anchors;
pub use laws::{
    anchors_are_points, anchors_stand, heads_are_walked, parameters_are_walked, scopes_are_walked,
};

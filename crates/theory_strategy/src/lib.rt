//! Picks, growth and rounds, for any transformers and joint outcomes that have their evidence.
#![tactic(auto)]

mod law;

pub use law::{fewer_rounds_than_picks, no_pick_twice, transformers_are_flat};

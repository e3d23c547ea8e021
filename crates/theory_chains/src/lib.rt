//! Chains of improvements by their meaning: the definitions, and the laws that follow from them alone.
#![tactic(auto)]

mod law;

pub use law::{chains_are_one, offers_are_one, policies_answer_one};

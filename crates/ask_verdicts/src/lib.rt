//! What bounds say of a condition at a place: at a point, or inside an edge.
#![tactic(auto)]

mod judge;
mod law;
mod lines;
mod outcome;

pub use judge::{capped, verdict};
pub use law::{
    breaking_states_have_values, open_states_break, proved_places_hold, refusals_are_one,
    verdicts_are_one,
};
pub use lines::{is_proved, push_counts, push_verdict};
pub use outcome::{Verdict, VerdictFault};

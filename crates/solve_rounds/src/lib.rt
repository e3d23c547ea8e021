//! Rounds of policy iteration: the growth of bounds, rounds over parts, and the least bounds that they end with; and that these
//! rounds are the chains of improvements that the definition means. What a round begins with, offers, policies and the
//! improvement of picks, is `solve_offers`.
#![tactic(auto)]

mod evaluation;
mod growing;
mod growth;
mod guessed;
mod halt;
mod law;
mod lows;
mod putting;
mod quiet_marks;
mod raised;
mod solution;
mod solving;
mod solving_by;
mod turning;
mod uppers;
mod waking;

pub use halt::Halt;
pub use law::{
    one_number, one_vector, policies_have_one_number, solutions_are_ends, spent_goes_on,
};
pub use solution::Solved;
pub use solving::least;
pub use solving_by::{least_by_best, least_by_first};

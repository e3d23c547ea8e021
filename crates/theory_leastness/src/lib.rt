//! What linear programming decides of post-solutions.
#![tactic(auto)]

mod law;

pub use law::post_solutions_below_all_are_least;

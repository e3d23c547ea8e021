//! The simplex method with Bland's rule in two phases, over any tableau.
#![tactic(auto)]

mod method;
mod outcome;
mod phase;
mod read;
mod scan;
mod step;

pub use lp_dictionary::{Coefficients, Problem, Row, Tableau};
pub use method::{solve, solve_watched};
pub use outcome::{Outcome, SolveFault};

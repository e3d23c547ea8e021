//! The rates and directions that are read from the ray of a joint problem.
#![tactic(auto)]

mod columns;
mod layout;
mod rate;
mod read;

pub use columns::Columns;
pub use layout::{Layout, Rise, Rises};
pub use rate::{RateList, RateOf, Rates};
pub use read::{entries, rates};

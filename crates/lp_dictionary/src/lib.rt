//! Dictionaries of linear problems over any ordered field of limited size, and the trait that a tableau meets.
#![tactic(auto)]

mod build;
mod coefficients;
mod dict;
mod entry;
mod formulas;
mod place;
mod problem;
mod rows;
mod shift;
mod sides;
mod tableau;

pub use build::{goal_count, names_from, other_names, signed};
pub use coefficients::Coefficients;
pub use dict::Dict;
pub use entry::{Entry, push_value};
pub use formulas::divided_by;
pub use place::{place_of, value_in};
pub use problem::{Problem, Row};
pub use shift::zero_place;
pub use sides::lowest_side;
pub use tableau::{PivotFault, Tableau};

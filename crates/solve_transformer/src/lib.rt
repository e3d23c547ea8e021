//! The transformers of a system's edges and rows.
//!
//! `docs/METHOD.md` reads the definitions of `specs/` in order.
#![tactic(auto)]

mod build;
mod law;
mod place;
mod read;
mod split;
mod tableaus;
mod transform;

pub use law::points_are_plain;
pub use place::{Placed, placed_value};
pub use solve_composition::{PathFault, Paths, Value, compose_all};
pub use split::{split_coeffs, split_row};
pub use transform::operator;

//! Equations whose right sides are maxima of a start and of minima of affine sums with coefficients at least 0: read from a text,
//! their systems, and their least solutions.
#![tactic(auto)]

mod build;
mod edges;
mod equation;
mod equations;
mod fault;
mod law;
mod limits;
mod reading;

pub use build::system;
pub use equation::{Alternative, Equation, Sum};
pub use equations::Equations;
pub use fault::EquFault;
pub use law::{
    at_most_one_least_above, least_above_equal_right_sides, least_vectors_are_least_above,
    texts_have_one_answer,
};
pub use limits::{MOST_ALTERNATIVES, MOST_EQUATIONS, MOST_SUMS};
pub use reading::read;

//! What the joint problem of a list answers.

use crate::point::Traces;
use flow_systems::Fracs;
use solve_ray::Rates;

/// The outcome of the joint problem of a list.
#[derive(Drop)]
pub enum Joined {
    /// The greatest vector that the picked edges support on the list: its number at each listed unknown, in order, and for each
    /// a trace along its picked edge that starts within the vector and has at least its number at the end.
    Point { to: Fracs, highs: Traces },
    /// There is no greatest one: the unknowns that grow without end.
    Ray(Rates),
}

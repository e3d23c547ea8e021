//! The master problem.

use crate::halt::Halt;
use crate::shaped::Shaped;
use base_fractions::{Frac, OrderedField};
use lp_simplex::{Coefficients, Outcome};
use lp_sparse::Sparse;
use std::alloc::Global;

/// Where a master problem ends: the greatest rises, or a ray along which all cuts allow the sum of the rises to grow.
#[derive(Drop)]
pub enum Furthest {
    Point(Vec<Frac>),
    Ray(Vec<Frac>),
}

/// The master problem of so many unknowns, without a cut: the greatest rises that all cuts so far allow, with one column for each
/// listed unknown, at least 0, one row for each cut, and the sum of the rises as goal. Each side will be above 0, so that it begins
/// with a dictionary that is feasible.
pub fn master(alloc: Global, unknowns: usize) -> Result<Shaped, Halt> {
    let mut goal = Coefficients::new(alloc);
    for _unknown in 0..unknowns {
        goal.push(Frac::one())?;
    }
    Shaped::new(alloc, goal)
}

/// Where it ends.
pub fn end_of(alloc: Global, master: &Shaped) -> Result<Furthest, Halt> {
    match master.outcome::<Sparse<Frac>>(alloc)? {
        Outcome::Best { point, .. } => Ok(Furthest::Point(point)),
        Outcome::Unbounded { ray, .. } => Ok(Furthest::Ray(ray)),
        Outcome::Empty { .. } => Err(Halt::GivenUp),
    }
}

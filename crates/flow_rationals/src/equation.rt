//! An equation, its alternatives and their sums.

use base_fractions::Frac;
use base_list::Sequence;
use lang_tree::{Coeffs, Name};

/// A sum of names times coefficients, and a constant, all over one denominator: the sum of each name's value times its
/// coefficient, and the constant, divided by `den`.
///
/// There is one coefficient for each equation, in order of the equations, and none is below 0; the denominator is at least 1.
#[derive(Drop)]
pub struct Sum {
    pub coeffs: Coeffs,
    pub constant: i64,
    pub den: i64,
}

/// The least of 1 to `MOST_SUMS` sums. A sum that stands alone is the least of one.
pub type Alternative = Sequence<Sum>;

/// An equation: the name's value is the greatest of the start and of the alternatives.
#[derive(Drop)]
pub struct Equation {
    pub name: Name,
    pub start: Frac,
    pub alternatives: Sequence<Alternative>,
}

//! Linear problems over the values of a field.
use crate::coefficients::Coefficients;
use base_fractions::OrderedField;

/// A row of a problem: its value is at most `side` where the sum of each coefficient times its column is.
#[derive(Drop)]
pub struct Row<F: OrderedField> {
    pub coeffs: Coefficients<F>,
    pub side: F,
}

/// Asks for the greatest value of `goal` over columns that are at least 0, with each row's value at most its side.
/// Each row has one coefficient for each entry of the goal. Coefficients that are zero take no memory.
#[derive(Drop)]
pub struct Problem<F: OrderedField> {
    pub rows: Vec<Row<F>>,
    pub goal: Coefficients<F>,
}

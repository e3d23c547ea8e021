//! Cuts: upper bounds of transformers that are affine in the rises of the listed unknowns.

use crate::columns::Columns;
use crate::halt::Halt;
use crate::reached::entry;
use crate::seen::Seen;
use base_fractions::{Frac, OrderedField};
use lp_simplex::{Coefficients, Row};
use std::alloc::{AllocError, Global};

// So many zeros, with a 1 at a place.
fn unit(alloc: Global, columns: usize, place: usize) -> Result<Vec<Frac>, AllocError> {
    let mut coeffs = vec![in alloc; Frac::zero(); columns]?;
    if place < columns {
        coeffs[place] = Frac::one();
    }
    Ok(coeffs)
}

// Takes a multiplier of a column to the left side, where the column's rise is already counted on the right, and gives the right
// side then.
fn lean(
    coeffs: &mut [Frac],
    side: Frac,
    column: usize,
    multiplier: Frac,
    rise: Frac,
) -> Result<Frac, Halt> {
    if column >= coeffs.len() {
        return Ok(side);
    }
    coeffs[column] = coeffs[column].minus(multiplier)?;
    Ok(side.add_product(multiplier.negate(), rise)?)
}

/// The cut of the unknown at a place of the list, as a row over the rises: its rise minus the sum of each multiplier times the
/// rise of its unknown is at most what this is where the transformer was seen, with the value's distance from the bound in place of
/// the rise. An unknown of the source that isn't listed stays, and so has no column.
pub fn cut(
    alloc: Global,
    columns: &Columns,
    rises: &[Frac],
    seen: &Seen,
    place: usize,
    distance: Frac,
    width: usize,
) -> Result<Row<Frac>, Halt> {
    let mut coeffs = unit(alloc, width, place)?;
    let mut side = distance;
    for (k, multiplier) in seen.multipliers.as_slice().iter().enumerate() {
        if let Some(column) = columns.at(seen.first.saturating_add(k)) {
            side = lean(&mut coeffs, side, column, *multiplier, entry(rises, column))?;
        }
    }
    let coeffs = Coefficients::of(alloc, &coeffs)?;
    Ok(Row { coeffs, side })
}

//! Whether a state fits a vector at a point.

ghost use Rattle.std.specs.Prelude.{◌≡◌, ◌*◌, ◌<◌, IsTrue, length};
ghost use Rattle.base_numbers.specs.Extended.{fin, ◌≤ᴱ◌};
ghost use Rattle.base_fractions.specs.Extended.{extended};
ghost use Rattle.lang_tree.specs.Numbers.{are_numbers};
ghost use Rattle.flow_systems.specs.States.{dotℚ};
ghost use Rattle.flow_systems.specs.Equations.{Fits};
ghost use Rattle.flow_systems.specs.View.{equations_of, vector_of};
ghost use Rattle.flow_systems.specs.FitTests.{row_test, fit_operations, TestAnswers};

use crate::bounds::Bounds;
use crate::sums::row_value;
use crate::system::System;
use base_fractions::{Ext, Frac, Wide};

// Whether the row's value at the state is at most the bound. An infinite bound needs no sum.
fn is_at_most(row: &[i64], state: &[Frac], bound: Ext) -> Result<bool, Wide<Frac>>
    requires numbers { IsTrue (are_numbers row.now) }
    requires size { length row.now ≡ length state.now }
    ensures { TestAnswers (fin (dotℚ row.now state.now) ≤ᴱ extended bound) (row_test row.now state.now (extended bound)) result }
{
    match bound {
        Ext::NegInf => Ok(false),
        Ext::PosInf => Ok(true),
        Ext::Fin(limit) => {
            let value = row_value(row, state)?;
            Ok(value <= limit)
        }
    }
}

/// Whether each row of the state, which has one value for each variable, is at most its bound at the point.
///
/// Rows are taken in order. One with the bound `-inf` fails and one with `+inf` passes, both without a sum. The value of
/// another is summed from the left, starting with 0: each product has the coefficient on its left and is then added.
///
/// # Errors
///
/// The first operation whose exact result has a part above the limit, exactly where there is one before a row fails.
/// Takes no memory.
pub fn fits(
    system: &System,
    bounds: &Bounds,
    point: u32,
    state: &[Frac],
) -> Result<bool, Wide<Frac>>
    requires bounds { length bounds.now ≡ length system.now.flow.points * length system.now.template }
    requires point { point < length system.now.flow.points }
    requires state { length state.now ≡ length system.now.flow.names }
    ensures { TestAnswers (Fits (equations_of system.now) (vector_of (length system.now.template) bounds.now) point state.now)
        (fit_operations system.now.template (vector_of (length system.now.template) bounds.now point) 0 state.now) result }
{
    let rows = system.template.as_slice();
    let first = point as usize * rows.len();
    for (i, row) in rows.iter().enumerate() {
        let bound = bounds.at((first + i) as u32);
        if !is_at_most(row.as_slice(), state, bound)? {
            return Ok(false);
        }
    }
    Ok(true)
}

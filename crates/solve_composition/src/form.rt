//! Rows and forms of a program over a state of forms.

ghost use Rattle.std.specs.Prelude.{◌≡◌, ◌<◌, List, IfOk, IsTrue, length, map, get_or};
ghost use Rattle.base_numbers.specs.Rational.{zero_ℚ};
ghost use Rattle.lang_tree.specs.Numbers.{are_numbers};
ghost use Rattle.lang_tree.specs.Limits.{has_numbers};
ghost use Rattle.theory_validity.specs.Words.{Affine as Formal, no_form, column, combined, composed};
ghost use Rattle.solve_composition.specs.Composed.{dense};
ghost use Rattle.solve_composition.specs.Operations.{row_composition, form_composition};
ghost use Rattle.solve_composition.specs.Faults.{Composes};
ghost use Rattle.solve_composition.specs.Walks.{IsState};

use crate::affine::Affine;
use crate::fault::FormFault;
use crate::sums::{column_sum, constant_sum};
use base_fractions::{Frac, OrderedField};
use flow_systems::{Fracs, fraction};
use lang_tree::Form;
use std::alloc::{AllocError, Global};

// The coefficient at a column of the form whose value is the column of this place.
fn unit_entry(at: usize, place: usize) -> Frac
    ensures { result ≡ get_or (column place).coeffs at zero_ℚ }
{
    if at == place {
        Frac::one()
    } else {
        Frac::zero()
    }
}

// The form of `width` columns whose value is one of them.
pub fn compose_column(alloc: Global, place: usize, width: usize) -> Result<Affine, AllocError>
    requires { place < width }
    ensures { IfOk result (λ f. f ≡ dense width (column place)) }
{
    let mut list = Vec::with_capacity(alloc, width)?;
    for at in 0..width {
        list.push(unit_entry(at, place))?;
    }
    Ok(Affine {
        coeffs: Fracs::new(list),
        constant: Frac::zero(),
    })
}

// The form of `width` columns whose value is 0.
pub fn compose_nothing(alloc: Global, width: usize) -> Result<Affine, AllocError>
    ensures { IfOk result (λ f. f ≡ dense width no_form) }
{
    let mut list = Vec::with_capacity(alloc, width)?;
    for _at in 0..width {
        list.push(Frac::zero())?;
    }
    Ok(Affine {
        coeffs: Fracs::new(list),
        constant: Frac::zero(),
    })
}

// A row over a state of forms.
pub fn compose_row(
    alloc: Global,
    row: &[i64],
    state: &[Affine],
    width: usize,
) -> Result<Affine, FormFault>
    requires numbers { IsTrue (are_numbers row.now) }
    requires state { IsState width state.now }
    ensures { (forms : List Formal) → state.now ≡ map (dense width) forms →
        Composes (dense width (combined row.now forms)) (row_composition width forms row.now) result }
{
    let mut list = Vec::with_capacity(alloc, width)?;
    for column in 0..width {
        list.push(column_sum(row, state, column)?)?;
    }
    let constant = constant_sum(row, state)?;
    Ok(Affine {
        coeffs: Fracs::new(list),
        constant,
    })
}

// A program's form over a state of forms.
pub fn compose_form(
    alloc: Global,
    form: &Form,
    state: &[Affine],
    width: usize,
) -> Result<Affine, FormFault>
    requires form { IsTrue (has_numbers form.now) }
    requires state { IsState width state.now }
    ensures { (forms : List Formal) → state.now ≡ map (dense width) forms →
        Composes (dense width (composed form.now forms)) (form_composition width forms form.now) result }
{
    let row = compose_row(alloc, form.coeffs.as_slice(), state, width)?;
    let constant = row.constant.plus(fraction(form.constant))?;
    Ok(Affine {
        coeffs: row.coeffs,
        constant,
    })
}

//! Signs before numbers, and indexes of elements.

ghost use Rattle.std.specs.Prelude.{◌≡◌, ℕ};
ghost use Rattle.source_core.specs.Forms.{opposite};
ghost use Rattle.source_core.specs.Elaborated.{Numbered as CoreNumber, form_behind, index_behind, ranged, is_held};
ghost use Rattle.source_value.specs.Answers.{Answers};
ghost use Rattle.source_core.specs.Fits.{fits, evaluated_fits};
ghost use Rattle.source_tree.specs.Extents.{extent_of};
ghost use Rattle.source_value.specs.Stands.{Stands, StandsNumber, StandsEvaluated};

use crate::conditions::{is_held, is_index};
use crate::fault::OperationFault;
use crate::forms::multiple;
use crate::site::Site;
use crate::truth::Truth;
use crate::value::{Evaluated, Number, Outcome, Value};
use base_integers::Integers;
use lang_tree::{Check, CheckKind};
use source_tree::Extent;
use std::alloc::Global;

/// `+` before a number.
pub fn positive(inner: Number) -> Value
    ensures { (n : ℕ) (a : CoreNumber) → StandsNumber n inner a → Stands n result (form_behind a.prelude a.next a.form) }
{
    Value {
        prelude: inner.prelude,
        result: Outcome::Form(inner.form),
        next: inner.next,
    }
}

/// `-` before a number, and behind it a check that the result is one of the integers; `sign` is the place of the sign.
pub fn negative(
    alloc: Global,
    site: Site,
    sign: u32,
    inner: Number,
) -> Result<Value, OperationFault>
    ensures { (a : CoreNumber) → StandsNumber site.variables inner a → Answers (Stands site.variables) fits result
        (ranged site.integers site.line sign is_held (form_behind a.prelude a.next (opposite a.form))) }
{
    let form = multiple(alloc, -1, &inner.form)?;
    match site.integers {
        Integers::Mathematical => Ok(Value {
            prelude: inner.prelude,
            result: Outcome::Form(form),
            next: inner.next,
        }),
        Integers::Machine(width) => {
            let holds = is_held(alloc, width, &form)?;
            let value = Value {
                prelude: inner.prelude,
                result: Outcome::Form(form),
                next: inner.next,
            };
            Ok(value.ranged(site, sign, holds)?)
        }
    }
}

/// An index within this extent, behind which stands a check that it is; `bracket` is the place of its bracket. What is compared has to be
/// in range.
pub fn indexed(
    alloc: Global,
    site: Site,
    extent: Extent,
    bracket: u32,
    index: Number,
) -> Result<Evaluated, OperationFault>
    ensures { (a : CoreNumber) → StandsNumber site.variables index a
        → Answers (StandsEvaluated site.variables) evaluated_fits result (index_behind site.line (extent_of extent) bracket a) }
{
    let condition = is_index(alloc, extent, &index.form)?;
    let truth = Truth::of(site, index.next, condition);
    let check = Check {
        kind: CheckKind::Index,
        at: bracket,
    };
    Ok(Evaluated {
        prelude: index.prelude.with_check(site, check, truth)?,
        next: index.next,
    })
}

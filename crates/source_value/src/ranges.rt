//! Checks that what is computed is one of the integers.

ghost use Rattle.std.specs.Prelude.{◌≡◌, ◌++◌, ◌∷◌, [], ℕ, negsuc, if◌then◌else◌, IfOk};
ghost use Rattle.std.specs.Ordering.{int_eq};
ghost use Rattle.lang_tree.specs.Tree.{Condition as Tree};
ghost use Rattle.lang_tree.specs.declared.check.CheckKind.TheVariants.{Range};
ghost use Rattle.source_core.specs.Forms.{opposite};
ghost use Rattle.source_core.specs.Elaborated.{Elaborated as Core, Result as CoreResult, has, is_held, operation_held, form_in, checked};
ghost use Rattle.source_core.specs.Fits.{condition_fits};
ghost use Rattle.source_value.specs.Answers.{Answers, IsCondition};
ghost use Rattle.source_value.specs.Stands.{Stands, kept_result};
ghost use Rattle.source_value.specs.Operations.{operation_of};

use crate::conditions::{is_divided, is_held, never};
use crate::fault::OperationFault;
use crate::forms::{is_constant, is_divisor, multiple, zero_form};
use crate::operation::Operation;
use crate::site::Site;
use crate::truth::Truth;
use crate::value::{Outcome, Value};
use base_integers::Width;
use lang_tree::{Check, CheckKind, Cond, Form};
use std::alloc::{AllocError, Global};

/// Whether the number is one of the integers of this width.
pub(crate) fn has(width: Width, number: i64) -> bool
    ensures { result ≡ has width number }
{
    let greatest = i64::from(width.greatest());
    -greatest - 1 <= number && number <= greatest
}

// The number is -1.
fn is_minus_one(number: i64) -> bool
    ensures { result ≡ int_eq number (negsuc 0) }
{
    number == -1
}

// When the remainder of a form by a number is one of the integers of this width: it is taken by a quotient, which has to be one, too.
fn remainder_held(
    alloc: Global,
    width: Width,
    left: &Form,
    divisor: i64,
    form: &Form,
) -> Result<Cond, OperationFault>
    ensures { Answers IsCondition condition_fits result
        (if int_eq divisor (negsuc 0) then is_held width (opposite left.now) else is_held width form.now) }
{
    if is_minus_one(divisor) {
        is_held(alloc, width, &multiple(alloc, -1, left)?)
    } else {
        is_held(alloc, width, form)
    }
}

// When the result of an operation on two forms is one of the integers of this width. Of a product of two forms nothing is known.
fn operation_held(
    alloc: Global,
    width: Width,
    operation: Operation,
    left: &Form,
    right: &Form,
    form: &Form,
) -> Result<Cond, OperationFault>
    ensures { Answers IsCondition condition_fits result
        (operation_held width (operation_of operation) left.now right.now form.now) }
{
    match operation {
        Operation::Plus => is_held(alloc, width, form),
        Operation::Minus => is_held(alloc, width, form),
        Operation::Times => {
            if is_constant(left) || is_constant(right) {
                is_held(alloc, width, form)
            } else {
                Ok(never(alloc))
            }
        }
        Operation::Over => {
            if is_divisor(right) {
                is_held(alloc, width, form)
            } else {
                is_divided(alloc, width, left, right)
            }
        }
        Operation::Remainder => {
            if is_divisor(right) {
                remainder_held(alloc, width, left, right.constant, form)
            } else {
                is_divided(alloc, width, left, right)
            }
        }
    }
}

/// When the result of an operation on two forms, which is a form, is one of the integers of this width.
pub(crate) fn result_held(
    alloc: Global,
    width: Width,
    operation: Operation,
    left: &Form,
    right: &Form,
    outcome: &Outcome,
) -> Result<Cond, OperationFault>
    ensures { (n h : ℕ) (r : CoreResult) → outcome.now ≡ kept_result n h r → Answers IsCondition condition_fits result
        (operation_held width (operation_of operation) left.now right.now (form_in r)) }
{
    match outcome {
        Outcome::Form(form) => operation_held(alloc, width, operation, left, right, form),
        _ => operation_held(alloc, width, operation, left, right, &zero_form(alloc)),
    }
}

impl Value {
    /// The value, with a check at this place behind it that it is one of the integers, which is so where the condition is true.
    pub(crate) fn ranged(self, site: Site, place: u32, holds: Cond) -> Result<Value, AllocError>
        ensures { IfOk result (λ value. (e : Core) (c : Tree) → Stands site.variables self e → IsCondition holds c
            → Stands site.variables value
            (record { prelude = e.prelude ++ checked site.line Range place c ∷ []; result = e.result; next = e.next })) }
    {
        let truth = Truth::of(site, self.next, holds);
        let check = Check {
            kind: CheckKind::Range,
            at: place,
        };
        Ok(Value {
            prelude: self.prelude.with_check(site, check, truth)?,
            result: self.result,
            next: self.next,
        })
    }
}

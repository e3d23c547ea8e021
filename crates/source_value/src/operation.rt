//! `+`, `-`, `*`, `/` and `%`.

ghost use Rattle.std.specs.Prelude.{◌≡◌, ◌≢◌, ◌≤◌, ◌++◌, pos, suc, true, IfOk};
ghost use Rattle.source_core.specs.Elaborated as core;
ghost use Rattle.source_core.specs.Elaborated.{Evaluated as CorePrelude, Numbered as CoreNumber, product, quotient_by, remainder_by};
ghost use Rattle.source_core.specs.Elaborated.{unless_zero, is_unit};
ghost use Rattle.source_value.specs.Answers.{Answers};
ghost use Rattle.source_core.specs.Fits.{fits, evaluated_fits};
ghost use Rattle.source_value.specs.Stands.{Stands, StandsNumber, StandsEvaluated};
ghost use Rattle.source_value.specs.Operations.{operation_of};

use crate::conditions::{Bound, bounded, divides};
use crate::fault::OperationFault;
use crate::forms::{
    constant_form, difference, is_constant, is_divisor, multiple, rest, sum, variable_form,
};
use crate::hidden::{behind, havocked, taken_where};
use crate::numbers::{quotient_of, remainder_of};
use crate::ranges::result_held;
use crate::site::Site;
use crate::truth::Truth;
use crate::value::{Evaluated, Number, Outcome, Value};
use base_integers::Integers;
use lang_tree::{Check, CheckKind, Form, Rel};
use std::alloc::{AllocError, Global};

/// What is done with two numbers.
#[derive(Clone, Copy, Debug, PartialEq, Eq)]
pub enum Operation {
    /// `+`
    Plus,
    /// `-`
    Minus,
    /// `*`
    Times,
    /// `/`
    Over,
    /// `%`
    Remainder,
}

// A form behind a prelude.
fn form_behind(before: Evaluated, form: Form) -> Value
    ensures prelude { result.prelude ≡ before.prelude }
    ensures result { result.result ≡ Outcome.Form form }
    ensures next { result.next ≡ before.next }
{
    Value {
        prelude: before.prelude,
        result: Outcome::Form(form),
        next: before.next,
    }
}

// Any value, behind a prelude, as that of a hidden variable.
fn hidden_behind(alloc: Global, site: Site, before: Evaluated) -> Result<Value, AllocError>
    ensures { IfOk result (λ value. (d : CorePrelude) → StandsEvaluated site.variables before d
        → Stands site.variables value (core.havocked site.integers site.line d.prelude d.next)) }
{
    let number = havocked(alloc, site, before)?;
    Ok(Value {
        prelude: number.prelude,
        result: Outcome::Form(number.form),
        next: number.next,
    })
}

// A product: a multiple where one side is constant, and otherwise any number.
fn product(
    alloc: Global,
    site: Site,
    before: Evaluated,
    left: &Form,
    right: &Form,
) -> Result<Value, OperationFault>
    ensures { (d : CorePrelude) → StandsEvaluated site.variables before d
        → Answers (Stands site.variables) fits result (product site.integers site.line d.prelude d.next left.now right.now) }
{
    if is_constant(left) {
        Ok(form_behind(before, multiple(alloc, left.constant, right)?))
    } else if is_constant(right) {
        Ok(form_behind(before, multiple(alloc, right.constant, left)?))
    } else {
        Ok(hidden_behind(alloc, site, before)?)
    }
}

// The number is 1 or -1.
fn is_unit(number: i64) -> bool
    ensures { result ≡ is_unit number }
{
    number == 1 || number == -1
}

// A hidden variable is the quotient of the form by the divisor.
fn quotient_behind(
    alloc: Global,
    site: Site,
    before: Evaluated,
    form: &Form,
    divisor: i64,
) -> Result<Evaluated, OperationFault>
    ensures { (d : CorePrelude) → StandsEvaluated site.variables before d
        → Answers (StandsEvaluated site.variables) evaluated_fits result
        (record { prelude = core.quotient_behind site.line d.prelude d.next form.now divisor; next = suc d.next }) }
{
    let condition = divides(alloc, form, divisor, before.next)?;
    let condition = Truth::of(site, behind(before.next)?, condition);
    Ok(taken_where(site, before, condition)?)
}

// A quotient by a number other than 0: exact by 1 and -1 and of a constant, and otherwise that of a hidden variable.
fn quotient_by(
    alloc: Global,
    site: Site,
    before: Evaluated,
    form: &Form,
    divisor: i64,
) -> Result<Value, OperationFault>
    requires { divisor ≢ pos 0 }
    ensures { (d : CorePrelude) → StandsEvaluated site.variables before d
        → Answers (Stands site.variables) fits result (quotient_by site.line d.prelude d.next form.now divisor) }
{
    if is_unit(divisor) {
        Ok(form_behind(before, multiple(alloc, divisor, form)?))
    } else if is_constant(form) {
        let quotient = quotient_of(form.constant, divisor);
        Ok(form_behind(before, constant_form(alloc, quotient)?))
    } else {
        let hidden = variable_form(alloc, before.next)?;
        let after = quotient_behind(alloc, site, before, form, divisor)?;
        Ok(form_behind(after, hidden))
    }
}

// A remainder by a number other than 0: exact by 1 and -1 and of a constant, and otherwise what a hidden quotient leaves of the form.
fn remainder_by(
    alloc: Global,
    site: Site,
    before: Evaluated,
    form: &Form,
    divisor: i64,
) -> Result<Value, OperationFault>
    requires { divisor ≢ pos 0 }
    ensures { (d : CorePrelude) → StandsEvaluated site.variables before d
        → Answers (Stands site.variables) fits result (remainder_by site.line d.prelude d.next form.now divisor) }
{
    if is_unit(divisor) {
        Ok(form_behind(before, constant_form(alloc, 0)?))
    } else if is_constant(form) {
        let remainder = remainder_of(form.constant, divisor);
        Ok(form_behind(before, constant_form(alloc, remainder)?))
    } else {
        let hidden = variable_form(alloc, before.next)?;
        let left = rest(alloc, form, divisor, &hidden)?;
        let after = quotient_behind(alloc, site, before, form, divisor)?;
        Ok(form_behind(after, left))
    }
}

// Any number, behind a check that the divisor isn't 0.
fn unless_zero(
    alloc: Global,
    site: Site,
    sign: u32,
    before: Evaluated,
    divisor: &Form,
) -> Result<Value, OperationFault>
    ensures { (d : CorePrelude) → StandsEvaluated site.variables before d
        → Answers (Stands site.variables) fits result (unless_zero site.integers site.line d.prelude d.next sign divisor.now) }
{
    let not_zero = bounded(
        divisor,
        Bound {
            rel: Rel::Ne,
            number: 0,
        },
    )?;
    let truth = Truth::of(site, before.next, not_zero);
    let check = Check {
        kind: CheckKind::Divisor,
        at: sign,
    };
    let before = Evaluated {
        prelude: before.prelude.with_check(site, check, truth)?,
        next: before.next,
    };
    Ok(hidden_behind(alloc, site, before)?)
}

// An operation on two forms behind their preludes.
fn operated_behind(
    alloc: Global,
    site: Site,
    operation: Operation,
    sign: u32,
    before: Evaluated,
    left: &Form,
    right: &Form,
) -> Result<Value, OperationFault>
    ensures { (d : CorePrelude) → StandsEvaluated site.variables before d
        → Answers (Stands site.variables) fits result
        (core.operated site.integers site.line (operation_of operation) sign d.prelude d.next left.now right.now) }
{
    match operation {
        Operation::Plus => Ok(form_behind(before, sum(alloc, left, right)?)),
        Operation::Minus => Ok(form_behind(before, difference(alloc, left, right)?)),
        Operation::Times => product(alloc, site, before, left, right),
        Operation::Over => {
            if is_divisor(right) {
                quotient_by(alloc, site, before, left, right.constant)
            } else {
                unless_zero(alloc, site, sign, before, right)
            }
        }
        Operation::Remainder => {
            if is_divisor(right) {
                remainder_by(alloc, site, before, left, right.constant)
            } else {
                unless_zero(alloc, site, sign, before, right)
            }
        }
    }
}

// An operation on two forms behind their preludes, with a check behind it that its result is one of the integers.
fn operation_behind(
    alloc: Global,
    site: Site,
    operation: Operation,
    sign: u32,
    before: Evaluated,
    left: &Form,
    right: &Form,
) -> Result<Value, OperationFault>
    ensures { (d : CorePrelude) → StandsEvaluated site.variables before d
        → Answers (Stands site.variables) fits result
        (core.operation_on site.integers site.line (operation_of operation) sign d.prelude d.next left.now right.now) }
{
    let value = operated_behind(alloc, site, operation, sign, before, left, right)?;
    match site.integers {
        Integers::Mathematical => Ok(value),
        Integers::Machine(width) => {
            let holds = result_held(alloc, width, operation, left, right, &value.result)?;
            Ok(value.ranged(site, sign, holds)?)
        }
    }
}

/// An operation on two numbers, the right one read behind the left one; `sign` is the place of its sign. The result has to be in range, and
/// behind it stands a check that it is one of the integers.
pub fn operated(
    alloc: Global,
    site: Site,
    operation: Operation,
    sign: u32,
    left: Number,
    right: Number,
) -> Result<Value, OperationFault>
    ensures { (a b : CoreNumber) → a.next ≤ b.next → StandsNumber site.variables left a → StandsNumber site.variables right b
        → Answers (Stands site.variables) fits result
        (core.operation_on site.integers site.line (operation_of operation) sign (a.prelude ++ b.prelude) b.next a.form b.form) }
{
    let before = Evaluated {
        prelude: left.prelude.joined(right.prelude)?,
        next: right.next,
    };
    operation_behind(
        alloc,
        site,
        operation,
        sign,
        before,
        &left.form,
        &right.form,
    )
}

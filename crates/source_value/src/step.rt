//! Steps of variables: `x++`, `x--`, `++x` and `--x` as operands.

ghost use Rattle.std.specs.Prelude.{◌≡◌, ◌≤ℤ◌, [], pos, negsuc, IfOk};
ghost use Rattle.source_core.specs.Forms.{constant_form, variable_form, plus};
ghost use Rattle.source_core.specs.Elaborated.{form_behind, is_held, ranged, step_form, step_behind};
ghost use Rattle.source_value.specs.Answers.{IsForm};
ghost use Rattle.source_value.specs.Stands.{Stands};
ghost use Rattle.source_value.specs.Steps.{direction_of, moment_of, stepped_form};

use crate::forms::variable_form;
use crate::hidden::always_held;
use crate::prelude::Prelude;
use crate::site::Site;
use crate::value::{Outcome, Value};
use base_integers::Integers;
use lang_tree::Form;
use std::alloc::{AllocError, Global};

/// Where a step of a variable goes.
#[derive(Clone, Copy, Debug, PartialEq, Eq)]
pub enum Direction {
    /// `++`
    Up,
    /// `--`
    Down,
}

/// Where the sign of a step stands.
#[derive(Clone, Copy, Debug, PartialEq, Eq)]
pub enum Moment {
    /// Before the name: the value is what the variable has behind the step.
    Before,
    /// Behind the name: the value is what the variable had before the step.
    Behind,
}

/// A step of the variable with the number `var`; `sign` is the place of its sign.
#[derive(Clone, Copy)]
pub struct Step {
    pub direction: Direction,
    pub moment: Moment,
    pub var: u32,
    pub sign: u32,
}

// The variable and this number more, -1 or 1.
fn variable_and(alloc: Global, var: u32, number: i64) -> Result<Form, AllocError>
    requires low { negsuc 0 ≤ℤ number }
    requires high { number ≤ℤ pos 1 }
    ensures { IfOk result (λ form. IsForm form (plus (variable_form var) (constant_form number))) }
{
    let form = variable_form(alloc, var)?;
    Ok(Form {
        coeffs: form.coeffs,
        constant: number,
    })
}

// What the variable has behind the step.
fn stepped_form(alloc: Global, step: Step) -> Result<Form, AllocError>
    ensures { IfOk result (λ form. IsForm form (stepped_form (direction_of step.direction) step.var)) }
{
    match step.direction {
        Direction::Up => variable_and(alloc, step.var, 1),
        Direction::Down => variable_and(alloc, step.var, -1),
    }
}

// The value of the step, told by what the variable has behind it.
fn step_form(alloc: Global, step: Step) -> Result<Form, AllocError>
    ensures { IfOk result (λ form. IsForm form (step_form (direction_of step.direction) (moment_of step.moment) step.var)) }
{
    match step.moment {
        Moment::Before => variable_form(alloc, step.var),
        Moment::Behind => match step.direction {
            Direction::Up => variable_and(alloc, step.var, -1),
            Direction::Down => variable_and(alloc, step.var, 1),
        },
    }
}

// The value of the step behind the check that what the variable takes is one of the integers.
fn step_checked(
    alloc: Global,
    site: Site,
    step: Step,
    next: u32,
    taken: &Form,
) -> Result<Value, AllocError>
    requires { taken.now ≡ stepped_form (direction_of step.direction) step.var }
    ensures { IfOk result (λ value. Stands site.variables value
        (ranged site.integers site.line step.sign (λ width f. is_held width (stepped_form (direction_of step.direction) step.var))
        (form_behind [] next (step_form (direction_of step.direction) (moment_of step.moment) step.var)))) }
{
    let value = Value {
        prelude: Prelude::none(alloc, site, next),
        result: Outcome::Form(step_form(alloc, step)?),
        next,
    };
    match site.integers {
        Integers::Mathematical => Ok(value),
        Integers::Machine(width) => {
            let holds = always_held(alloc, width, taken)?;
            Ok(value.ranged(site, step.sign, holds)?)
        }
    }
}

/// A step of a variable, where `next` is the next hidden variable: the variable takes 1 more or 1 less, behind a check that this is one of
/// the integers. No number of it is too large.
pub fn stepped(alloc: Global, site: Site, step: Step, next: u32) -> Result<Value, AllocError>
    ensures { IfOk result (λ value. Stands site.variables value
        (step_behind site.integers site.line (direction_of step.direction) (moment_of step.moment) step.var step.sign next)) }
{
    let taken = stepped_form(alloc, step)?;
    let value = step_checked(alloc, site, step, next, &taken)?;
    Ok(Value {
        prelude: value.prelude.with_set(site, step.var, taken)?,
        result: value.result,
        next: value.next,
    })
}

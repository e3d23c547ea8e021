//! Values: what stands for an expression that was read.

ghost use Rattle.std.specs.Prelude.{◌≡◌, ◌≤◌, ◌++◌, [], ℕ, IfOk};
ghost use Rattle.source_core.specs.Forms.{variable_form};
ghost use Rattle.source_core.specs.Elaborated.{Elaborated as Core, Evaluated as CorePrelude, any, form_behind, number_at, numbered, tested};
ghost use Rattle.source_core.specs.Fits.{fits, tested_fits};
ghost use Rattle.source_value.specs.Answers.{Answers};
ghost use Rattle.source_value.specs.Stands.{Stands, StandsNumber, StandsTested, StandsEvaluated};

use crate::conditions::{compare, is_held};
use crate::fault::OperationFault;
use crate::forms::{constant_form, variable_form};
use crate::hidden::{havocked, truth_number};
use crate::prelude::Prelude;
use crate::ranges::has;
use crate::site::Site;
use crate::truth::Truth;
use base_integers::Integers;
use lang_tree::{Cond, Form, Rel};
use std::alloc::{AllocError, Global};

/// What an expression is: a number, a truth, or any number.
#[derive(Drop)]
pub enum Outcome {
    Form(Form),
    Truth(Truth),
    Any,
}

/// An expression: what it is behind its prelude, and the next hidden variable. Past a limit of its statement the prelude and the truths
/// aren't kept, and the rest is still exact (`specs/Stands.antt`).
#[derive(Drop)]
pub struct Value {
    pub prelude: Prelude,
    pub result: Outcome,
    pub next: u32,
}

/// An operand as a number.
#[derive(Drop)]
pub struct Number {
    pub prelude: Prelude,
    pub form: Form,
    pub next: u32,
}

/// An operand as a condition.
#[derive(Drop)]
pub struct Tested {
    pub prelude: Prelude,
    pub condition: Truth,
    pub next: u32,
}

/// Expressions that are evaluated, without use of their values.
#[derive(Drop)]
pub struct Evaluated {
    pub prelude: Prelude,
    pub next: u32,
}

impl Value {
    /// A number of the text, or a constant's, at this place, where `next` is the next hidden variable. Behind one that is none of the
    /// integers stands a check.
    pub fn number(
        alloc: Global,
        site: Site,
        next: u32,
        number: i64,
        at: u32,
    ) -> Result<Value, OperationFault>
        ensures { Answers (Stands site.variables) fits result (number_at site.integers site.line number at next) }
    {
        let value = Value {
            prelude: Prelude::none(alloc, site, next),
            result: Outcome::Form(constant_form(alloc, number as i128)?),
            next,
        };
        match site.integers {
            Integers::Mathematical => Ok(value),
            Integers::Machine(width) => {
                if has(width, number) {
                    Ok(value)
                } else {
                    let holds = is_held(alloc, width, &constant_form(alloc, number as i128)?)?;
                    Ok(value.ranged(site, at, holds)?)
                }
            }
        }
    }

    /// The variable with the number `var`, where `next` is the next hidden variable.
    pub fn variable(alloc: Global, site: Site, next: u32, var: u32) -> Result<Value, AllocError>
        ensures { IfOk result (λ value. Stands site.variables value (form_behind [] next (variable_form var))) }
    {
        Ok(Value {
            prelude: Prelude::none(alloc, site, next),
            result: Outcome::Form(variable_form(alloc, var)?),
            next,
        })
    }

    /// Any value, where `next` is the next hidden variable.
    pub fn any(alloc: Global, site: Site, next: u32) -> Value
        ensures { Stands site.variables result (record { prelude = []; result = any; next = next }) }
    {
        Value {
            prelude: Prelude::none(alloc, site, next),
            result: Outcome::Any,
            next,
        }
    }

    /// The value as a number: a truth is 1 or 0, and any value is that of a hidden variable.
    pub fn into_number(self, alloc: Global, site: Site) -> Result<Number, AllocError>
        ensures { IfOk result (λ number. (e : Core) → Stands site.variables self e
            → StandsNumber site.variables number (numbered site.integers site.line e)) }
    {
        let Value {
            prelude,
            result,
            next,
        } = self;
        match result {
            Outcome::Form(form) => Ok(Number {
                prelude,
                form,
                next,
            }),
            Outcome::Truth(condition) => {
                truth_number(alloc, site, Evaluated { prelude, next }, condition)
            }
            Outcome::Any => havocked(alloc, site, Evaluated { prelude, next }),
        }
    }

    /// The value as a condition: a number is true where it isn't 0, and any value may be either. The number has to be in the range of what
    /// may be compared.
    pub fn into_condition(self, site: Site) -> Result<Tested, OperationFault>
        ensures { (e : Core) → Stands site.variables self e → Answers (StandsTested site.variables) tested_fits result (tested e) }
    {
        let Value {
            prelude,
            result,
            next,
        } = self;
        let condition = match result {
            Outcome::Form(form) => Truth::of(site, next, compare(Rel::Ne, form)?),
            Outcome::Truth(condition) => condition,
            Outcome::Any => Truth::of(site, next, Cond::Free),
        };
        Ok(Tested {
            prelude,
            condition,
            next,
        })
    }
}

impl Evaluated {
    /// No expressions, where `next` is the next hidden variable.
    pub fn none(alloc: Global, site: Site, next: u32) -> Evaluated
        ensures { StandsEvaluated site.variables result (record { prelude = []; next = next }) }
    {
        Evaluated {
            prelude: Prelude::none(alloc, site, next),
            next,
        }
    }

    /// One expression more, read behind these.
    pub fn with(self, value: Value) -> Result<Evaluated, AllocError>
        ensures { IfOk result (λ all. (n : ℕ) (d : CorePrelude) (e : Core) → d.next ≤ e.next → StandsEvaluated n self d
            → Stands n value e → StandsEvaluated n all (record { prelude = d.prelude ++ e.prelude; next = e.next })) }
    {
        Ok(Evaluated {
            prelude: self.prelude.joined(value.prelude)?,
            next: value.next,
        })
    }

    /// What was evaluated, and then what was evaluated behind it.
    pub fn joined(self, later: Evaluated) -> Result<Evaluated, AllocError>
        ensures { IfOk result (λ all. (n : ℕ) (d e : CorePrelude) → d.next ≤ e.next → StandsEvaluated n self d
            → StandsEvaluated n later e → StandsEvaluated n all (record { prelude = d.prelude ++ e.prelude; next = e.next })) }
    {
        Ok(Evaluated {
            prelude: self.prelude.joined(later.prelude)?,
            next: later.next,
        })
    }

    /// The value of a call with these arguments, or of an element with these indexes: any.
    pub fn into_any(self) -> Value
        ensures { (n : ℕ) (d : CorePrelude) → StandsEvaluated n self d
            → Stands n result (record { prelude = d.prelude; result = any; next = d.next }) }
    {
        Value {
            prelude: self.prelude,
            result: Outcome::Any,
            next: self.next,
        }
    }
}

//! Hidden variables that are taken.

ghost use Rattle.std.specs.Prelude.{◌≡◌, ◌≤◌, ◌≤ℤ◌, ◌+◌, ◌++◌, ◌∷◌, [], pos, true, suc, ℕ, IfOk};
ghost use Rattle.lang_tree.specs.Tree.{Condition as Tree, negation, both, either, havocs, wheres};
ghost use Rattle.lang_tree.specs.DeedView.{condition_of, deeds_of};
ghost use Rattle.source_core.specs.Forms.{constant_form, variable_form};
ghost use Rattle.source_core.specs.Elaborated.{Evaluated as CorePrelude, related, any, a_truth, as_number, held, is_held};
ghost use Rattle.source_core.specs.Core.{taken_any};
ghost use Rattle.source_value.specs.Answers.{IsCondition};
ghost use Rattle.source_core.specs.Fits.{condition_fits};
ghost use Rattle.source_value.specs.Kept.{kept_condition};
ghost use Rattle.source_value.specs.Stands.{StandsNumber, StandsEvaluated};

use crate::conditions::is_held;
use crate::fault::OperationFault;
use crate::forms::variable_form;
use crate::site::Site;
use crate::truth::Truth;
use crate::value::{Evaluated, Number};
use base_integers::{Integers, Width};
use lang_tree::{Cond, Deed, Form, Rel};
use std::alloc::{AllocError, Global};

/// The hidden variable behind this one. A form of the last number that the code has would need more memory than there is.
pub(crate) fn behind(hidden: u32) -> Result<u32, AllocError>
    ensures { IfOk result (λ next. next ≡ hidden + 1) }
{
    match hidden.checked_add(1) {
        Some(next) => Ok(next),
        None => Err(AllocError),
    }
}

/// The prelude, and then the next hidden variable takes any value.
pub(crate) fn taken(site: Site, before: Evaluated) -> Result<Evaluated, AllocError>
    ensures { IfOk result (λ after. (d : CorePrelude) → StandsEvaluated site.variables before d → StandsEvaluated site.variables after
        (record { prelude = d.prelude ++ havocs d.next site.line ∷ []; next = suc d.next })) }
{
    let next = behind(before.next)?;
    Ok(Evaluated {
        prelude: before.prelude.with_havoc(site, before.next, next)?,
        next,
    })
}

/// The prelude, and then the next hidden variable takes any value for which the condition may be true.
pub(crate) fn taken_where(
    site: Site,
    before: Evaluated,
    condition: Truth,
) -> Result<Evaluated, AllocError>
    ensures { IfOk result (λ after. (d : CorePrelude) (c : Tree) → StandsEvaluated site.variables before d → condition_fits c ≡ true
        → condition ≡ kept_condition site.variables (suc d.next) c → StandsEvaluated site.variables after
        (record { prelude = d.prelude ++ havocs d.next site.line ∷ wheres c site.line ∷ []; next = suc d.next })) }
{
    let after = taken(site, before)?;
    Ok(Evaluated {
        prelude: after.prelude.with_where(site, condition)?,
        next: after.next,
    })
}

/// The form is one of the integers of this width, where what is compared isn't too large.
pub(crate) fn always_held(alloc: Global, width: Width, form: &Form) -> Result<Cond, AllocError>
    requires { condition_fits (is_held width form.now) ≡ true }
    ensures { IfOk result (λ cond. IsCondition cond (is_held width form.now)) }
{
    match is_held(alloc, width, form) {
        Ok(cond) => Ok(cond),
        Err(OperationFault::NoMemory) => Err(AllocError),
        Err(OperationFault::Big) => unreachable!(),
    }
}

// The variable is one of the integers of this width. What is compared is never too large.
fn variable_held(alloc: Global, width: Width, var: u32) -> Result<Cond, AllocError>
    ensures { IfOk result (λ cond. IsCondition cond (is_held width (variable_form var))) }
{
    let form = variable_form(alloc, var)?;
    always_held(alloc, width, &form)
}

// The prelude, and then a variable that took any value has one of the integers.
fn held(alloc: Global, site: Site, before: Evaluated, var: u32) -> Result<Evaluated, AllocError>
    ensures { IfOk result (λ after. (d : CorePrelude) → StandsEvaluated site.variables before d → StandsEvaluated site.variables after
        (record { prelude = d.prelude ++ held site.integers site.line var; next = d.next })) }
{
    match site.integers {
        Integers::Mathematical => Ok(before),
        Integers::Machine(width) => {
            let truth = Truth::of(site, before.next, variable_held(alloc, width, var)?);
            Ok(Evaluated {
                prelude: before.prelude.with_where(site, truth)?,
                next: before.next,
            })
        }
    }
}

/// The variable takes any of the integers, as a declaration without a value and a parameter do.
pub fn declared(alloc: Global, site: Site, var: u32) -> Result<Vec<Deed>, AllocError>
    ensures { IfOk result (λ deeds. deeds_of deeds.items ≡ taken_any site.integers var site.line) }
{
    let mut deeds = Vec::new(alloc);
    deeds.push(Deed::Havoc {
        var,
        line: site.line,
    })?;
    match site.integers {
        Integers::Mathematical => Ok(deeds),
        Integers::Machine(width) => {
            deeds.push(Deed::Where {
                cond: variable_held(alloc, width, var)?,
                line: site.line,
            })?;
            Ok(deeds)
        }
    }
}

impl Evaluated {
    /// What was evaluated, and then the variable takes any of the integers.
    pub fn with_any(self, alloc: Global, site: Site, var: u32) -> Result<Evaluated, AllocError>
        ensures { IfOk result (λ after. (d : CorePrelude) → StandsEvaluated site.variables self d → StandsEvaluated site.variables after
            (record { prelude = d.prelude ++ taken_any site.integers var site.line; next = d.next })) }
    {
        let taken = Evaluated {
            prelude: self.prelude.with_havoc(site, var, self.next)?,
            next: self.next,
        };
        Ok(held(alloc, site, taken, var)?)
    }
}

/// Any value, behind a prelude, as that of a hidden variable.
pub(crate) fn havocked(alloc: Global, site: Site, before: Evaluated) -> Result<Number, AllocError>
    ensures { IfOk result (λ number. (d : CorePrelude) → StandsEvaluated site.variables before d
        → StandsNumber site.variables number (as_number site.integers site.line d.prelude d.next any)) }
{
    let hidden = before.next;
    let form = variable_form(alloc, hidden)?;
    let after = held(alloc, site, taken(site, before)?, hidden)?;
    Ok(Number {
        prelude: after.prelude,
        form,
        next: after.next,
    })
}

// The variable is this number, 0 or 1.
fn variable_is(alloc: Global, var: u32, number: i64) -> Result<Cond, AllocError>
    requires low { pos 0 ≤ℤ number }
    requires high { number ≤ℤ pos 1 }
    ensures { IfOk result (λ cond. IsCondition cond (related Rel.Eq (variable_form var) (constant_form number))) }
{
    let form = variable_form(alloc, var)?;
    Ok(Cond::Cmp(
        Rel::Eq,
        Form {
            coeffs: form.coeffs,
            constant: -number,
        },
    ))
}

/// "Either the condition and the first, or not the condition and the second", where `next` is the next hidden variable.
pub(crate) fn one_of(
    alloc: Global,
    site: Site,
    next: u32,
    condition: Truth,
    first: Cond,
    second: Cond,
) -> Result<Truth, AllocError>
    ensures { IfOk result (λ truth. (h : ℕ) (c : Tree) → h ≤ next → condition ≡ kept_condition site.variables h c
        → truth ≡ kept_condition site.variables next (either (both c (condition_of first)) (both (negation c) (condition_of second)))) }
{
    let other = condition.again(alloc)?.inverse(alloc)?;
    let first = Truth::of(site, next, first);
    let second = Truth::of(site, next, second);
    let yes = Truth::both(alloc, site, next, condition, first)?;
    let no = Truth::both(alloc, site, next, other, second)?;
    Ok(Truth::either(alloc, site, next, yes, no)?)
}

/// A truth, behind a prelude, as a number: a hidden variable is 1 where it is true, and 0 where it is false.
pub(crate) fn truth_number(
    alloc: Global,
    site: Site,
    before: Evaluated,
    condition: Truth,
) -> Result<Number, AllocError>
    ensures { IfOk result (λ number. (d : CorePrelude) (c : Tree) → StandsEvaluated site.variables before d → condition_fits c ≡ true
        → condition ≡ kept_condition site.variables d.next c
        → StandsNumber site.variables number (as_number site.integers site.line d.prelude d.next (a_truth c))) }
{
    let hidden = before.next;
    let is_one = variable_is(alloc, hidden, 1)?;
    let is_zero = variable_is(alloc, hidden, 0)?;
    let selected = one_of(alloc, site, behind(hidden)?, condition, is_one, is_zero)?;
    let after = taken_where(site, before, selected)?;
    Ok(Number {
        prelude: after.prelude,
        form: variable_form(alloc, hidden)?,
        next: after.next,
    })
}

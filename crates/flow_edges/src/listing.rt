//! The cases of a condition.

ghost use Rattle.std.specs.Prelude.{◌≡◌, ◌↔◌, ◌<◌, ◌++◌, [], ◌∷◌, IfOk, OnOk, IsTrue, IsErrOf, length, map, min, true};
ghost use Rattle.lang_tree.specs.View.{condition_of};
ghost use Rattle.lang_tree.specs.Cases.{cases_of, comparison_cases, crossed};
ghost use Rattle.flow_edges.specs.Constants.{has_room, have_room};

use crate::case::{Case, Cases, CasesFault};
use crate::guard::{negated, plus_one};
use crate::saturated::{ENOUGH, product, sum};
use lang_tree::{Cond, Form, Rel};
use std::alloc::{AllocError, Global};

/// The greatest number of cases that a condition may have.
pub(crate) const MOST_CASES: u32 = 64;

/// The cases of the condition for this truth: it may have this truth exactly where all forms of one of them are at most 0.
///
/// The fault `TooMany` comes exactly where there are more than 64. The lists are in `docs/MEANING.md`, "Cases".
pub fn cases(alloc: Global, cond: &Cond, truth: bool) -> Result<Cases, CasesFault>
    requires { IsTrue (have_room (condition_of cond.now)) }
    ensures ok { IfOk result (λ cases. cases ≡ cases_of truth (condition_of cond.now)) }
    ensures too_many { IsErrOf result CasesFault.TooMany ↔ (64 < length (cases_of truth (condition_of cond.now))) }
{
    if case_count(cond, truth) > MOST_CASES {
        return Err(CasesFault::TooMany);
    }
    let list = list_cases(alloc, cond, truth)?;
    Ok(list)
}

/// The number of the condition's cases for this truth, counted up to `ENOUGH`. Nothing is built.
pub(crate) fn case_count(cond: &Cond, truth: bool) -> u32
    ensures { result ≡ min (length (cases_of truth (condition_of cond.now))) ENOUGH }
{
    match cond {
        Cond::Free => 1,
        Cond::Cmp(rel, _) => comparison_count(*rel, truth),
        Cond::Not(inner) => case_count(inner, !truth),
        Cond::Both(first, second) => {
            let a = case_count(first, truth);
            let b = case_count(second, truth);
            if truth { product(a, b) } else { sum(a, b) }
        }
        Cond::Either(first, second) => {
            let a = case_count(first, truth);
            let b = case_count(second, truth);
            if truth { sum(a, b) } else { product(a, b) }
        }
    }
}

/// The number of cases of a comparison.
fn comparison_count(rel: Rel, truth: bool) -> u32
    ensures { (form : _) → result ≡ length (comparison_cases truth rel form) }
{
    match asked(rel, truth) {
        Rel::Ne => 2,
        _ => 1,
    }
}

/// The relation that holds where this one has this truth.
fn asked(rel: Rel, truth: bool) -> Rel
    ensures { (form : _) → comparison_cases true result form ≡ comparison_cases truth rel form }
{
    if truth {
        return rel;
    }
    match rel {
        Rel::Eq => Rel::Ne,
        Rel::Ne => Rel::Eq,
        Rel::Lt => Rel::Ge,
        Rel::Le => Rel::Gt,
        Rel::Gt => Rel::Le,
        Rel::Ge => Rel::Lt,
    }
}

/// All cases of the condition for this truth.
#[cycle(listing)]
pub(crate) fn list_cases(alloc: Global, cond: &Cond, truth: bool) -> Result<Cases, AllocError>
    requires { IsTrue (have_room (condition_of cond.now)) }
    ensures { IfOk result (λ cases. cases ≡ cases_of truth (condition_of cond.now)) }
{
    let mut list = Vec::new(alloc);
    add_cases(alloc, &mut list, cond, truth)?;
    Ok(Cases::new(list))
}

/// Adds the cases of the condition for this truth.
#[cycle(listing)]
fn add_cases(
    alloc: Global,
    list: &mut Vec<Case>,
    cond: &Cond,
    truth: bool,
) -> Result<(), AllocError>
    requires { IsTrue (have_room (condition_of cond.now)) }
    ensures { OnOk result (list.new.items ≡ list.old.items ++ cases_of truth (condition_of cond.now)) }
{
    match cond {
        Cond::Free => {
            list.push(Case::new(Vec::new(alloc)))?;
            Ok(())
        }
        Cond::Cmp(rel, form) => add_comparison(alloc, list, asked(*rel, truth), form),
        Cond::Not(inner) => add_cases(alloc, list, inner, !truth),
        Cond::Both(first, second) => {
            if truth {
                let before = list_cases(alloc, first, truth)?;
                let after = list_cases(alloc, second, truth)?;
                add_crossed(alloc, list, before.as_slice(), after.as_slice())
            } else {
                add_cases(alloc, list, first, truth)?;
                add_cases(alloc, list, second, truth)
            }
        }
        Cond::Either(one, other) => {
            if truth {
                add_cases(alloc, list, one, truth)?;
                add_cases(alloc, list, other, truth)
            } else {
                let before = list_cases(alloc, one, truth)?;
                let after = list_cases(alloc, other, truth)?;
                add_crossed(alloc, list, before.as_slice(), after.as_slice())
            }
        }
    }
}

/// Adds the cases in which the form is so related to 0.
fn add_comparison(
    alloc: Global,
    list: &mut Vec<Case>,
    rel: Rel,
    form: &Form,
) -> Result<(), AllocError>
    requires { IsTrue (has_room form.now) }
    ensures { OnOk result (list.new.items ≡ list.old.items ++ comparison_cases true rel form.now) }
{
    match rel {
        Rel::Lt => add_guard(alloc, list, plus_one(form.again()?)),
        Rel::Le => add_guard(alloc, list, form.again()?),
        Rel::Gt => add_guard(alloc, list, plus_one(negated(alloc, form)?)),
        Rel::Ge => add_guard(alloc, list, negated(alloc, form)?),
        Rel::Eq => {
            let mut guards = Vec::new(alloc);
            guards.push(form.again()?)?;
            guards.push(negated(alloc, form)?)?;
            list.push(Case::new(guards))?;
            Ok(())
        }
        Rel::Ne => {
            add_guard(alloc, list, plus_one(form.again()?))?;
            add_guard(alloc, list, plus_one(negated(alloc, form)?))
        }
    }
}

/// Adds a case of one guard.
fn add_guard(alloc: Global, list: &mut Vec<Case>, guard: Form) -> Result<(), AllocError>
    ensures { OnOk result (list.new.items ≡ list.old.items ++ (guard ∷ []) ∷ []) }
{
    let mut guards = Vec::new(alloc);
    guards.push(guard)?;
    list.push(Case::new(guards))?;
    Ok(())
}

/// Adds each case of the first list followed by each of the second.
fn add_crossed(
    alloc: Global,
    list: &mut Vec<Case>,
    first: &[Case],
    second: &[Case],
) -> Result<(), AllocError>
    ensures { OnOk result (list.new.items ≡ list.old.items ++ crossed first.now second.now) }
{
    for before in first {
        add_followed(alloc, list, before, second)?;
    }
    Ok(())
}

/// Adds the case followed by each of the others.
fn add_followed(
    alloc: Global,
    list: &mut Vec<Case>,
    before: &Case,
    others: &[Case],
) -> Result<(), AllocError>
    ensures { OnOk result (list.new.items ≡ list.old.items ++ map (λ after. before.now ++ after) others.now) }
{
    for after in others {
        let mut guards = Vec::new(alloc);
        add_forms(&mut guards, before.as_slice())?;
        add_forms(&mut guards, after.as_slice())?;
        list.push(Case::new(guards))?;
    }
    Ok(())
}

/// Adds the forms once more.
fn add_forms(list: &mut Vec<Form>, forms: &[Form]) -> Result<(), AllocError>
    ensures { OnOk result (list.new.items ≡ list.old.items ++ forms.now) }
{
    for form in forms {
        list.push(form.again()?)?;
    }
    Ok(())
}

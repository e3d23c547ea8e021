//! What acts record by one choice of cases.

ghost use Rattle.std.specs.Prelude.{◌≡◌, ◌<◌, ◌≤◌, ◌++◌, [], ◌∷◌, IfOk, IsTrue, OnOk, length, slice_index_or, true};
ghost use Rattle.lang_tree.specs.View.{statement_of, statements_of};
ghost use Rattle.flow_edges.specs.Constants.{has_rooms, have_room, have_rooms};
ghost use Rattle.lang_tree.specs.Cases.{cases_of};
ghost use Rattle.lang_tree.specs.View.{condition_of};
ghost use Rattle.flow_edges.specs.Steps.{guards};
ghost use Rattle.flow_edges.specs.Trails.{kept};
ghost use Rattle.flow_edges.specs.declared.limits.TheConstants.{KEPT};
ghost use Rattle.flow_transitions.specs.Choices.{choices_in, choices_of};

use crate::counting::choice_count;
use flow_edges::{Action, Actions, Cases, KEPT, cases};
use lang_tree::{Cond, Form, Stmt};
use std::alloc::{AllocError, Global};

/// The actions that acts record by the choice of this number, as many as are kept of a program's edge, which are more than an edge may have
/// here. There are `count` choices.
pub(crate) fn chosen(
    alloc: Global,
    acts: &[Stmt],
    count: u32,
    number: u32,
) -> Result<Actions, AllocError>
    requires room { IsTrue (have_rooms (statements_of acts.now)) }
    requires count { count ≡ length (choices_in (statements_of acts.now)) }
    requires number { number < count }
    ensures { IfOk result (λ actions. actions ≡ kept (slice_index_or (choices_in (statements_of acts.now)) number [])) }
{
    let mut actions = Vec::new(alloc);
    let mut left = count;
    let mut number = number;
    for act in acts {
        left /= few_choices(alloc, act)?;
        add_choice(alloc, &mut actions, act, number / left)?;
        number %= left;
    }
    Ok(Actions::new(actions))
}

/// The number of an act's choices, which is known to be small.
fn few_choices(alloc: Global, act: &Stmt) -> Result<u32, AllocError>
    requires { IsTrue (has_rooms (statement_of act.now)) }
    ensures { IfOk result (λ n. n ≡ length (choices_of (statement_of act.now))) }
{
    match choice_count(alloc, act) {
        Ok(count) => Ok(count),
        Err(_) => Err(AllocError),
    }
}

/// Adds what the act records by the choice of this number.
fn add_choice(
    alloc: Global,
    actions: &mut Vec<Action>,
    act: &Stmt,
    number: u32,
) -> Result<(), AllocError>
    requires room { IsTrue (has_rooms (statement_of act.now)) }
    requires number { number < length (choices_of (statement_of act.now)) }
    requires short { length actions.old.items ≤ KEPT }
    ensures { OnOk result (actions.new.items ≡ kept (actions.old.items ++ slice_index_or (choices_of (statement_of act.now)) number [])) }
{
    match act {
        Stmt::Set { var, form, .. } => {
            let form = form.again()?;
            add(actions, Action::Assign { var: *var, form })
        }
        Stmt::Havoc { var, .. } => add(actions, Action::Havoc { var: *var }),
        Stmt::Assume { cond, .. } => {
            let list = few_cases(alloc, cond)?;
            add_guards(actions, list.as_slice()[number as usize].as_slice())
        }
        _ => unreachable!(),
    }
}

/// The cases in which a condition may be true, which are known to be few.
fn few_cases(alloc: Global, cond: &Cond) -> Result<Cases, AllocError>
    requires { IsTrue (have_room (condition_of cond.now)) }
    ensures { IfOk result (λ list. list ≡ cases_of true (condition_of cond.now)) }
{
    match cases(alloc, cond, true) {
        Ok(list) => Ok(list),
        Err(_) => Err(AllocError),
    }
}

/// Adds the guards, as many as are kept.
fn add_guards(actions: &mut Vec<Action>, forms: &[Form]) -> Result<(), AllocError>
    requires { length actions.old.items ≤ KEPT }
    ensures { OnOk result (actions.new.items ≡ kept (actions.old.items ++ guards forms.now)) }
{
    for form in forms {
        add(actions, Action::Guard(form.again()?))?;
    }
    Ok(())
}

/// Adds the action, where one more is kept.
fn add(actions: &mut Vec<Action>, action: Action) -> Result<(), AllocError>
    requires { length actions.old.items ≤ KEPT }
    ensures { OnOk result (actions.new.items ≡ kept (actions.old.items ++ action ∷ [])) }
{
    if actions.len() < KEPT {
        actions.push(action)?;
    }
    Ok(())
}

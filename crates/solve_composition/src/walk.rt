//! The actions of an edge over a state of forms.

ghost use Rattle.std.specs.Prelude.{◌≡◌, ◌≤◌, ◌<◌, ◌+◌, ◌^◌, List, [], ◌∷◌, IfOk, OnOk, IsTrue, length, map};
ghost use Rattle.std.specs.List.{list_all};
ghost use Rattle.lang_tree.specs.Meaning.{put};
ghost use Rattle.flow_edges.specs.declared.limits.TheConstants.{MOST_ACTIONS};
ghost use Rattle.theory_validity.specs.Words.{Affine as Formal, columns, free_count, no_form};
ghost use Rattle.solve_composition.specs.Composed.{dense};
ghost use Rattle.solve_composition.specs.Walks.{IsState, StepComposes, WalkComposes, acts_by_numbers};

use crate::affine::{Affine, Affines};
use crate::fault::FormFault;
use crate::form::{compose_column, compose_form, compose_nothing};
use flow_edges::Action;
use std::alloc::{AllocError, Global};

// How many free assignments there are.
pub fn count_frees(actions: &[Action]) -> u32
    requires { length actions.now ≤ MOST_ACTIONS }
    ensures count { result ≡ free_count actions.now }
    ensures few { result ≤ MOST_ACTIONS }
{
    let mut count = 0;
    for action in actions {
        if let Action::Havoc { .. } = action {
            count += 1;
        }
    }
    count
}

// The start variables as forms of `width` columns.
pub fn start_state(alloc: Global, variables: usize, width: usize) -> Result<Vec<Affine>, AllocError>
    requires { variables ≤ width }
    ensures { IfOk result (λ state. state.items ≡ map (dense width) (columns variables)) }
{
    let mut state = Vec::with_capacity(alloc, variables)?;
    for variable in 0..variables {
        state.push(compose_column(alloc, variable, width)?)?;
    }
    Ok(state)
}

// Puts a form at a variable. Variables before it that the state lacks get the form 0.
fn put(
    alloc: Global,
    state: &mut Vec<Affine>,
    variable: usize,
    form: Affine,
    width: usize,
) -> Result<(), AllocError>
    requires { variable < 2 ^ 32 }
    ensures { OnOk result (state.new.items ≡ put (dense width no_form) state.old.items variable form) }
{
    for _added in state.len()..variable + 1 {
        state.push(compose_nothing(alloc, width)?)?;
    }
    state[variable] = form;
    Ok(())
}

// Takes one action: the next free column after it. A guard is put behind the others.
fn step(
    alloc: Global,
    action: &Action,
    state: &mut Vec<Affine>,
    guards: &mut Vec<Affine>,
    next: usize,
    width: usize,
) -> Result<usize, FormFault>
    requires action { IsTrue (acts_by_numbers action.now) }
    requires next { next + free_count (action.now ∷ []) ≤ width }
    requires state { IsState width state.old.items }
    ensures { (forms : List Formal) → state.old.items ≡ map (dense width) forms →
        StepComposes width next forms action.now guards.old.items state.new.items guards.new.items result }
{
    match action {
        Action::Guard(form) => {
            guards.push(compose_form(alloc, form, state.as_slice(), width)?)?;
            Ok(next)
        }
        Action::Assign { var, form } => {
            let value = compose_form(alloc, form, state.as_slice(), width)?;
            put(alloc, state, *var as usize, value, width)?;
            Ok(next)
        }
        Action::Havoc { var } => {
            let value = compose_column(alloc, next, width)?;
            put(alloc, state, *var as usize, value, width)?;
            Ok(next + 1)
        }
        Action::Check(_) => Ok(next),
    }
}

// Takes all actions in order, and gives their guards.
pub fn walk(
    alloc: Global,
    actions: &[Action],
    state: &mut Vec<Affine>,
    width: usize,
) -> Result<Affines, FormFault>
    requires actions { IsTrue (list_all acts_by_numbers actions.now) }
    requires width { width ≡ length state.old.items + free_count actions.now }
    requires state { IsState width state.old.items }
    ensures { (forms : List Formal) → state.old.items ≡ map (dense width) forms
        → WalkComposes width (length state.old.items) forms actions.now state.new.items result }
{
    let mut guards = Vec::new(alloc);
    let mut next = state.len();
    for action in actions {
        next = step(alloc, action, state, &mut guards, next, width)?;
    }
    Ok(Affines::new(guards))
}

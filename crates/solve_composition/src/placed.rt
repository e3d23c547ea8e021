//! The composed forms at a place inside an edge.

ghost use Rattle.std.specs.Prelude.{◌≡◌, ◌≤◌, ◌+◌, ◌++◌, List, IsTrue, length, map, flat_map};
ghost use Rattle.std.specs.List.{list_all};
ghost use Rattle.flow_edges.specs.FlowLimits.{is_action};
ghost use Rattle.lang_tree.specs.Limits.{is_form, has_numbers};
ghost use Rattle.theory_validity.specs.Words.{Affine as Formal, composed};
ghost use Rattle.solve_composition.specs.Composed.{dense};
ghost use Rattle.solve_composition.specs.Operations.{form_composition};
ghost use Rattle.solve_composition.specs.Behind.{placed_forms, placed_composition};
ghost use Rattle.flow_systems.specs.Faults.{AnswersBy};
ghost use Rattle.solve_composition.specs.Faults.{Composes};
ghost use Rattle.solve_composition.specs.Walks.{IsState};
ghost use Rattle.flow_edges.specs.declared.limits.TheConstants.{MOST_ACTIONS};
ghost use Rattle.lang_tree.specs.declared.limits.TheConstants.{MOST_VARIABLES, MOST_HIDDEN};

use crate::affine::{Affine, Affines};
use crate::fault::FormFault;
use crate::form::compose_form;
use crate::walk::{count_frees, start_state, walk};
use flow_edges::Action;
use lang_tree::Form;
use std::alloc::Global;

/// The composed forms at a place: the number of free values before it, the guards of the actions before it and then those that
/// are tested there, and the variables there, hidden ones up to the last that has been given a value.
#[derive(Drop)]
pub struct PlacedForms {
    pub frees: u32,
    pub guards: Affines,
    pub ends: Affines,
}

// Puts the composed guards behind others.
fn add_guards(
    alloc: Global,
    guards: &[Form],
    state: &[Affine],
    width: usize,
    list: &mut Vec<Affine>,
) -> Result<(), FormFault>
    requires guards { IsTrue (list_all has_numbers guards.now) }
    requires state { IsState width state.now }
    ensures { (forms : List Formal) → state.now ≡ map (dense width) forms →
        AnswersBy (λ _. list.new.items ≡ list.old.items ++ map (λ guard. dense width (composed guard forms)) guards.now)
        (flat_map (form_composition width forms) guards.now) result }
{
    for guard in guards {
        list.push(compose_form(alloc, guard, state, width)?)?;
    }
    Ok(())
}

/// The composed forms at a place behind actions, over so many variables and hidden ones behind them, where guards are tested. Actions
/// and guards are composed in order, as along an edge.
///
/// # Errors
///
/// `Wide` exactly where an operation of the composition is too wide for a fraction, with the first.
pub fn compose_placed(
    alloc: Global,
    variables: usize,
    before: &[Action],
    guards: &[Form],
) -> Result<PlacedForms, FormFault>
    requires few { length before.now ≤ MOST_ACTIONS }
    requires variables { variables ≤ MOST_VARIABLES }
    requires before { IsTrue (list_all (is_action (variables + MOST_HIDDEN)) before.now) }
    requires guards { IsTrue (list_all (is_form (variables + MOST_HIDDEN)) guards.now) }
    ensures { Composes (placed_forms variables before.now guards.now) (placed_composition variables before.now guards.now) result }
{
    let frees = count_frees(before);
    let width = variables + frees as usize;
    let mut state = start_state(alloc, variables, width)?;
    let walked = walk(alloc, before, &mut state, width)?;
    let mut list = walked.into_list();
    add_guards(alloc, guards, state.as_slice(), width, &mut list)?;
    Ok(PlacedForms {
        frees,
        guards: Affines::new(list),
        ends: Affines::new(state),
    })
}

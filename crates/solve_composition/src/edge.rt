//! The composed forms of one edge.

ghost use Rattle.std.specs.Prelude.{◌≡◌, ◌≤◌, ◌+◌, List, IsTrue, length, map, flat_map};
ghost use Rattle.std.specs.List.{list_all};
ghost use Rattle.flow_edges.specs.FlowLimits.{is_action};
ghost use Rattle.theory_validity.specs.Words.{Affine as Formal, combined};
ghost use Rattle.solve_composition.specs.Composed.{dense, edge_forms};
ghost use Rattle.solve_composition.specs.Operations.{row_composition, edge_composition};
ghost use Rattle.solve_composition.specs.Faults.{Composes};
ghost use Rattle.solve_composition.specs.Walks.{IsState};
ghost use Rattle.flow_edges.specs.declared.limits.TheConstants.{MOST_ACTIONS};
ghost use Rattle.lang_tree.specs.declared.limits.TheConstants.{MOST_VARIABLES, MOST_HIDDEN};

use crate::affine::{Affine, Affines};
use crate::fault::FormFault;
use crate::form::compose_row;
use crate::paths::Path;
use crate::walk::{count_frees, start_state, walk};
use flow_edges::Action;
use lang_tree::Coeffs;
use std::alloc::Global;

// The rows of a template over a state of forms.
fn compose_rows(
    alloc: Global,
    template: &[Coeffs],
    state: &[Affine],
    width: usize,
) -> Result<Affines, FormFault>
    requires state { IsState width state.now }
    ensures { (forms : List Formal) → state.now ≡ map (dense width) forms →
        Composes (map (λ row. dense width (combined row forms)) template.now) (flat_map (row_composition width forms) template.now) result }
{
    let mut rows = Vec::with_capacity(alloc, template.len())?;
    for row in template {
        rows.push(compose_row(alloc, row.as_slice(), state, width)?)?;
    }
    Ok(Affines::new(rows))
}

// The composed forms of actions.
pub fn compose_edge(
    alloc: Global,
    variables: usize,
    template: &[Coeffs],
    actions: &[Action],
) -> Result<Path, FormFault>
    requires few { length actions.now ≤ MOST_ACTIONS }
    requires variables { variables ≤ MOST_VARIABLES }
    requires actions { IsTrue (list_all (is_action (variables + MOST_HIDDEN)) actions.now) }
    ensures { Composes (edge_forms variables template.now actions.now) (edge_composition variables template.now actions.now) result }
{
    let frees = count_frees(actions);
    let width = variables + frees as usize;
    let mut state = start_state(alloc, variables, width)?;
    let guards = walk(alloc, actions, &mut state, width)?;
    let rows = compose_rows(alloc, template, state.as_slice(), width)?;
    Ok(Path {
        frees,
        guards,
        rows,
    })
}

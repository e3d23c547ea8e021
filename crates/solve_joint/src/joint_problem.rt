//! The joint problem of a list of unknowns.

ghost use Rattle.std.specs.Prelude.{◌≡◌, ◌+◌, ◌*◌, ◌<◌, ◌≤◌, ◌++◌, ℕ, [], None, IfOk, OnOk, IfErr, length, map, get_or};
ghost use Rattle.base_numbers.specs.Vector.{zeros};
ghost use Rattle.base_fractions.specs.Fits.{long_limit};
ghost use Rattle.base_fractions.specs.Operation.{first_wide};
ghost use Rattle.flow_systems.specs.View.{equations_of};
ghost use Rattle.theory_transformers.specs.JointProblems.{ones};
ghost use Rattle.solve_composition.specs.Composed.{AreComposed};
ghost use Rattle.solve_joint.specs.Numbers.{ArePicked, Rises};
ghost use Rattle.solve_joint.specs.Rows.{IsSideFault};
ghost use Rattle.solve_joint.specs.Blocks.{side_operations, split_columns};
ghost use Rattle.solve_joint.specs.Problems.{problem_of, MakeProblem};
ghost use Rattle.solve_joint.specs.Sizes.{cells_in, entries_of};
ghost use Rattle.flow_systems.specs.declared.limits.TheConstants.{MOST_UNKNOWNS};
ghost use Rattle.flow_edges.specs.declared.limits.TheConstants.{MOST_ACTIONS};
ghost use Rattle.lang_tree.specs.declared.limits.TheConstants.{MOST_VARIABLES};

use crate::based::Based;
use crate::joint_rows::{all_rows, count_columns};
use base_fractions::{Frac, OrderedField};
use flow_systems::{Bounds, PartFault, Pick, System};
use lp_simplex::{Coefficients, Problem};
use solve_composition::Paths;
use std::alloc::{AllocError, Global};

// The sum of the rises: 1 for each unknown, and 0 for the columns behind them.
fn goal(alloc: Global, unknowns: usize, more: usize) -> Result<Coefficients<Frac>, AllocError>
    ensures { IfOk result (λ v. v ≡ ones unknowns ++ zeros more) }
{
    let mut goal = Coefficients::new(alloc);
    for _unknown in 0..unknowns {
        goal.push(Frac::one())?;
    }
    goal.push_zeros(more)?;
    Ok(goal)
}

/// The joint problem of a rising list of unknowns, each with a picked edge, at a base. The columns are first a rise for each
/// listed unknown, and then, for each in order, the split columns of its picked edge. Each listed unknown in order gives the
/// template rows of its edge's source whose bound is finite, then the guards, and last its own row: the rise minus the end
/// value, at most the end value's constant minus the bound. The goal is the sum of the rises.
///
/// # Errors
///
/// `Wide` in the part `Side` exactly where such a difference is wide, with the first of them in the order of the list.
/// `NoMemory`.
pub fn joint_problem(
    alloc: Global,
    system: &System,
    paths: &Paths,
    base: &Bounds,
    pick: &Pick,
    list: &[u32],
) -> Result<Problem<Frac>, PartFault>
    requires composed { AreComposed (equations_of system.now) paths.now }
    requires base { length base.now ≡ length system.now.flow.points * length system.now.template }
    requires pick { length pick.now ≡ length system.now.flow.points * length system.now.template }
    requires rises { Rises 0 list.now }
    requires picked { ArePicked system.now pick.now list.now }
    ensures problem { IfOk result (λ p. MakeProblem (problem_of system.now pick.now base.now list.now)
        (map (λ r. r.coeffs) p.rows.items)
        (map (λ r. r.side) p.rows.items) p.goal) }
    ensures shape { IfOk result (λ p. (r : ℕ) → r < length (map (λ r. r.coeffs) p.rows.items) →
        length (get_or (map (λ r. r.coeffs) p.rows.items) r []) ≡ length p.goal) }
    ensures few { IfOk result (λ p. length p.rows.items + length p.goal < 4294967295) }
    ensures cells { IfOk result (λ p. entries_of (map (λ r. r.coeffs) p.rows.items) p.goal ≤ cells_in system.now pick.now list.now) }
    ensures columns { OnOk result (length list.now + split_columns system.now pick.now list.now
        ≤ MOST_UNKNOWNS * (2 * MOST_VARIABLES + 2 * MOST_ACTIONS + 1)) }
    ensures sides { OnOk result (first_wide long_limit (side_operations system.now pick.now base.now list.now) ≡ None) }
    ensures refused { IfErr result (λ f. IsSideFault (side_operations system.now pick.now base.now list.now) f) }
{
    let at = Based {
        system,
        paths,
        base,
    };
    let cols = count_columns(system, paths, pick, list);
    let rows = all_rows(alloc, &at, pick, list, cols)?;
    let goal = goal(alloc, list.len(), cols - list.len())?;
    Ok(Problem { rows, goal })
}

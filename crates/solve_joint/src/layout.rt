//! Where the columns of a joint problem stand.

ghost use Rattle.std.specs.Prelude.{◌≡◌, ◌+◌, ◌*◌, ◌<◌, ◌≤◌, ◌^◌, IfOk, length};
ghost use Rattle.flow_systems.specs.View.{equations_of};
ghost use Rattle.solve_composition.specs.Composed.{AreComposed};
ghost use Rattle.solve_joint.specs.Numbers.{ArePicked};
ghost use Rattle.solve_joint.specs.Blocks.{edge_at, split_columns};
ghost use Rattle.solve_joint.specs.Layouts.{columns_from, layout_of};
ghost use Rattle.flow_systems.specs.declared.limits.TheConstants.{MOST_UNKNOWNS};
ghost use Rattle.flow_edges.specs.declared.limits.TheConstants.{MOST_ACTIONS};
ghost use Rattle.lang_tree.specs.declared.limits.TheConstants.{MOST_VARIABLES};

use crate::problem::{picked_edge, word_width};
use flow_systems::{Pick, System};
use solve_composition::Paths;
use solve_ray::{Columns, Rise};
use std::alloc::{AllocError, Global};

// So many columns from a first one on, two apart.
fn columns(alloc: Global, first: usize, count: usize) -> Result<Columns, AllocError>
    requires { first + (count + count) < 4294967296 }
    ensures { IfOk result (λ c. c ≡ columns_from first count) }
{
    let mut list = Vec::with_capacity(alloc, count)?;
    for i in 0..count {
        list.push((first + i + i) as u32)?;
    }
    Ok(Columns::new(list))
}

/// The columns of the unknowns of a list, in order.
pub fn layout(
    alloc: Global,
    system: &System,
    paths: &Paths,
    pick: &Pick,
    list: &[u32],
) -> Result<Vec<Rise>, AllocError>
    requires composed { AreComposed (equations_of system.now) paths.now }
    requires pick { length pick.now ≡ length system.now.flow.points * length system.now.template }
    requires picked { ArePicked system.now pick.now list.now }
    requires few { length list.now + split_columns system.now pick.now list.now
        ≤ MOST_UNKNOWNS * (2 * MOST_VARIABLES + 2 * MOST_ACTIONS + 1) }
    ensures { IfOk result (λ v. v.items ≡ layout_of system.now pick.now list.now) }
{
    let names = system.flow.names.as_slice().len();
    let mut rises = Vec::with_capacity(alloc, list.len())?;
    let mut offset = 0;
    for (place, unknown) in list.iter().enumerate() {
        let width = word_width(system, paths, picked_edge(pick, *unknown));
        let first = list.len() + offset;
        let starts = columns(alloc, first, names)?;
        let frees = columns(alloc, first + names + names, width - names)?;
        rises.push(Rise {
            unknown: *unknown,
            col: place as u32,
            starts,
            frees,
        })?;
        offset += width + width;
    }
    Ok(rises)
}

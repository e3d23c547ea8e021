//! Listed unknowns with the point at which they stand and the point from which their picked edge comes.

ghost use Rattle.std.specs.Prelude.{◌≡◌, ◌*◌, ◌<◌, IfOk, length};
ghost use Rattle.solve_joint.specs.Numbers.{IsPicked, ArePicked, source_of, nodes_of};

use flow_systems::{Pick, System};
use std::alloc::{AllocError, Global};

/// An unknown of a list: its number, its point, and the source of its picked edge.
#[derive(Clone, Copy)]
pub struct Node {
    pub unknown: u32,
    pub point: u32,
    pub source: u32,
}

// The point from which the picked edge of an unknown comes.
fn source(system: &System, pick: &Pick, unknown: u32) -> u32
    requires pick { length pick.now ≡ length system.now.flow.points * length system.now.template }
    requires picked { IsPicked system.now pick.now unknown }
    ensures { result ≡ source_of system.now pick.now unknown }
{
    let edges = system.flow.edges.as_slice();
    match pick.at(unknown) {
        Some(edge) => edges[edge as usize].from,
        None => 0,
    }
}

/// The unknowns of a list, in order.
pub fn nodes(
    alloc: Global,
    system: &System,
    pick: &Pick,
    list: &[u32],
) -> Result<Vec<Node>, AllocError>
    requires pick { length pick.now ≡ length system.now.flow.points * length system.now.template }
    requires picked { ArePicked system.now pick.now list.now }
    ensures { IfOk result (λ v. v.items ≡ nodes_of system.now pick.now list.now) }
{
    let rows = system.template.as_slice().len() as u32;
    let mut nodes = Vec::with_capacity(alloc, list.len())?;
    for unknown in list {
        nodes.push(Node {
            unknown: *unknown,
            point: *unknown / rows,
            source: source(system, pick, *unknown),
        })?;
    }
    Ok(nodes)
}

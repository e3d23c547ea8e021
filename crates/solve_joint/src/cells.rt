//! How large the joint problem of a list can be.

ghost use Rattle.std.specs.Prelude.{◌≡◌, ◌*◌, ◌<◌, ◌≤◌, length};
ghost use Rattle.flow_systems.specs.Cells.{most_block_cells};
ghost use Rattle.flow_systems.specs.View.{equations_of};
ghost use Rattle.solve_composition.specs.Composed.{AreComposed};
ghost use Rattle.solve_joint.specs.Numbers.{ArePicked, Rises};
ghost use Rattle.solve_joint.specs.Sizes.{cells_in, edge_cells};

use crate::problem::picked_edge;
use flow_systems::{Pick, System};
use solve_composition::Paths;

// How many entries the block of a listed unknown has at most that differ from 0, by its picked edge.
fn edge_cells(system: &System, paths: &Paths, edge: u32) -> u64
    requires composed { AreComposed (equations_of system.now) paths.now }
    requires edge { edge < length system.now.flow.edges }
    ensures cells { result ≡ edge_cells system.now edge }
    ensures few { result ≤ most_block_cells }
{
    system.block_cells(paths.guards(edge), paths.frees(edge))
}

/// How many entries the joint problem of a rising list of unknowns has at most that differ from 0, each with a picked edge, whatever the
/// bounds are: the sum over the list of those of its blocks. Nothing is built for it.
pub fn joint_cells(system: &System, paths: &Paths, pick: &Pick, list: &[u32]) -> u64
    requires composed { AreComposed (equations_of system.now) paths.now }
    requires pick { length pick.now ≡ length system.now.flow.points * length system.now.template }
    requires rises { Rises 0 list.now }
    requires picked { ArePicked system.now pick.now list.now }
    ensures { result ≡ cells_in system.now pick.now list.now }
{
    let mut cells = 0;
    for unknown in list {
        cells += edge_cells(system, paths, picked_edge(pick, *unknown));
    }
    cells
}

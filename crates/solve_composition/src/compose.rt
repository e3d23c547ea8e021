//! The composition of all edges of a system.

ghost use Rattle.std.specs.Prelude.{◌≡◌, ◌<◌, ◌^◌, IfOk, IfErr, None};
ghost use Rattle.flow_systems.specs.View.{equations_of};
ghost use Rattle.solve_composition.specs.Composed.{AreComposed};
ghost use Rattle.solve_composition.specs.Operations.{wide_composition};
ghost use Rattle.solve_composition.specs.Faults.{IsPathFault};
ghost use Rattle.solve_composition.specs.Walks.{IsFaultAt};

use crate::edge::compose_edge;
use crate::fault::{FormFault, PathFault};
use crate::paths::Paths;
use flow_systems::{Site, Spot, System};
use std::alloc::Global;

// Why the edge of this number isn't composed.
fn at_edge(edge: usize, fault: FormFault) -> PathFault
    requires { edge < 2 ^ 32 }
    ensures { IsFaultAt edge fault result }
{
    match fault {
        FormFault::Wide(wide) => PathFault::Wide(Spot {
            round: 0,
            site: Site::Compose { edge: edge as u32 },
            wide,
        }),
        FormFault::NoMemory => PathFault::NoMemory,
    }
}

/// The composed forms of all edges of a system. Each start variable and each free value of an edge is a column; a guard or an
/// assignment is composed where it stands, the end value of each row of the template at last.
///
/// A form over the forms so far gives for each column in order the sum from the left of each coefficient times the column's
/// coefficient in that variable, starting with 0: the product first, with the program's coefficient on its left, and then the
/// addition, with the sum on its left. The like sum for the constant follows, and then the form's own constant is added.
///
/// # Errors
///
/// `Wide` exactly where an operation of the composition is too wide for a fraction: the first in the first edge that has one,
/// in round 0 and at the site of that edge.
pub fn compose_all(alloc: Global, system: &System) -> Result<Paths, PathFault>
    ensures composed { IfOk result (λ paths. AreComposed (equations_of system.now) paths) }
    ensures fits { IfOk result (λ paths. wide_composition (equations_of system.now) ≡ None) }
    ensures refused { IfErr result (λ fault. IsPathFault (equations_of system.now) fault) }
{
    let variables = system.flow.names.as_slice().len();
    let template = system.template.as_slice();
    let edges = system.flow.edges.as_slice();
    let mut list = Vec::with_capacity(alloc, edges.len())?;
    for (number, edge) in edges.iter().enumerate() {
        match compose_edge(alloc, variables, template, edge.actions.as_slice()) {
            Ok(path) => list.push(path)?,
            Err(fault) => return Err(at_edge(number, fault)),
        }
    }
    Ok(Paths::new(list))
}

//! How many picks a system has.

ghost use Rattle.std.specs.Prelude.{◌≡◌, ◌+◌, ◌*◌, ◌^◌, ◌<◌, ◌≤◌, IfSome, length};
ghost use Rattle.std.specs.Option.{SomeIff};
ghost use Rattle.base_limits.specs.declared.limits.TheConstants.{MOST_IMPROVEMENTS};
ghost use Rattle.flow_edges.specs.declared.limits.TheConstants.{MOST_EDGES};
ghost use Rattle.flow_systems.specs.View.{equations_of};
ghost use Rattle.theory_validity.specs.Certificates.{edges_into};
ghost use Rattle.theory_strategy.specs.PickCount.{pick_count};
ghost use Rattle.solve_offers.specs.PickLimit.{RoundsAreFewer};

use base_limits::MOST_IMPROVEMENTS;
use flow_edges::Edge;
use flow_systems::System;

// How many edges end at the point.
fn count_into(edges: &[Edge], point: u32) -> usize
    ensures count { result ≡ length (edges_into point edges.now) }
    ensures few { result ≤ length edges.now }
{
    edges.iter().filter(|edge| edge.to == point).count()
}

// The product with the factor, so many times, unless it passes the greatest number of improvements.
fn times(product: u32, factor: u32, count: usize) -> Option<u32>
    requires product { product ≤ MOST_IMPROVEMENTS }
    requires positive { 0 < factor }
    requires factor { factor ≤ MOST_EDGES + 1 }
    ensures { SomeIff result (product * factor ^ count ≤ MOST_IMPROVEMENTS) (product * factor ^ count) }
{
    let limit = MOST_IMPROVEMENTS as u64;
    let mut total = product as u64;
    'times: for _k in 0..count {
        total *= factor as u64;
        if total > limit {
            return None;
        }
    }
    Some(total as u32)
}

/// How many picks a system has: the product, over all unknowns, of one more than the number of edges into the unknown's point.
/// It is `None` exactly where this is above the greatest number of improvements. No chain of rounds is as long, whatever the policy.
/// Takes no memory.
pub fn picks(system: &System) -> Option<u32>
    ensures count { SomeIff result (pick_count (equations_of system.now) ≤ MOST_IMPROVEMENTS) (pick_count (equations_of system.now)) }
    ensures rounds { IfSome result (RoundsAreFewer (equations_of system.now)) }
{
    let edges = system.flow.edges.as_slice();
    let rows = system.template.as_slice().len();
    let mut product = 1;
    for point in 0..system.flow.points.as_slice().len() as u32 {
        let factor = count_into(edges, point) as u32 + 1;
        match times(product, factor, rows) {
            Some(more) => product = more,
            None => return None,
        }
    }
    Some(product)
}

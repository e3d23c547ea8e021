//! Whether a certificate has a bound for each unknown, and no more evidence than is needed.

ghost use Rattle.std.specs.Prelude.{◌≡◌, ◌↔◌, ◌*◌, ◌<◌, ◌≤◌, ◌/◌, ◌%◌, ℕ, IsTrue, length};
ghost use Rattle.base_fractions.specs.Extended.{extended};
ghost use Rattle.flow_edges.specs.declared.limits.TheConstants.{MOST_EDGES};
ghost use Rattle.flow_systems.specs.Equations.{Vector};
ghost use Rattle.flow_systems.specs.View.{equations_of};
ghost use Rattle.theory_validity.specs.Certificates.{into_needs, needs_at, needs, bounds_vector};
ghost use Rattle.cert_checker.specs.Stands.{Stands};

use base_fractions::Ext;
use flow_edges::Edge;
use flow_systems::{Bounds, System};

// How many edges end at the point.
fn count_into(edges: &[Edge], point: u32) -> usize
    ensures count { (r k : ℕ) → result ≡ length (into_needs point r k edges.now) }
    ensures few { result ≤ length edges.now }
{
    edges.iter().filter(|edge| edge.to == point).count()
}

// How much evidence an unknown with this bound needs.
fn count_at(system: &System, unknown: u32, bound: Ext) -> usize
    ensures count { let rows = length system.now.template in
        result ≡ length (needs_at (equations_of system.now) (unknown / rows) (unknown % rows) (extended bound)) }
    ensures few { result ≤ MOST_EDGES }
{
    let rows = system.template.as_slice().len() as u32;
    match bound {
        Ext::PosInf => 0,
        _ => count_into(system.flow.edges.as_slice(), unknown / rows),
    }
}

// How much evidence a vector needs.
fn count_needed(system: &System, bounds: &Bounds) -> usize
    requires { length bounds.now ≡ length system.now.flow.points * length system.now.template }
    ensures { (z : Vector) → Stands (equations_of system.now) bounds.now z → result ≡ length (needs (equations_of system.now) z) }
{
    let rows = system.template.as_slice().len() as u32;
    let mut count = 0;
    for unknown in rows..bounds.as_slice().len() as u32 {
        count += count_at(system, unknown, bounds.at(unknown));
    }
    count
}

/// Whether there are as many bounds as points times rows, and at most as much evidence as the bounds need.
pub fn has_size(system: &System, bounds: &Bounds, evidence: usize) -> bool
    ensures { let S = equations_of system.now in
        IsTrue result ↔ ((length bounds.now ≡ S.points * length S.template) ×
        (evidence ≤ length (needs S (bounds_vector S bounds.now)))) }
{
    let rows = system.template.as_slice().len();
    let points = system.flow.points.as_slice().len();
    bounds.as_slice().len() == points * rows && evidence <= count_needed(system, bounds)
}

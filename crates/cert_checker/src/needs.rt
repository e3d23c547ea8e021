//! What bounds need evidence for, in the order in which a certificate has it.

ghost use Rattle.std.specs.Prelude.{◌≡◌, ◌*◌, ◌/◌, ◌%◌, ◌+◌, ◌<◌, ◌≤◌, ℕ, [], IfSome, MatchOption, length, drop};
ghost use Rattle.flow_edges.specs.declared.limits.TheConstants.{MOST_EDGES};
ghost use Rattle.flow_systems.specs.Equations.{Vector};
ghost use Rattle.flow_systems.specs.View.{equations_of};
ghost use Rattle.theory_validity.specs.Certificates.{into_needs, needs};
ghost use Rattle.cert_checker.specs.Needs.{IsInto, IsNext, needs_into, needs_left};
ghost use Rattle.cert_checker.specs.Stands.{Stands};

use base_fractions::Ext;
use flow_edges::Edge;
use flow_systems::{Bounds, System};

/// An unknown and an edge into its point, for which bounds need evidence; or a place from which such a pair is looked for. Unknowns and
/// edges are numbered from 0.
#[derive(Clone, Copy, Debug, PartialEq, Eq, Drop)]
pub struct Needed {
    pub unknown: u32,
    pub edge: u32,
}

// The first edge from this number on that ends at the point.
fn edge_into(edges: &[Edge], point: u32, first: u32) -> Option<u32>
    requires { length edges.now ≤ MOST_EDGES }
    ensures within { IfSome result (λ k. k < length edges.now) }
    ensures found { (r : ℕ) → MatchOption result (into_needs point r first (drop first edges.now) ≡ [])
        (λ k. IsInto point r edges.now first k) }
{
    for number in first..edges.len() as u32 {
        if edges[number as usize].to == point {
            return Some(number);
        }
    }
    None
}

// The first edge from this place on for which its unknown needs evidence.
fn edge_from(system: &System, bounds: &Bounds, from: Needed) -> Option<u32>
    requires bounds { length bounds.now ≡ length system.now.flow.points * length system.now.template }
    requires unknown { from.unknown < length bounds.now }
    ensures within { IfSome result (λ k. k < length system.now.flow.edges) }
    ensures found { (z : Vector) → Stands (equations_of system.now) bounds.now z →
        MatchOption result (needs_into (equations_of system.now) z from ≡ [])
        (λ k. (IsInto (from.unknown / length system.now.template) (from.unknown % length system.now.template) system.now.flow.edges
        from.edge k) × ((j : ℕ) → needs_into (equations_of system.now) z (record { unknown = from.unknown; edge = j })
        ≡ into_needs (from.unknown / length system.now.template) (from.unknown % length system.now.template) j
        (drop j system.now.flow.edges))) }
{
    if let Ext::PosInf = bounds.at(from.unknown) {
        return None;
    }
    let point = from.unknown / system.template.as_slice().len() as u32;
    edge_into(system.flow.edges.as_slice(), point, from.edge)
}

impl Needed {
    /// The place from which all that is needed is found.
    pub fn first(system: &System) -> Needed
        ensures { (z : Vector) → needs_left (equations_of system.now) z result ≡ needs (equations_of system.now) z }
    {
        Needed {
            unknown: system.template.as_slice().len() as u32,
            edge: 0,
        }
    }

    /// What is needed first, from this place on: unknown by unknown, and edge by edge.
    pub fn next(self, system: &System, bounds: &Bounds) -> Option<Needed>
        requires { length bounds.now ≡ length system.now.flow.points * length system.now.template }
        ensures unknown { IfSome result (λ needed. needed.unknown < length bounds.now) }
        ensures edge { IfSome result (λ needed. needed.edge < length system.now.flow.edges) }
        ensures few { IfSome result (λ needed. needed.edge < MOST_EDGES) }
        ensures next { (z : Vector) → Stands (equations_of system.now) bounds.now z →
            MatchOption result (needs_left (equations_of system.now) z self ≡ [])
            (λ needed. IsNext (equations_of system.now) z self needed) }
    {
        let mut edge = self.edge;
        for unknown in self.unknown..bounds.as_slice().len() as u32 {
            if let Some(found) = edge_from(system, bounds, Needed { unknown, edge }) {
                return Some(Needed {
                    unknown,
                    edge: found,
                });
            }
            edge = 0;
        }
        None
    }

    /// The place after this one.
    pub fn after(self) -> Needed
        requires { self.edge < MOST_EDGES }
        ensures { result ≡ record { unknown = self.unknown; edge = self.edge + 1 } }
    {
        Needed {
            unknown: self.unknown,
            edge: self.edge + 1,
        }
    }
}

//! Transformers that stay known from round to round.

ghost use Rattle.std.specs.Prelude.{◌≡◌, ◌+◌, ◌*◌, ◌/◌, ◌<◌, ℕ, true, false, [], List, length, get_or, replicate, slice_set, IfOk, Some};
ghost use Rattle.std.specs.Prelude.{None};
ghost use Rattle.base_numbers.specs.Extended.{Ext as Extended};
ghost use Rattle.solve_offers.specs.Known.{
  AreKnown,
  AreNumbersOf,
  Forgets,
  HasEntries,
  HasMarks,
  IsPartOf,
  KeepsLists,
  KeepsMarks,
  KeepsOthers,
  known_at,
  known_value,
};

use crate::found::Found;
use crate::incoming::Incoming;
use crate::outgoing::Outgoing;
use base_fractions::Ext;
use flow_systems::System;
use std::alloc::{AllocError, Global};

/// For each edge and row, in the order edge * rows + row, the transformer that was found and still stands, if there is one, with
/// the evidence beside it. Both depend on the bounds at the edge's source alone, so they stand as long as these stay.
#[derive(Drop)]
pub struct Known {
    pub values: Vec<Option<Found>>,
    /// For each point whether it is settled: it is known that no transformer of an edge into it exceeds a bound there.
    pub settled: Vec<bool>,
    /// The edges into each point.
    pub incoming: Incoming,
    /// The edges out of each point.
    pub outgoing: Outgoing,
}

// No transformer of any edge and row.
fn no_values(alloc: Global, system: &System) -> Result<Vec<Option<Found>>, AllocError>
    ensures { IfOk result (λ values. values.items ≡ replicate (length system.now.flow.edges * length system.now.template) None) }
{
    let rows = system.template.as_slice().len();
    let edges = system.flow.edges.as_slice().len();
    let count = edges * rows;
    let mut values = Vec::with_capacity(alloc, count)?;
    for _entry in 0..count {
        values.push(None)?;
    }
    Ok(values)
}

impl Known {
    /// Nothing is known.
    pub fn none(alloc: Global, system: &System) -> Result<Known, AllocError>
        ensures { IfOk result (λ known. (bounds : _) → AreKnown system.now bounds known) }
    {
        let values = no_values(alloc, system)?;
        let settled = vec![in alloc; false; system.flow.points.as_slice().len()]?;
        let incoming = Incoming::of(alloc, system)?;
        let outgoing = Outgoing::of(alloc, system)?;
        Ok(Known {
            values,
            settled,
            incoming,
            outgoing,
        })
    }

    /// The transformer of an edge and a row, if it is known.
    pub fn value(&self, system: &System, edge: u32, row: u32) -> Option<Ext>
        requires entries { HasEntries system.now self.now }
        requires edge { edge < length system.now.flow.edges }
        requires row { row < length system.now.template }
        ensures { result ≡ known_value system.now self.now edge row }
    {
        let rows = system.template.as_slice().len();
        match &self.values[edge as usize * rows + row as usize] {
            Some(found) => Some(found.value),
            None => None,
        }
    }

    /// Keeps what was found of an edge and a row.
    pub(crate) fn keep(&mut self, system: &System, edge: u32, row: u32, found: Found)
        requires entries { HasEntries system.now self.old }
        requires edge { edge < length system.now.flow.edges }
        requires row { row < length system.now.template }
        ensures kept { self.new.values.items ≡ slice_set self.old.values.items (edge * length system.now.template + row) (Some found) }
        ensures marks { KeepsMarks self.old self.new }
    {
        let rows = system.template.as_slice().len();
        self.values[edge as usize * rows + row as usize] = Some(found);
    }

    /// Hands out what is known of an edge and a row, which isn't known any more.
    pub fn take(&mut self, system: &System, edge: u32, row: u32) -> Option<Found>
        requires entries { HasEntries system.now self.old }
        requires edge { edge < length system.now.flow.edges }
        requires row { row < length system.now.template }
        ensures taken { result ≡ known_at system.now self.old edge row }
        ensures left { self.new.values.items ≡ slice_set self.old.values.items (edge * length system.now.template + row) None }
        ensures marks { KeepsMarks self.old self.new }
    {
        let rows = system.template.as_slice().len();
        self.values[edge as usize * rows + row as usize].take()
    }

    /// How many edges end at a point.
    pub fn count_into(&self, point: u32) -> usize
        requires { point < length self.now.incoming }
        ensures { result ≡ length (get_or self.now.incoming point []) }
    {
        self.incoming.ending_at(point).len()
    }

    /// The number of one of the edges that end at a point.
    pub fn edge_into(&self, point: u32, place: usize) -> u32
        requires point { point < length self.now.incoming }
        requires place { place < length (get_or self.now.incoming point []) }
        ensures { result ≡ get_or (get_or self.now.incoming point []) place 0 }
    {
        self.incoming.ending_at(point)[place]
    }

    /// How many edges start at a point.
    pub fn count_out(&self, point: u32) -> usize
        requires { point < length self.now.outgoing }
        ensures { result ≡ length (get_or self.now.outgoing point []) }
    {
        self.outgoing.starting_at(point).len()
    }

    /// The number of one of the edges that start at a point.
    pub fn edge_out(&self, point: u32, place: usize) -> u32
        requires point { point < length self.now.outgoing }
        requires place { place < length (get_or self.now.outgoing point []) }
        ensures { result ≡ get_or (get_or self.now.outgoing point []) place 0 }
    {
        self.outgoing.starting_at(point)[place]
    }

    /// Whether a point is settled.
    pub fn is_settled(&self, point: u32) -> bool
        requires { point < length self.now.settled.items }
        ensures { result ≡ get_or self.now.settled.items point false }
    {
        self.settled[point as usize]
    }

    /// Says of a point whether it is settled.
    pub(crate) fn mark(&mut self, point: u32, settled: bool)
        requires { point < length self.old.settled.items }
        ensures values { self.new.values.items ≡ self.old.values.items }
        ensures settled { self.new.settled.items ≡ slice_set self.old.settled.items point settled }
        ensures lists { KeepsLists self.old self.new }
    {
        self.settled[point as usize] = settled;
    }
}

// Nothing is known of an edge any more.
fn forget_edge(system: &System, edge: u32, known: &mut Known)
    requires entries { HasEntries system.now known.old }
    requires edge { edge < length system.now.flow.edges }
    ensures entries { HasEntries system.now known.new }
    ensures gone { (row : ℕ) → row < length system.now.template → known_at system.now known.new edge row ≡ None }
    ensures part { IsPartOf known.new known.old }
    ensures marks { KeepsMarks known.old known.new }
{
    let rows = system.template.as_slice().len();
    for row in 0..rows {
        known.values[edge as usize * rows + row] = None;
    }
}

// Forgets the transformers of the edges that start at a point, and that it and the points where these edges end are settled.
fn forget_point(system: &System, point: u32, known: &mut Known)
    requires entries { HasEntries system.now known.old }
    requires marks { HasMarks system.now known.old }
    requires point { point < length system.now.flow.points }
    ensures { Forgets system.now point known.old known.new }
{
    let edges = system.flow.edges.as_slice();
    known.mark(point, false);
    for place in 0..known.count_out(point) {
        let edge = known.edge_out(point, place);
        forget_edge(system, edge, known);
        known.mark(edges[edge as usize].to, false);
    }
}

/// Forgets what may not stand where the bounds of these unknowns change: the transformers of the edges that start at their
/// points, and that these points and those where these edges end are settled. What is known of the others stands.
pub fn forget(system: &System, changed: &[u32], known: &mut Known)
    requires numbers { AreNumbersOf system.now changed.now }
    requires entries { HasEntries system.now known.old }
    requires marks { HasMarks system.now known.old }
    ensures { (before after : List Extended) → AreKnown system.now before known.old → KeepsOthers changed.now before after
        → AreKnown system.now after known.new }
{
    let rows = system.template.as_slice().len() as u32;
    for unknown in changed {
        forget_point(system, *unknown / rows, known);
    }
}

//! Improvement.

ghost use Rattle.std.specs.Prelude.{◌≡◌, ◌↔◌, ◌+◌, ◌*◌, ◌/◌, ◌%◌, ◌<◌, ℕ, length, get_or, IfOk, IfErr, IfSome, IsNone, MatchResult, None};
ghost use Rattle.std.specs.Prelude.{true, false};
ghost use Rattle.base_numbers.specs.Extended.{◌<ᴱ◌, neg_inf, pos_inf};
ghost use Rattle.flow_systems.specs.View.{equations_of};
ghost use Rattle.solve_composition.specs.Composed.{AreComposed};
ghost use Rattle.solve_offers.specs.AtBounds.{vector_at, IsTransformerAt, IsOfferAt, IsNextPick, NothingExceeds, IsTightPick};
ghost use Rattle.solve_offers.specs.AtBounds.{IsSupportedPick};
ghost use Rattle.solve_offers.specs.Improvement.{AreImproved, UnknownBecomes, next_pick};
ghost use Rattle.solve_offers.specs.Known.{AreKnown};
ghost use Rattle.solve_offers.specs.Offers.{is_top};
ghost use Rattle.solve_offers.specs.Stops.{IsSolvedStop, IsOfferStop};

use crate::chooser::{Chooser, Policy};
use crate::found::solve_offer;
use crate::known::Known;
use crate::offer::{EdgeNumbers, Offer, Values};
use crate::offering::Offering;
use crate::stop::Stop;
use crate::unlimited::is_unlimited;
use base_fractions::Ext;
use flow_systems::{Bounds, Pick, System};
use solve_transformer::Paths;
use std::alloc::Global;

// The transformer of an edge and a row at the bounds: the known one, or else solved, and known from then on.
fn offered_value(
    alloc: Global,
    at: &Offering,
    edge: u32,
    row: u32,
    known: &mut Known,
) -> Result<Ext, Stop>
    requires edge { edge < length at.now.system.now.flow.edges }
    requires row { row < length at.now.system.now.template }
    requires known { AreKnown at.now.system.now at.now.bounds.now known.old }
    ensures value { MatchResult result (IsTransformerAt at.now.system.now at.now.bounds.now edge row)
        (IsSolvedStop at.now.system.now at.now.bounds.now edge row at.now.round) }
    ensures known { AreKnown at.now.system.now at.now.bounds.now known.new }
{
    match known.value(at.system, edge, row) {
        Some(value) => Ok(value),
        None => {
            let found = solve_offer(alloc, at, edge, row)?;
            let value = found.value;
            known.keep(at.system, edge, row, found);
            Ok(value)
        }
    }
}

// What the unknown of a point and a row is offered, where its bound is below `+inf`.
fn make_offer(
    alloc: Global,
    at: &Offering,
    point: u32,
    row: u32,
    known: &mut Known,
) -> Result<Offer, Stop>
    requires point { point < length at.now.system.now.flow.points }
    requires row { row < length at.now.system.now.template }
    requires limited { vector_at at.now.system.now at.now.bounds.now point row <ᴱ pos_inf }
    requires known { AreKnown at.now.system.now at.now.bounds.now known.old }
    ensures offer { MatchResult result (IsOfferAt at.now.system.now at.now.bounds.now point row)
        (IsOfferStop at.now.system.now at.now.bounds.now at.now.round) }
    ensures known { AreKnown at.now.system.now at.now.bounds.now known.new }
{
    let rows = at.system.template.as_slice().len() as u32;
    let mut edges = Vec::new(alloc);
    let mut values = Vec::new(alloc);
    for place in 0..known.count_into(point) {
        let number = known.edge_into(point, place);
        let value = offered_value(alloc, at, number, row, known)?;
        edges.push(number)?;
        values.push(value)?;
    }
    Ok(Offer {
        bound: at.bounds.at(point * rows + row),
        edges: EdgeNumbers::new(edges),
        values: Values::new(values),
    })
}

// What an unknown is offered. One at `+inf` asks for no offer: nothing exceeds it.
fn asked_offer(
    alloc: Global,
    at: &Offering,
    unknown: u32,
    known: &mut Known,
) -> Result<Option<Offer>, Stop>
    requires unknown { unknown < length at.now.system.now.flow.points * length at.now.system.now.template }
    requires known { AreKnown at.now.system.now at.now.bounds.now known.old }
    ensures top { IfOk result (λ asked. IsNone asked → is_top (get_or at.now.bounds.now unknown neg_inf) ≡ true) }
    ensures offer { IfOk result (λ asked. IfSome asked
        (IsOfferAt at.now.system.now at.now.bounds.now (unknown / length at.now.system.now.template)
        (unknown % length at.now.system.now.template))) }
    ensures stop { IfErr result (IsOfferStop at.now.system.now at.now.bounds.now at.now.round) }
    ensures known { AreKnown at.now.system.now at.now.bounds.now known.new }
{
    let bound = at.bounds.at(unknown);
    if is_unlimited(bound) {
        return Ok(None);
    }
    let rows = at.system.template.as_slice().len() as u32;
    let offer = make_offer(alloc, at, unknown / rows, unknown % rows, known)?;
    Ok(Some(offer))
}

// Gives an unknown its next edge by what it is offered, and tells whether an edge was offered.
fn offer_edge(
    alloc: Global,
    at: &Offering,
    chooser: &Chooser,
    unknown: u32,
    pick: &mut Pick,
    known: &mut Known,
) -> Result<bool, Stop>
    requires pick { length pick.old ≡ length at.now.system.now.flow.points * length at.now.system.now.template }
    requires unknown { unknown < length at.now.system.now.flow.points * length at.now.system.now.template }
    requires known { AreKnown at.now.system.now at.now.bounds.now known.old }
    ensures size { length pick.new ≡ length pick.old }
    ensures others { IfOk result (λ offered. (u : _) → (u ≡ unknown → ⊥) → get_or pick.new u None ≡ get_or pick.old u None) }
    ensures becomes { IfOk result (λ offered. UnknownBecomes (equations_of at.now.system.now)
        (vector_at at.now.system.now at.now.bounds.now)
        (λ offer k. (shown : _) × Policy.post chooser.now.policy shown k × (shown.now ≡ offer))
        unknown (get_or pick.old unknown None) (get_or pick.new unknown None) offered) }
    ensures stop { IfErr result (IsOfferStop at.now.system.now at.now.bounds.now at.now.round) }
    ensures known { AreKnown at.now.system.now at.now.bounds.now known.new }
{
    let asked = asked_offer(alloc, at, unknown, known)?;
    match asked {
        None => Ok(false),
        Some(offer) => {
            if offer.some_exceeds() {
                let position = chooser.choose(&offer);
                pick.set(unknown, Some(offer.edges.as_slice()[position]));
                Ok(true)
            } else {
                Ok(false)
            }
        }
    }
}

// Gives the unknowns of a point their next edges, and tells whether one was offered.
fn offer_edges(
    alloc: Global,
    at: &Offering,
    chooser: &Chooser,
    point: u32,
    pick: &mut Pick,
    known: &mut Known,
) -> Result<bool, Stop>
    requires pick { length pick.old ≡ length at.now.system.now.flow.points * length at.now.system.now.template }
    requires point { point < length at.now.system.now.flow.points }
    requires known { AreKnown at.now.system.now at.now.bounds.now known.old }
    ensures improved { IfOk result (AreImproved (equations_of at.now.system.now) (vector_at at.now.system.now at.now.bounds.now)
        (λ offer k. (shown : _) × Policy.post chooser.now.policy shown k × (shown.now ≡ offer))
        (point * length at.now.system.now.template) (length at.now.system.now.template) pick.old pick.new) }
    ensures size { length pick.new ≡ length pick.old }
    ensures stop { IfErr result (IsOfferStop at.now.system.now at.now.bounds.now at.now.round) }
    ensures known { AreKnown at.now.system.now at.now.bounds.now known.new }
{
    let rows = at.system.template.as_slice().len() as u32;
    let mut improved = false;
    for row in 0..rows {
        if offer_edge(alloc, at, chooser, point * rows + row, pick, known)? {
            improved = true;
        }
    }
    Ok(improved)
}

// Gives the unknowns of a point their next edges, and tells whether one was offered. Those of one that is settled are offered none;
// one whose unknowns are offered none is settled.
fn improve_point(
    alloc: Global,
    at: &Offering,
    chooser: &Chooser,
    point: u32,
    pick: &mut Pick,
    known: &mut Known,
) -> Result<bool, Stop>
    requires pick { length pick.old ≡ length at.now.system.now.flow.points * length at.now.system.now.template }
    requires point { point < length at.now.system.now.flow.points }
    requires known { AreKnown at.now.system.now at.now.bounds.now known.old }
    ensures improved { IfOk result (AreImproved (equations_of at.now.system.now) (vector_at at.now.system.now at.now.bounds.now)
        (λ offer k. (shown : _) × Policy.post chooser.now.policy shown k × (shown.now ≡ offer))
        (point * length at.now.system.now.template) (length at.now.system.now.template) pick.old pick.new) }
    ensures size { length pick.new ≡ length pick.old }
    ensures stop { IfErr result (IsOfferStop at.now.system.now at.now.bounds.now at.now.round) }
    ensures known { AreKnown at.now.system.now at.now.bounds.now known.new }
{
    if known.is_settled(point) {
        return Ok(false);
    }
    if offer_edges(alloc, at, chooser, point, pick, known)? {
        return Ok(true);
    }
    known.mark(point, true);
    Ok(false)
}

/// Makes a pick the next one at the bounds, and tells whether some unknown was offered an edge. For each unknown in order, the
/// offer has the transformers of all edges into its point, by edge number. Where one exceeds the unknown's bound, the edge at the
/// position that the chooser answers becomes its edge; else the unknown keeps its own. `false` exactly where no transformer
/// exceeds its bound anywhere. The transformers of an unknown at `+inf` aren't solved, since none exceeds it, nor are those that
/// are known already; those that are found are kept. A point that is known to be settled isn't looked at again.
///
/// # Errors
///
/// `Wide` only where an operation of the transformer of an edge and a row is too wide for a fraction at these bounds, at the
/// site of the offer of that edge and row, in this round, and the bound that the edge leads to is below `+inf`. `NoMemory`.
pub fn improve(
    alloc: Global,
    system: &System,
    paths: &Paths,
    bounds: &Bounds,
    pick: &mut Pick,
    round: u32,
    chooser: &Chooser,
    known: &mut Known,
) -> Result<bool, Stop>
    requires composed { AreComposed (equations_of system.now) paths.now }
    requires bounds { length bounds.now ≡ length system.now.flow.points * length system.now.template }
    requires pick { length pick.old ≡ length system.now.flow.points * length system.now.template }
    requires known { AreKnown system.now bounds.now known.old }
    ensures none { IfOk result (λ improved. improved ≡ false ↔ NothingExceeds system.now bounds.now) }
    ensures next { IfOk result (λ improved. IsNextPick system.now bounds.now
        (λ offer k. (shown : _) × Policy.post chooser.now.policy shown k × (shown.now ≡ offer)) pick.old (next_pick improved pick.new)) }
    ensures size { length pick.new ≡ length pick.old }
    ensures supported { IfOk result (λ improved. improved ≡ true → IsTightPick system.now bounds.now pick.old
        → IsSupportedPick system.now bounds.now pick.new) }
    ensures stop { IfErr result (IsOfferStop system.now bounds.now round) }
    ensures known { AreKnown system.now bounds.now known.new }
{
    let at = Offering {
        system,
        paths,
        bounds,
        round,
    };
    let mut improved = false;
    for point in 0..system.flow.points.as_slice().len() as u32 {
        if improve_point(alloc, &at, chooser, point, pick, known)? {
            improved = true;
        }
    }
    Ok(improved)
}

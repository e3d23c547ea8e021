//! The evidence of upper bounds that the offers at the last bounds show.

ghost use Rattle.std.specs.Prelude.{◌≡◌, ◌<◌, ◌++◌, length, map, IfOk, IfErr};
ghost use Rattle.base_numbers.specs.Extended.{◌<ᴱ◌, pos_inf};
ghost use Rattle.flow_systems.specs.View.{equations_of};
ghost use Rattle.cert_types.specs.Certificates.{evidence_of};
ghost use Rattle.theory_rounds.specs.Made.{exact_upper, exact_uppers};
ghost use Rattle.solve_offers.specs.AtBounds.{vector_at, edge_at, row_at};
ghost use Rattle.solve_offers.specs.Known.{AreKnown};
ghost use Rattle.solve_offers.specs.Stops.{IsSolvedStop, IsOfferStop};
ghost use Rattle.solve_rounds.specs.Uppers.{uppers_into, uppers_of_rows};

use cert_types::{Upper, Uppers};
use solve_offers::{Known, Offering, Stop, is_unlimited, solve_offer};
use std::alloc::Global;

// The evidence for an edge and a row at the bounds: that of the offer, which is handed out, or else solved.
fn shown(
    alloc: Global,
    at: &Offering,
    edge: u32,
    row: u32,
    known: &mut Known,
) -> Result<Upper, Stop>
    requires edge { edge < length at.now.system.now.flow.edges }
    requires row { row < length at.now.system.now.template }
    requires known { AreKnown at.now.system.now at.now.bounds.now known.old }
    ensures upper { IfOk result (λ upper. evidence_of upper ≡ exact_upper (equations_of at.now.system.now)
        (vector_at at.now.system.now at.now.bounds.now) (edge_at at.now.system.now edge) (row_at at.now.system.now row)) }
    ensures stop { IfErr result (IsSolvedStop at.now.system.now at.now.bounds.now edge row at.now.round) }
    ensures known { AreKnown at.now.system.now at.now.bounds.now known.new }
{
    match known.take(at.system, edge, row) {
        Some(found) => Ok(found.upper),
        None => {
            let found = solve_offer(alloc, at, edge, row)?;
            Ok(found.upper)
        }
    }
}

// Puts the evidence for each edge into a point, by edge number, behind the others, where the bound is below `+inf`.
fn push_into(
    alloc: Global,
    at: &Offering,
    point: u32,
    row: u32,
    known: &mut Known,
    uppers: &mut Vec<Upper>,
) -> Result<(), Stop>
    requires point { point < length at.now.system.now.flow.points }
    requires row { row < length at.now.system.now.template }
    requires limited { vector_at at.now.system.now at.now.bounds.now point row <ᴱ pos_inf }
    requires known { AreKnown at.now.system.now at.now.bounds.now known.old }
    ensures uppers { IfOk result (λ done. map evidence_of uppers.new.items ≡ map evidence_of uppers.old.items
        ++ uppers_into (equations_of at.now.system.now) (vector_at at.now.system.now at.now.bounds.now) point row) }
    ensures stop { IfErr result (IsOfferStop at.now.system.now at.now.bounds.now at.now.round) }
    ensures known { AreKnown at.now.system.now at.now.bounds.now known.new }
{
    for place in 0..known.count_into(point) {
        let number = known.edge_into(point, place);
        let upper = shown(alloc, at, number, row, known)?;
        uppers.push(upper)?;
    }
    Ok(())
}

// Puts the evidence for the unknowns of a point, by row, behind the others. An unknown at `+inf` needs none.
fn push_point(
    alloc: Global,
    at: &Offering,
    point: u32,
    known: &mut Known,
    uppers: &mut Vec<Upper>,
) -> Result<(), Stop>
    requires point { point < length at.now.system.now.flow.points }
    requires known { AreKnown at.now.system.now at.now.bounds.now known.old }
    ensures uppers { IfOk result (λ done. map evidence_of uppers.new.items ≡ map evidence_of uppers.old.items
        ++ uppers_of_rows (equations_of at.now.system.now) (vector_at at.now.system.now at.now.bounds.now) point
        (length at.now.system.now.template)) }
    ensures stop { IfErr result (IsOfferStop at.now.system.now at.now.bounds.now at.now.round) }
    ensures known { AreKnown at.now.system.now at.now.bounds.now known.new }
{
    let rows = at.system.template.as_slice().len() as u32;
    for row in 0..rows {
        if !is_unlimited(at.bounds.at(point * rows + row)) {
            push_into(alloc, at, point, row, known, uppers)?;
        }
    }
    Ok(())
}

/// The evidence that the offers at the bounds show: for each unknown outside the entry whose bound isn't `+inf`, in order of
/// number, and each edge into its point, by edge number, the lowest row at `-inf`, the multipliers of an empty problem, or those
/// of the best value. What is known from the last offers is handed out and not solved again.
///
/// # Errors
///
/// `Wide` only where an operation of an offer is too wide for a fraction at these bounds, at the site of the offer and in this
/// round, and the bound that the edge leads to is below `+inf`. `NoMemory`.
pub(crate) fn uppers_at(alloc: Global, at: &Offering, known: &mut Known) -> Result<Uppers, Stop>
    requires known { AreKnown at.now.system.now at.now.bounds.now known.old }
    ensures uppers { IfOk result (λ uppers. map evidence_of uppers ≡ exact_uppers (equations_of at.now.system.now)
        (vector_at at.now.system.now at.now.bounds.now)) }
    ensures stop { IfErr result (IsOfferStop at.now.system.now at.now.bounds.now at.now.round) }
{
    let mut uppers = Vec::new(alloc);
    for point in 1..at.system.flow.points.as_slice().len() as u32 {
        push_point(alloc, at, point, known, &mut uppers)?;
    }
    Ok(Uppers::new(uppers))
}

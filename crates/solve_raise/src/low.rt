//! A trace that exceeds a bound, by going along a direction.

ghost use Rattle.std.specs.Prelude.{◌≡◌, ◌≢◌, ◌<◌, ℤ, List, Some, length, slice_get, if◌then◌else◌, []};
ghost use Rattle.base_numbers.specs.Rational.{zero_ℚ, ◌+ℚ◌, ◌*ℚ◌};
ghost use Rattle.base_fractions.specs.Extended.{extended};
ghost use Rattle.flow_edges.specs.declared.edge.Edge.{Edge};
ghost use Rattle.flow_systems.specs.FreeValues.{free_count};
ghost use Rattle.flow_systems.specs.Faults.{AnswersBy};
ghost use Rattle.flow_systems.specs.Sums.{SumAnswers};
ghost use Rattle.flow_systems.specs.View.{equations_of};
ghost use Rattle.theory_validity.specs.Words.{moved as moved_by};
ghost use Rattle.cert_types.specs.Certificates.{pieces_of};
ghost use Rattle.flow_systems.specs.declared.sums.Constants.TheVariants.{Zero};
ghost use Rattle.solve_raise.specs.Moves.{carried as value_of};
ghost use Rattle.solve_raise.specs.Numbers.{multiple as multiple_of, multiple_operations, moved_pieces, moved_operations, entry_operations};
ghost use Rattle.solve_raise.specs.Numbers.{entries_operations};
ghost use Rattle.solve_raise.specs.Lows.{low_of, low_operations};

use crate::carry::carried;
use crate::fault::RaiseFault;
use crate::number::next_whole;
use base_fractions::{Ext, Frac, Wide};
use flow_systems::{Constants, Fracs, System, Trace};
use std::alloc::Global;

// How often a row has to rise by the rate, so that from the value it comes above the bound.
fn multiple(bound: Frac, value: Frac, rate: Frac) -> Result<Frac, Wide<Frac>>
    requires { rate ≢ zero_ℚ }
    ensures { SumAnswers (multiple_of bound value rate) (multiple_operations bound value rate) result }
{
    let gap = bound.minus(value)?;
    let quotient = gap.over(rate)?;
    next_whole(quotient)
}

// An entry of a trace, moved so often along a direction.
fn moved_entry(times: Frac, entry: Frac, slope: Frac) -> Result<Frac, Wide<Frac>>
    ensures { SumAnswers (entry +ℚ (times *ℚ slope)) (entry_operations times entry slope) result }
{
    let product = times.times(slope)?;
    entry.plus(product)
}

// The entries in order.
fn moved_entries(
    alloc: Global,
    times: Frac,
    entries: &[Frac],
    slopes: &[Frac],
) -> Result<Fracs, RaiseFault>
    requires { length entries.now ≡ length slopes.now }
    ensures { AnswersBy (λ list. list ≡ moved_by entries.now times slopes.now) (entries_operations times entries.now slopes.now) result }
{
    let mut list = Vec::new(alloc);
    for (i, entry) in entries.iter().enumerate() {
        let value = moved_entry(times, *entry, slopes[i])?;
        list.push(value)?;
    }
    Ok(Fracs::new(list))
}

// The trace, moved so often along the direction.
fn moved(alloc: Global, times: Frac, trace: &Trace, direction: &Trace) -> Result<Trace, RaiseFault>
    requires start { length trace.now.start ≡ length direction.now.start }
    requires free { length trace.now.free ≡ length direction.now.free }
    ensures { AnswersBy (λ low. pieces_of low ≡ moved_pieces times trace.now direction.now) (moved_operations times trace.now direction.now)
        result }
{
    let start = moved_entries(
        alloc,
        times,
        trace.start.as_slice(),
        direction.start.as_slice(),
    )?;
    let free = moved_entries(
        alloc,
        times,
        trace.free.as_slice(),
        direction.free.as_slice(),
    )?;
    Ok(Trace { start, free })
}

/// The trace, where the bound is `-inf` or its value exceeds the bound, and else the trace moved along the direction until it
/// does: entry by entry by so many times the direction as the gap has rates, rounded down, and once more.
///
/// # Errors
///
/// `Wide` with the first operation that is wide: those of the trace's value, where the bound is a fraction; then, where the value
/// isn't above the bound, the difference from it, the quotient by the rate and the sum with 1; then for each entry, the start
/// before the free values, its product and its sum. `NoMemory`.
pub fn low(
    alloc: Global,
    system: &System,
    edge: u32,
    row: u32,
    bound: Ext,
    trace: Trace,
    direction: &Trace,
    rate: Frac,
) -> Result<Trace, RaiseFault>
    requires edge { edge < length system.now.flow.edges }
    requires row { row < length system.now.template }
    requires start { (length trace.start ≡ length system.now.flow.names) × (length direction.now.start ≡ length system.now.flow.names) }
    requires free { (e : Edge) → slice_get system.now.flow.edges edge ≡ Some e → (length trace.free ≡ free_count e.actions)
        × (length direction.now.free ≡ free_count e.actions) }
    requires rate { rate ≢ zero_ℚ }
    ensures { (e : Edge) (cs : List ℤ) → slice_get system.now.flow.edges edge ≡ Some e → slice_get system.now.template row ≡ Some cs →
        rate ≡ value_of Zero (equations_of system.now) e cs direction.now →
        AnswersBy (λ low. pieces_of low ≡ low_of (equations_of system.now) e cs (extended bound) trace direction.now)
        (low_operations (equations_of system.now) e cs (extended bound) trace direction.now) result }
{
    match bound {
        Ext::Fin(limit) => {
            let value = carried(system, edge, row, Constants::Kept, &trace)?;
            if limit < value {
                return Ok(trace);
            }
            let times = multiple(limit, value, rate)?;
            moved(alloc, times, &trace, direction)
        }
        Ext::NegInf => Ok(trace),
        Ext::PosInf => Ok(trace),
    }
}

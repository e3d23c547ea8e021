//! The raises of a growth, found by the numbers of their unknowns.

ghost use Rattle.std.specs.Prelude.{◌≡◌, ◌<◌, ◌≤◌, length, get_or, IfOk, IfErr};
ghost use Rattle.solve_rounds.specs.Lows.{IsFilled, unknown_in, edge_in, low_in, no_step, AreRaises, ArePlaces};
ghost use Rattle.flow_systems.specs.declared.fault.Fault.TheVariants.{NoMemory};
ghost use Rattle.flow_systems.specs.declared.limits.TheConstants.{MOST_UNKNOWNS};

use cert_types::Step;
use flow_systems::{Fracs, Trace};
use solve_offers::Stop;
use std::alloc::Global;

/// A trace of its own with the same values.
pub(crate) fn copied(alloc: Global, trace: &Trace) -> Result<Trace, Stop>
    ensures trace { IfOk result (λ copy. copy ≡ trace.now) }
    ensures stop { IfErr result (λ stop. stop ≡ NoMemory) }
{
    let start = trace.start.as_slice().to_vec(alloc)?;
    let free = trace.free.as_slice().to_vec(alloc)?;
    Ok(Trace {
        start: Fracs::new(start),
        free: Fracs::new(free),
    })
}

// The unknown of a step's first item.
fn unknown_of(step: &Step) -> u32
    requires { IsFilled step.now }
    ensures { result ≡ unknown_in step.now }
{
    match step {
        Step::Plain(items) => items.as_slice()[0].unknown,
        Step::Jump(items) => items.as_slice()[0].unknown,
        Step::Ray(items) => items.as_slice()[0].unknown,
    }
}

/// The edge of a step's first item.
pub(crate) fn edge_of(step: &Step) -> u32
    requires { IsFilled step.now }
    ensures { result ≡ edge_in step.now }
{
    match step {
        Step::Plain(items) => items.as_slice()[0].edge,
        Step::Jump(items) => items.as_slice()[0].edge,
        Step::Ray(items) => items.as_slice()[0].edge,
    }
}

/// The low trace of a step's first item, as one of its own.
pub(crate) fn low_of(alloc: Global, step: &Step) -> Result<Trace, Stop>
    requires { IsFilled step.now }
    ensures trace { IfOk result (λ low. low ≡ low_in step.now) }
    ensures stop { IfErr result (λ stop. stop ≡ NoMemory) }
{
    match step {
        Step::Plain(items) => copied(alloc, &items.as_slice()[0].low),
        Step::Jump(items) => copied(alloc, &items.as_slice()[0].low),
        Step::Ray(items) => copied(alloc, &items.as_slice()[0].low),
    }
}

/// For each of so many unknowns the number of the step that raises it, 0 where none does.
pub(crate) fn places(alloc: Global, count: usize, raises: &[Step]) -> Result<Vec<u32>, Stop>
    requires raises { AreRaises count raises.now }
    requires few { length raises.now ≤ MOST_UNKNOWNS }
    ensures size { IfOk result (λ places. length places.items ≡ count) }
    ensures places { IfOk result (λ places. ArePlaces raises.now places.items (length raises.now)) }
    ensures stop { IfErr result (λ stop. stop ≡ NoMemory) }
{
    let mut places = vec![in alloc; 0; count]?;
    for place in 0..raises.len() {
        places[unknown_of(&raises[place]) as usize] = place as u32;
    }
    Ok(places)
}

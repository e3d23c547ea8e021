//! Growth.

ghost use Rattle.std.specs.Prelude.{◌≡◌, ◌≤◌, ◌*◌, length, map, IfOk, IfErr};
ghost use Rattle.flow_systems.specs.View.{equations_of};
ghost use Rattle.cert_types.specs.Certificates.{step_of};
ghost use Rattle.solve_composition.specs.Composed.{AreComposed};
ghost use Rattle.solve_offers.specs.AtBounds.{EdgesAreThere};
ghost use Rattle.solve_offers.specs.Known.{AreKnown, KeepsOthers};
ghost use Rattle.solve_offers.specs.Outgoing.{AreLeaving};
ghost use Rattle.flow_systems.specs.declared.fault.Fault.TheVariants.{NoMemory};
ghost use Rattle.solve_rounds.specs.Growing.{IsKept, AreQuiet, EdgesEnd, IsFresh, IsGrown, StaysUnraised, marked_numbers};
ghost use Rattle.solve_rounds.specs.Growth.{growth_at, AreLed, named_at, IsGrowthStop};
ghost use Rattle.flow_systems.specs.declared.limits.TheConstants.{MOST_UNKNOWNS};

use crate::growing::{Growing, pass};
use crate::quiet_marks::quiet_unknowns;
use base_list::Sequence;
use cert_types::Steps;
use flow_systems::{Bounds, Pick, System};
use solve_offers::{Known, Stop};
use solve_transformer::Paths;
use std::alloc::Global;

/// Numbers of unknowns in order.
pub(crate) type UnknownNumbers = Sequence<u32>;

/// What unknowns grow to: the bounds then, the numbers of the unknowns that were raised, in rising order, and one step for each
/// raise, in order of raises.
#[derive(Drop)]
pub(crate) struct Grown {
    pub bounds: Bounds,
    pub raised: UnknownNumbers,
    pub steps: Steps,
}

// The numbers of the unknowns that were raised.
fn raised_unknowns(alloc: Global, raised: &[bool]) -> Result<UnknownNumbers, Stop>
    requires few { length raised.now ≤ MOST_UNKNOWNS }
    ensures numbers { IfOk result (λ numbers. numbers ≡ marked_numbers raised.now (length raised.now)) }
    ensures stop { IfErr result (λ stop. stop ≡ NoMemory) }
{
    let mut list = Vec::new(alloc);
    for (unknown, is_raised) in raised.iter().enumerate() {
        if *is_raised {
            list.push(unknown as u32)?;
        }
    }
    Ok(UnknownNumbers::new(list))
}

// Passes until one raises nothing.
fn passes(
    alloc: Global,
    system: &System,
    paths: &Paths,
    pick: &Pick,
    known: &Known,
    round: u32,
    growing: &mut Growing,
) -> Result<(), Stop>
    requires composed { AreComposed (equations_of system.now) paths.now }
    requires pick { length pick.now ≡ length system.now.flow.points * length system.now.template }
    requires edges { EdgesAreThere system.now pick.now }
    requires ends { EdgesEnd system.now pick.now }
    requires leaving { AreLeaving system.now known.now.outgoing }
    requires kept { IsKept system.now growing.old }
    requires quiet { AreQuiet system.now pick.now growing.old }
    requires unraised { IsFresh system.now growing.old }
    ensures kept { IfOk result (λ done. IsKept system.now growing.new) }
    ensures grown { IfOk result (λ done. IsGrown system.now growing.old.bounds pick.now growing.new) }
    ensures stays { IfOk result (λ done. StaysUnraised growing.old growing.new) }
    ensures stop { IfErr result (IsGrowthStop system.now growing.old.bounds pick.now round) }
{
    while pass(alloc, system, paths, pick, known, round, growing)? {}
    Ok(())
}

/// The growth of a pick from the bounds. In passes, the unknowns with a pick are tested in order of number; one that wasn't
/// raised yet and whose picked edge's transformer exceeds its bound is raised at once, by one step, and later tests see its new
/// bound. The passes end with one that raises nothing. Transformers that are known already and don't exceed their bounds aren't solved
/// again, and points where nothing is to be tested aren't gone through. `docs/METHOD.md` says to which bound an unknown is raised.
///
/// # Errors
///
/// `Wide` only where an operation of a test or of a raise of this growth is too wide for a fraction, in this round: at the site
/// of the growth with the edge and row of the test, or at that of the raise with the number of raises before it. `NoMemory`.
pub(crate) fn grow_from(
    alloc: Global,
    system: &System,
    paths: &Paths,
    bounds: Bounds,
    pick: &Pick,
    round: u32,
    known: &Known,
) -> Result<Grown, Stop>
    requires composed { AreComposed (equations_of system.now) paths.now }
    requires bounds { length bounds ≡ length system.now.flow.points * length system.now.template }
    requires pick { length pick.now ≡ length system.now.flow.points * length system.now.template }
    requires edges { EdgesAreThere system.now pick.now }
    requires ends { EdgesEnd system.now pick.now }
    requires known { AreKnown system.now bounds known.now }
    ensures steps { IfOk result (λ grown. map (step_of (length system.now.template)) grown.steps
        ≡ growth_at system.now bounds pick.now) }
    ensures bounds { IfOk result (λ grown. AreLed system.now bounds (map (step_of (length system.now.template)) grown.steps)
        grown.bounds) }
    ensures size { IfOk result (λ grown. length grown.bounds ≡ length bounds) }
    ensures raised { IfOk result (λ grown. grown.raised ≡ named_at system.now (map (step_of (length system.now.template)) grown.steps)) }
    ensures others { IfOk result (λ grown. KeepsOthers grown.raised bounds grown.bounds) }
    ensures stop { IfErr result (IsGrowthStop system.now bounds pick.now round) }
{
    let count = system.flow.points.as_slice().len() * system.template.as_slice().len();
    let quiet = quiet_unknowns(alloc, system, &bounds, pick, known)?;
    let calm = known.settled.as_slice().to_vec(alloc)?;
    let mut growing = Growing {
        bounds,
        raised: vec![in alloc; false; count]?,
        quiet,
        calm,
        steps: Vec::new(alloc),
    };
    passes(alloc, system, paths, pick, known, round, &mut growing)?;
    let raised = raised_unknowns(alloc, &growing.raised)?;
    Ok(Grown {
        bounds: growing.bounds,
        raised,
        steps: Steps::new(growing.steps),
    })
}

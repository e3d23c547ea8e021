//! One turn of a round.

ghost use Rattle.std.specs.Prelude.{◌≡◌, ◌*◌, ◌+◌, ◌<◌, ◌≤◌, ℕ, ◌∷◌, [], List, Option, length, map, get_or, IfOk, IfErr};
ghost use Rattle.base_facts.specs.Elements.{In};
ghost use Rattle.base_numbers.specs.Extended.{Ext as Extended};
ghost use Rattle.base_fractions.specs.Extended.{extended};
ghost use Rattle.flow_systems.specs.View.{equations_of, vector_of};
ghost use Rattle.theory_transformers.specs.JointProblems.{AllRising};
ghost use Rattle.solve_composition.specs.Composed.{AreComposed};
ghost use Rattle.solve_joint.specs.Numbers.{all_listed, ArePicked, Rises};
ghost use Rattle.solve_joint.specs.Joints.{IsJointFault};
ghost use Rattle.flow_systems.specs.declared.system.System.{System as SystemValue};
ghost use Rattle.flow_systems.specs.declared.fault.Fault.TheVariants.{NoMemory};
ghost use Rattle.solve_offers.specs.Known.{KeepsOthers};
ghost use Rattle.solve_rounds.specs.Lows.{AreRaised, IsRaised};
ghost use Rattle.solve_rounds.specs.Guessed.{IsFound};
ghost use Rattle.solve_rounds.specs.Putting.{AreNumberedIn};
ghost use Rattle.solve_rounds.specs.Turning.{MeetsCondition, IsPickAt, IsJoinedStop, IsPart, IsSmall, IsTurned, HasSizes, IsTaken};
ghost use Rattle.solve_rounds.specs.Turning.{finite_in, is_finite, jump_item_at, jump_items_at, ray_item_of};

use crate::guessed::guessed;
use crate::halt::RoundStop;
use crate::lows::{copied, edge_of, low_of};
use crate::putting::{put_numbers, put_tops};
use crate::raised::Raised;
use base_fractions::{Ext, Frac};
use base_limits::MOST_CELLS;
use base_watch::Watch;
use cert_types::{JumpItem, JumpItems, RayItem, RayItems, Step};
use flow_systems::{Bounds, PartFault, Site, Spot, Trace};
use solve_joint::{Joined, joint, joint_cells};
use solve_offers::Stop;
use solve_ray::RateOf;
use std::alloc::Global;

// The bounds so far, and the steps of the turns in order.
#[derive(Drop)]
pub(crate) struct Turning {
    pub bounds: Bounds,
    pub steps: Vec<Step>,
}

// Whether a bound is a fraction.
fn is_fraction(bound: Ext) -> bool
    ensures { result ≡ is_finite (extended bound) }
{
    match bound {
        Ext::NegInf => false,
        Ext::Fin(_) => true,
        Ext::PosInf => false,
    }
}

/// The unknowns of a list whose bounds are fractions.
pub(crate) fn finite(alloc: Global, bounds: &Bounds, list: &[u32]) -> Result<Vec<u32>, Stop>
    requires { AreNumberedIn (length bounds.now) list.now }
    ensures list { IfOk result (λ left. left.items ≡ finite_in bounds.now list.now) }
    ensures stop { IfErr result (λ stop. stop ≡ NoMemory) }
{
    let mut left = Vec::new(alloc);
    for unknown in list {
        if is_fraction(bounds.at(*unknown)) {
            left.push(*unknown)?;
        }
    }
    Ok(left)
}

/// A list of its own with the same unknowns.
pub(crate) fn own(alloc: Global, list: &[u32]) -> Result<Vec<u32>, Stop>
    ensures list { IfOk result (λ own. own.items ≡ list.now) }
    ensures stop { IfErr result (λ stop. stop ≡ NoMemory) }
{
    let own = list.to_vec(alloc)?;
    Ok(own)
}

// The item of a jump for an unknown that was raised.
fn jump_item(
    alloc: Global,
    raises: &[Step],
    places: &[u32],
    unknown: u32,
    to: Frac,
    high: &Trace,
) -> Result<JumpItem, Stop>
    requires { IsRaised raises.now places.now unknown }
    ensures item { IfOk result (λ item. item ≡ jump_item_at raises.now places.now (unknown ∷ []) (to ∷ []) (high.now ∷ []) 0) }
    ensures stop { IfErr result (λ stop. stop ≡ NoMemory) }
{
    let raise = &raises[places[unknown as usize] as usize];
    let low = low_of(alloc, raise)?;
    let high = copied(alloc, high)?;
    Ok(JumpItem {
        unknown,
        edge: edge_of(raise),
        low,
        high,
        to,
    })
}

// The items of a jump of a list.
fn jump_items(
    alloc: Global,
    raises: &[Step],
    places: &[u32],
    list: &[u32],
    to: &[Frac],
    highs: &[Trace],
) -> Result<Vec<JumpItem>, Stop>
    requires raised { AreRaised raises.now places.now list.now }
    requires numbers { length to.now ≡ length list.now }
    requires traces { length highs.now ≡ length list.now }
    ensures items { IfOk result (λ items. items.items ≡ jump_items_at raises.now places.now list.now to.now highs.now) }
    ensures stop { IfErr result (λ stop. stop ≡ NoMemory) }
{
    let mut items = Vec::new(alloc);
    for k in 0..list.len() {
        let item = jump_item(alloc, raises, places, list[k], to[k], &highs[k])?;
        items.push(item)?;
    }
    Ok(items)
}

// The item of a ray for a rate of an unknown that was raised.
fn ray_item(alloc: Global, raises: &[Step], places: &[u32], rate: &RateOf) -> Result<RayItem, Stop>
    requires { IsRaised raises.now places.now rate.now.unknown }
    ensures item { IfOk result (λ item. item ≡ ray_item_of raises.now places.now rate.now) }
    ensures stop { IfErr result (λ stop. stop ≡ NoMemory) }
{
    let raise = &raises[places[rate.unknown as usize] as usize];
    let low = low_of(alloc, raise)?;
    let direction = copied(alloc, &rate.direction)?;
    Ok(RayItem {
        unknown: rate.unknown,
        edge: edge_of(raise),
        low,
        direction,
        rate: rate.rate,
    })
}

/// The items of a ray with these rates.
pub(crate) fn ray_items(
    alloc: Global,
    raises: &[Step],
    places: &[u32],
    rates: &[RateOf],
) -> Result<Vec<RayItem>, Stop>
    requires { AreRaised raises.now places.now (map (λ rate. rate.unknown) rates.now) }
    ensures items { IfOk result (λ items. items.items ≡ map (ray_item_of raises.now places.now) rates.now) }
    ensures stop { IfErr result (λ stop. stop ≡ NoMemory) }
{
    let mut items = Vec::new(alloc);
    for rate in rates {
        let item = ray_item(alloc, raises, places, rate)?;
        items.push(item)?;
    }
    Ok(items)
}

// The stop of a turn whose joint problem has this fault, after so many turns.
fn stop_of(fault: PartFault, turn: u32, round: u32) -> RoundStop
    ensures { (system : SystemValue) (pick : List (Option ℕ)) (bounds : List Extended) (list : List ℕ)
        → IsJointFault system pick bounds list fault → IsJoinedStop system pick bounds list turn round result }
{
    match fault {
        PartFault::Wide { part, wide } => RoundStop::Wide(Spot {
            round,
            site: Site::Joint { turn, part },
            wide,
        }),
        PartFault::NoMemory => RoundStop::NoMemory,
    }
}

// Nothing where the joint problem of a list is small enough to be solved, as any is of a system whose largest is.
fn test_size(at: &Raised, list: &[u32]) -> Result<(), RoundStop>
    requires rises { Rises 0 list.now }
    requires picked { ArePicked at.now.system.now at.now.pick.now list.now }
    ensures small { IfOk result (λ _. IsSmall at.now.system.now at.now.pick.now list.now) }
    ensures stop { (bounds : List Extended) (turn round : ℕ) → IfErr result (IsJoinedStop at.now.system.now at.now.pick.now bounds
        list.now turn round) }
{
    let cells = joint_cells(at.system, at.paths, at.pick, list);
    if cells > MOST_CELLS && at.system.cells() > MOST_CELLS {
        return Err(RoundStop::Large(cells));
    }
    Ok(())
}

// The outcome of a list at the bounds, after so many turns: a guess that passes its check, and else that of the joint problem.
fn outcome<W: Watch>(
    alloc: Global,
    at: &Raised,
    bounds: &Bounds,
    list: &[u32],
    turn: u32,
    watch: &mut W,
) -> Result<Joined, RoundStop>
    requires bounds { length bounds.now ≡ length at.now.system.now.flow.points * length at.now.system.now.template }
    requires rises { Rises 0 list.now }
    requires picked { ArePicked at.now.system.now at.now.pick.now list.now }
    requires rising { AllRising (equations_of at.now.system.now) (vector_of (length at.now.system.now.template) bounds.now)
        (all_listed at.now.system.now at.now.pick.now list.now) }
    requires raised { AreRaised at.now.raises.now at.now.places.now list.now }
    ensures found { IfOk result (IsFound at.now.system.now at.now.pick.now at.now.raises.now at.now.places.now bounds.now list.now) }
    ensures stop { IfErr result (IsJoinedStop at.now.system.now at.now.pick.now bounds.now list.now turn at.now.round) }
{
    if let Some(found) = guessed(alloc, at, bounds, list)? {
        return Ok(found);
    }
    test_size(at, list)?;
    match joint(alloc, at.system, at.paths, bounds, at.pick, list, watch) {
        Ok(joined) => Ok(joined),
        Err(fault) => Err(stop_of(fault, turn, at.round)),
    }
}

// Takes the outcome of a list: puts its step behind the others and the new bounds in place, and gives what is
// left of the list.
fn take(
    alloc: Global,
    raises: &[Step],
    places: &[u32],
    list: &[u32],
    joined: Joined,
    turning: &mut Turning,
) -> Result<Vec<u32>, Stop>
    requires within { AreNumberedIn (length turning.old.bounds) list.now }
    requires raised { AreRaised raises.now places.now list.now }
    requires sizes { HasSizes list.now joined }
    ensures taken { IfOk result (λ left. IsTaken raises.now places.now list.now joined turning.old turning.new left.items) }
    ensures stop { IfErr result (λ stop. stop ≡ NoMemory) }
{
    match joined {
        Joined::Point { to, highs } => {
            let items = jump_items(alloc, raises, places, list, to.as_slice(), highs.as_slice())?;
            put_numbers(&mut turning.bounds, list, to.as_slice());
            turning.steps.push(Step::Jump(JumpItems::new(items)))?;
            Ok(Vec::new(alloc))
        }
        Joined::Ray(rates) => {
            let items = ray_items(alloc, raises, places, rates.list.as_slice())?;
            put_tops(&mut turning.bounds, rates.list.as_slice());
            turning.steps.push(Step::Ray(RayItems::new(items)))?;
            finite(alloc, &turning.bounds, list)
        }
    }
}

/// A turn of a list of unknowns that were raised: a point sets them to their numbers, and nothing is left; a ray sets those
/// with a rate above 0 to `+inf`, and the others are left. A guess that passes its check is taken, and else the joint problem is
/// solved, if it isn't too large. The watch is told the turn's number, and of the joint problem's pivots.
pub(crate) fn turn<W: Watch>(
    alloc: Global,
    at: &Raised,
    list: &[u32],
    turning: &mut Turning,
    watch: &mut W,
) -> Result<Vec<u32>, RoundStop>
    requires bounds { length turning.old.bounds ≡ length at.now.system.now.flow.points * length at.now.system.now.template }
    requires few { length turning.old.steps.items < 4294967296 }
    requires part { IsPart at.now.system.now at.now.pick.now at.now.raises.now at.now.places.now list.now }
    requires some { 0 < length list.now }
    requires condition { MeetsCondition at.now.system.now at.now.pick.now at.now.raises.now at.now.places.now list.now turning.old.bounds }
    ensures turned { IfOk result (λ left. IsTurned at.now.system.now at.now.pick.now at.now.raises.now at.now.places.now list.now
        turning.old turning.new left.items) }
    ensures others { IfOk result (λ left. KeepsOthers list.now turning.old.bounds turning.new.bounds) }
    ensures among { IfOk result (λ left. (u : ℕ) → In left.items u → In list.now u) }
    ensures stop { IfErr result (IsJoinedStop at.now.system.now at.now.pick.now turning.old.bounds list.now (length
        turning.old.steps.items) at.now.round) }
{
    let number = turning.steps.len() as u32;
    watch.turn(number);
    let found = outcome(alloc, at, &turning.bounds, list, number, watch)?;
    let left = take(alloc, at.raises, at.places, list, found, turning)?;
    Ok(left)
}

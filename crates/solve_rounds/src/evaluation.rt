//! The round: growth, and then the joint problems of the parts of what was raised.

ghost use Rattle.std.specs.Prelude.{◌≡◌, ◌*◌, ◌+◌, ◌<◌, ◌≤◌, length, map, get_or, IfOk, IfErr};
ghost use Rattle.flow_systems.specs.View.{equations_of};
ghost use Rattle.cert_types.specs.Certificates.{step_of};
ghost use Rattle.solve_composition.specs.Composed.{AreComposed};
ghost use Rattle.solve_offers.specs.AtBounds.{IsSupportedPick, IsTightPick};
ghost use Rattle.solve_offers.specs.Known.{AreKnown, KeepsOthers};
ghost use Rattle.solve_rounds.specs.Growth.{growth_at, named_at};
ghost use Rattle.solve_rounds.specs.Round.{IsRoundAt, rounded_at, AreBoundsOf, AreAbove, AreValidFrom, IsRoundStop, IsTurnStop};
ghost use Rattle.solve_rounds.specs.Turning.{AreAllDone, ComesAfter, ComesAmong, IsDone, IsPart, IsPickAt, IsWaiting, PartsWait};

use crate::growth::{Grown, grow_from};
use crate::halt::RoundStop;
use crate::lows::places;
use crate::raised::Raised;
use crate::turning::{Turning, finite, own, turn};
use base_watch::Watch;
use cert_types::{Step, Steps};
use flow_systems::{Bounds, Pick, System};
use solve_joint::parts;
use solve_offers::Known;
use solve_transformer::Paths;
use std::alloc::Global;

// The turns of one part: of the whole list first, and then of what each ray leaves.
fn part<W: Watch>(
    alloc: Global,
    at: &Raised,
    list: &[u32],
    turning: &mut Turning,
    watch: &mut W,
) -> Result<(), RoundStop>
    requires bounds { length turning.old.bounds ≡ length at.now.system.now.flow.points * length at.now.system.now.template }
    requires few { length turning.old.steps.items + length list.now ≤ 4294967296 }
    requires part { IsPart at.now.system.now at.now.pick.now at.now.raises.now at.now.places.now list.now }
    requires waiting { IsWaiting at.now.system.now at.now.pick.now at.now.raises.now at.now.places.now list.now turning.old.bounds }
    ensures others { IfOk result (λ done. KeepsOthers list.now turning.old.bounds turning.new.bounds) }
    ensures done { IfOk result (λ done. IsDone at.now.system.now at.now.pick.now at.now.raises.now at.now.places.now list.now turning.old
        turning.new) }
    ensures stop { IfErr result (IsTurnStop at.now.system.now at.now.pick.now (ComesAfter at.now.system.now at.now.raises.now
        at.now.places.now list.now turning.old)
        at.now.round) }
{
    let mut left = own(alloc, list)?;
    while !left.is_empty() {
        left = turn(alloc, at, left.as_slice(), turning, watch)?;
    }
    Ok(())
}

// The turns of the parts of a list, in order.
fn turns<W: Watch>(
    alloc: Global,
    at: &Raised,
    list: &[u32],
    turning: &mut Turning,
    watch: &mut W,
) -> Result<(), RoundStop>
    requires bounds { length turning.old.bounds ≡ length at.now.system.now.flow.points * length at.now.system.now.template }
    requires none { length turning.old.steps.items ≡ 0 }
    requires list { IsPart at.now.system.now at.now.pick.now at.now.raises.now at.now.places.now list.now }
    requires waiting { PartsWait at.now.system.now at.now.pick.now at.now.raises.now at.now.places.now list.now turning.old.bounds }
    ensures others { IfOk result (λ done. KeepsOthers list.now turning.old.bounds turning.new.bounds) }
    ensures done { IfOk result (λ done. AreAllDone at.now.system.now at.now.pick.now at.now.raises.now at.now.places.now list.now
        turning.old turning.new) }
    ensures stop { IfErr result (IsTurnStop at.now.system.now at.now.pick.now (ComesAmong at.now.system.now at.now.pick.now
        at.now.raises.now at.now.places.now list.now
        turning.old.bounds) at.now.round) }
{
    let parts = parts(alloc, at.system, at.pick, list)?;
    for number in 0..parts.count() {
        part(alloc, at, parts.list(number), turning, watch)?;
    }
    Ok(())
}

/// The round by a pick from the bounds: the growth, and then, part by part of the unknowns that it raised to fractions, the
/// turns of joint problems. A point sets the unknowns of its list to their numbers and ends the part; a ray sets those with a
/// rate above 0 to `+inf`, and the others are solved again. The bounds are the least that are at least the old ones and closed
/// under the pick, and the pick is tight at them. Some of the transformers at the old bounds may be known already.
/// `docs/METHOD.md` has growth, parts and turns.
///
/// # Errors
///
/// `Wide` only where an operation of this round's growth or of one of its turns is too wide for a fraction: at the sites of the
/// growth, or at that of the turn, which are numbered from 0 through the round, with the part of its joint problem. `Large` only where
/// the joint problem of one of its turns has so many cells, more than `MOST_CELLS`. `NoMemory`.
pub(crate) fn round_from<W: Watch>(
    alloc: Global,
    system: &System,
    paths: &Paths,
    bounds: Bounds,
    pick: &Pick,
    round: u32,
    known: &Known,
    watch: &mut W,
) -> Result<Grown, RoundStop>
    requires composed { AreComposed (equations_of system.now) paths.now }
    requires bounds { length bounds ≡ length system.now.flow.points * length system.now.template }
    requires pick { length pick.now ≡ length system.now.flow.points * length system.now.template }
    requires supported { IsSupportedPick system.now bounds pick.now }
    requires known { AreKnown system.now bounds known.now }
    ensures steps { IfOk result (λ grown. IsRoundAt system.now bounds pick.now
        (map (step_of (length system.now.template)) grown.steps)) }
    ensures bounds { IfOk result (λ grown. AreBoundsOf system.now (rounded_at system.now bounds pick.now) grown.bounds) }
    ensures size { IfOk result (λ grown. length grown.bounds ≡ length bounds) }
    ensures above { IfOk result (λ grown. AreAbove system.now bounds pick.now grown.bounds) }
    ensures tight { IfOk result (λ grown. IsTightPick system.now grown.bounds pick.now) }
    ensures valid { IfOk result (λ grown. AreValidFrom system.now bounds (map (step_of (length system.now.template)) grown.steps)) }
    ensures others { IfOk result (λ grown. KeepsOthers grown.raised bounds grown.bounds) }
    ensures raised { IfOk result (λ grown. grown.raised ≡ named_at system.now (growth_at system.now bounds pick.now)) }
    ensures stop { IfErr result (IsRoundStop system.now bounds pick.now round) }
{
    let grown = grow_from(alloc, system, paths, bounds, pick, round, known)?;
    let mut steps = grown.steps.into_list();
    let count = grown.bounds.as_slice().len();
    let places = places(alloc, count, steps.as_slice())?;
    let list = finite(alloc, &grown.bounds, grown.raised.as_slice())?;
    let mut turning = Turning {
        bounds: grown.bounds,
        steps: Vec::new(alloc),
    };
    let at = Raised {
        system,
        paths,
        pick,
        round,
        raises: steps.as_slice(),
        places: places.as_slice(),
    };
    turns(alloc, &at, list.as_slice(), &mut turning, watch)?;
    steps.append(&mut turning.steps)?;
    Ok(Grown {
        bounds: turning.bounds,
        raised: grown.raised,
        steps: Steps::new(steps),
    })
}

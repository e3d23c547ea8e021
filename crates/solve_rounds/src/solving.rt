//! The rounds, to their end.

ghost use Rattle.std.specs.Prelude.{◌≡◌, ◌<◌, ◌≤◌, ◌+◌, ◌*◌, length, map, count_by, drop, IfOk, IfErr, IsTrue};
ghost use Rattle.std.specs.List.{list_all};
ghost use Rattle.base_limits.specs.declared.limits.TheConstants.{MOST_IMPROVEMENTS};
ghost use Rattle.lang_tree.specs.Numbers.{are_numbers};
ghost use Rattle.flow_templates.specs.Rows.{is_template};
ghost use Rattle.flow_systems.specs.Equations.{Least};
ghost use Rattle.flow_systems.specs.View.{equations_of};
ghost use Rattle.theory_validity.specs.Certificates.{ValidCertificate};
ghost use Rattle.cert_types.specs.Shaped.{IsShaped};
ghost use Rattle.theory_strategy.specs.PickCount.{pick_count};
ghost use Rattle.solve_composition.specs.Composed.{AreComposed};
ghost use Rattle.flow_systems.specs.declared.fault.Fault.TheVariants.{NoMemory};
ghost use Rattle.solve_offers.specs.AtBounds.{vector_at, IsSupportedPick};
ghost use Rattle.solve_offers.specs.Stops.{IsOfferStop};
ghost use Rattle.solve_rounds.specs.Round.{IsRoundStop};
ghost use Rattle.solve_rounds.specs.Halts.{IsHalt};
ghost use Rattle.solve_offers.specs.Known.{AreKnown};
ghost use Rattle.solve_rounds.specs.Solutions.{IsSolved, AreNumbered, cert_with, made_certificate};
ghost use Rattle.base_fractions.specs.Extended.{extended};
ghost use Rattle.solve_rounds.specs.Solving.{IsBegun, IsAdvanced, IsFinished, is_above_bottom};

use crate::evaluation::round_from;
use crate::halt::{Halt, RoundStop};
use crate::solution::Solved;
use crate::uppers::uppers_at;
use base_fractions::Ext;
use base_watch::Watch;
use cert_types::{Step, Steps};
use flow_systems::{Bounds, Pick, System};
use solve_offers::{Chooser, Known, Offering, Policy, Stop, forget, improve};
use solve_transformer::{Paths, compose_all};
use std::alloc::Global;

// The bounds, the pick and the steps so far, and the transformers that are known at the bounds.
#[derive(Drop)]
pub(crate) struct Progress {
    pub bounds: Bounds,
    pub pick: Pick,
    pub steps: Vec<Step>,
    pub known: Known,
}

// Before the first round.
fn begin(alloc: Global, system: &System) -> Result<Progress, Stop>
    ensures begun { IfOk result (IsBegun system.now) }
    ensures known { IfOk result (λ progress. AreKnown system.now progress.bounds progress.known) }
    ensures stop { IfErr result (λ stop. stop ≡ NoMemory) }
{
    Ok(Progress {
        bounds: Bounds::start(alloc, system)?,
        pick: Pick::none(alloc, system)?,
        steps: Vec::new(alloc),
        known: Known::none(alloc, system)?,
    })
}

// Makes the round by the pick.
fn advance<W: Watch>(
    alloc: Global,
    system: &System,
    paths: &Paths,
    number: u32,
    progress: Progress,
    watch: &mut W,
) -> Result<Progress, RoundStop>
    requires composed { AreComposed (equations_of system.now) paths.now }
    requires bounds { length progress.bounds ≡ length system.now.flow.points * length system.now.template }
    requires pick { length progress.pick ≡ length system.now.flow.points * length system.now.template }
    requires supported { IsSupportedPick system.now progress.bounds progress.pick }
    requires known { AreKnown system.now progress.bounds progress.known }
    ensures advanced { IfOk result (IsAdvanced system.now progress.pick progress) }
    ensures known { IfOk result (λ advanced. AreKnown system.now advanced.bounds advanced.known) }
    ensures stop { IfErr result (IsRoundStop system.now progress.bounds progress.pick number) }
{
    let pick = progress.pick;
    let mut known = progress.known;
    let mut steps = progress.steps;
    let grown = round_from(
        alloc,
        system,
        paths,
        progress.bounds,
        &pick,
        number,
        &known,
        watch,
    )?;
    let mut made = grown.steps.into_list();
    steps.append(&mut made)?;
    forget(system, grown.raised.as_slice(), &mut known);
    Ok(Progress {
        bounds: grown.bounds,
        pick,
        steps,
        known,
    })
}

// How many steps a solution may have: each has a number of 32 bits. More would take more memory than there is.
const MOST_STEPS: usize = 4_294_967_295;

// The solution that the rounds have come to.
fn finish(
    alloc: Global,
    system: &System,
    paths: &Paths,
    progress: Progress,
    made: u32,
) -> Result<Solved, Stop>
    requires composed { AreComposed (equations_of system.now) paths.now }
    requires bounds { length progress.bounds ≡ length system.now.flow.points * length system.now.template }
    requires made { made ≤ MOST_IMPROVEMENTS }
    requires known { AreKnown system.now progress.bounds progress.known }
    ensures finished { IfOk result (IsFinished system.now progress made) }
    ensures few { IfOk result (λ solved. length solved.steps < 4294967296) }
    ensures stop { IfErr result (IsOfferStop system.now progress.bounds (made + 1)) }
{
    if progress.steps.len() > MOST_STEPS {
        return Err(Stop::NoMemory);
    }
    let mut known = progress.known;
    let at = Offering {
        system,
        paths,
        bounds: &progress.bounds,
        round: made + 1,
    };
    let uppers = uppers_at(alloc, &at, &mut known)?;
    Ok(Solved {
        bounds: progress.bounds,
        improvements: made,
        steps: Steps::new(progress.steps),
        uppers,
    })
}

// Whether a bound is above `-inf`.
fn is_raised(bound: Ext) -> bool
    ensures { result ≡ is_above_bottom (extended bound) }
{
    match bound {
        Ext::NegInf => false,
        Ext::Fin(_) => true,
        Ext::PosInf => true,
    }
}

// How many of these bounds behind the first ones are above `-inf`.
fn count_raised(bounds: &[Ext], first: usize) -> usize
    ensures { result ≡ count_by (λ bound. is_above_bottom (extended bound)) (drop first bounds.now) }
{
    bounds
        .iter()
        .skip(first)
        .filter(|bound| is_raised(**bound))
        .count()
}

// How many unknowns behind the entry's rows have a bound above `-inf`.
fn raised(system: &System, bounds: &Bounds) -> u32
    requires { length bounds.now ≡ length system.now.flow.points * length system.now.template }
    ensures { result ≡ count_by is_above_bottom (drop (length system.now.template) bounds.now) }
{
    count_raised(bounds.as_slice(), system.template.as_slice().len()) as u32
}

// The template has a row, and its coefficients are within 2^63 - 1: each row knows it of itself.
fn look_at_rows(system: &System)
    ensures template { IsTrue (is_template system.now.template) }
    ensures numbers { IsTrue (list_all are_numbers system.now.template) }
{
    for row in system.template.as_slice() {
        row.as_slice();
    }
}

/// The least bounds of a system, by rounds of policy iteration: from `+inf` at the entry and `-inf` elsewhere, each round takes
/// the next pick by the chooser's function and leads to the least bounds above that are closed under it. The rounds end where no
/// transformer exceeds its bound, before there are as many rounds as picks; at most `limit` of them are made.
/// `docs/METHOD.md` has rounds, picks and certificates. The watch is told of each round, turn and thousand of pivots; what is
/// answered doesn't depend on it.
///
/// # Errors
///
/// `Spent` with the bounds after `limit` rounds, only where these are no post-solution; the limit is then below the number of
/// picks. `Wide` only where its operation is too wide for a fraction: one of the composition, in round 0, of an offer at the
/// bounds after the rounds made, in the round that would be next, or of a round made. `Large` only where the joint problem of a turn
/// of a round made has so many cells, more than `MOST_CELLS`. `NoMemory`.
pub fn least<W: Watch>(
    alloc: Global,
    system: &System,
    limit: u32,
    chooser: &Chooser,
    watch: &mut W,
) -> Result<Solved, Halt>
    requires limit { limit ≤ MOST_IMPROVEMENTS }
    ensures solved { IfOk result (IsSolved system.now (λ offer k. (shown : _) × Policy.post chooser.now.policy shown k
        × (shown.now ≡ offer)) limit) }
    ensures least { IfOk result (λ solved. Least (equations_of system.now) (vector_at system.now solved.bounds)) }
    ensures valid { IfOk result (λ solved. ValidCertificate (equations_of system.now) (made_certificate system.now solved)) }
    ensures shaped { IfOk result (λ solved. IsShaped (cert_with system.now solved)) }
    ensures numbered { IfOk result (λ solved. AreNumbered system.now solved.steps) }
    ensures halt { IfErr result (IsHalt system.now (λ offer k. (shown : _) × Policy.post chooser.now.policy shown k × (shown.now ≡ offer))
        limit) }
{
    look_at_rows(system);
    let paths = compose_all(alloc, system)?;
    let mut progress = begin(alloc, system)?;
    for made in 0..limit + 1 {
        let improved = improve(
            alloc,
            system,
            &paths,
            &progress.bounds,
            &mut progress.pick,
            made + 1,
            chooser,
            &mut progress.known,
        )?;
        if !improved {
            return Ok(finish(alloc, system, &paths, progress, made)?);
        }
        if made == limit {
            return Err(Halt::Spent(progress.bounds));
        }
        watch.round(made + 1, raised(system, &progress.bounds));
        progress = advance(alloc, system, &paths, made + 1, progress, watch)?;
    }
    unreachable!()
}

//! Unknowns that grow.

ghost use Rattle.std.specs.Prelude.{◌≡◌, ◌*◌, ◌<◌, ◌≤◌, ◌%◌, ℕ, length, get_or, IfOk, IfErr, Some, None, false, true};
ghost use Rattle.base_numbers.specs.Extended.{◌<ᴱ◌, neg_inf, pos_inf};
ghost use Rattle.base_fractions.specs.Extended.{extended};
ghost use Rattle.flow_systems.specs.View.{equations_of};
ghost use Rattle.solve_composition.specs.Composed.{AreComposed};
ghost use Rattle.solve_composition.specs.Value.{number_of};
ghost use Rattle.solve_offers.specs.AtBounds.{EdgesAreThere};
ghost use Rattle.solve_offers.specs.Outgoing.{AreLeaving};
ghost use Rattle.cert_types.specs.Certificates.{step_of};
ghost use Rattle.solve_raise.specs.Raises.{HasSizes, Rises, choice_of, raised, raise_operations};
ghost use Rattle.solve_rounds.specs.Growing.{
  IsKept,
  AreOver,
  AreQuiet,
  EdgesEnd,
  StaysUnraised,
  ArePassed,
  OthersKeep,
  IsPassStop,
  AreTested,
  IsTestStop,
  IsValueAt,
  IsValueStop,
  IsStepStop,
  bound_given,
  HasItem,
};

use crate::waking::wake;
use base_fractions::Ext;
use cert_types::Step;
use flow_systems::{Bounds, PartFault, Pick, Site, Spot, System};
use solve_offers::{Known, Stop, exceeds, is_unlimited, supremum};
use solve_raise::{RaiseFault, raise};
use solve_transformer::{Paths, Value, operator};
use std::alloc::Global;

// The bounds so far, whether each unknown was raised, whether it is quiet, whether each point is calm, and the steps of the raises in
// order. A quiet unknown was tested without a raise, and no bound at its picked edge's source has changed since: its next test would
// answer the same. At a calm point there is no unknown to be tested, so that it costs a pass no more than a look at its mark.
#[derive(Drop)]
pub(crate) struct Growing {
    pub bounds: Bounds,
    pub raised: Vec<bool>,
    pub quiet: Vec<bool>,
    pub calm: Vec<bool>,
    pub steps: Vec<Step>,
}

// The bound that a step of one item gives its unknown.
fn new_bound(step: &Step) -> Ext
    requires { HasItem step.now }
    ensures { extended result ≡ bound_given step.now }
{
    match step {
        Step::Plain(items) => Ext::Fin(items.as_slice()[0].to),
        Step::Jump(items) => Ext::Fin(items.as_slice()[0].to),
        Step::Ray(_) => Ext::PosInf,
    }
}

// The value of the transformer of an edge and a row at the bounds.
fn tested_value(
    alloc: Global,
    system: &System,
    paths: &Paths,
    bounds: &Bounds,
    edge: u32,
    row: u32,
    round: u32,
) -> Result<Value, Stop>
    requires composed { AreComposed (equations_of system.now) paths.now }
    requires bounds { length bounds.now ≡ length system.now.flow.points * length system.now.template }
    requires edge { edge < length system.now.flow.edges }
    requires row { row < length system.now.template }
    ensures value { IfOk result (IsValueAt system.now bounds.now edge row) }
    ensures stop { IfErr result (IsValueStop system.now bounds.now edge row round) }
{
    match operator(alloc, system, paths, bounds, edge, row) {
        Ok(value) => Ok(value),
        Err(PartFault::Wide { part, wide }) => Err(Stop::Wide(Spot {
            round,
            site: Site::Growth { edge, row, part },
            wide,
        })),
        Err(PartFault::NoMemory) => Err(Stop::NoMemory),
    }
}

// The step that raises an unknown towards the value of its picked edge, which exceeds its bound, after so many raises.
fn raising_step(
    alloc: Global,
    system: &System,
    unknown: u32,
    edge: u32,
    bound: Ext,
    value: Value,
    round: u32,
    raises: u32,
) -> Result<Step, Stop>
    requires unknown { unknown < length system.now.flow.points * length system.now.template }
    requires edge { edge < length system.now.flow.edges }
    requires exceeds { extended bound <ᴱ number_of value }
    requires sizes { HasSizes (equations_of system.now) (choice_of (length system.now.template) unknown edge) value }
    requires rises { Rises (equations_of system.now) (choice_of (length system.now.template) unknown edge) value }
    ensures step { IfOk result (λ step. step_of (length system.now.template) step ≡ raised (equations_of system.now)
        (choice_of (length system.now.template) unknown edge) (extended bound) value) }
    ensures stop { IfErr result (IsStepStop
        (raise_operations (equations_of system.now) (choice_of (length system.now.template) unknown edge) (extended bound) value) raises
        round) }
{
    match raise(alloc, system, unknown, edge, bound, value) {
        Ok(step) => Ok(step),
        Err(RaiseFault::Wide(wide)) => Err(Stop::Wide(Spot {
            round,
            site: Site::Raise { raise: raises },
            wide,
        })),
        Err(RaiseFault::NoMemory) => Err(Stop::NoMemory),
    }
}

// Tests an unraised unknown below `+inf` with a pick, and raises it where the picked transformer exceeds its bound. Tells whether it
// did.
fn test_picked(
    alloc: Global,
    system: &System,
    paths: &Paths,
    pick: &Pick,
    edge: u32,
    known: &Known,
    round: u32,
    unknown: u32,
    growing: &mut Growing,
) -> Result<bool, Stop>
    requires composed { AreComposed (equations_of system.now) paths.now }
    requires pick { length pick.now ≡ length system.now.flow.points * length system.now.template }
    requires edges { EdgesAreThere system.now pick.now }
    requires ends { EdgesEnd system.now pick.now }
    requires leaving { AreLeaving system.now known.now.outgoing }
    requires edge { get_or pick.now unknown None ≡ Some edge }
    requires kept { IsKept system.now growing.old }
    requires quiet { AreQuiet system.now pick.now growing.old }
    requires unknown { unknown < length system.now.flow.points * length system.now.template }
    requires limited { get_or growing.old.bounds unknown neg_inf <ᴱ pos_inf }
    requires unraised { get_or growing.old.raised.items unknown false ≡ false }
    requires awake { get_or growing.old.quiet.items unknown false ≡ false }
    ensures kept { IfOk result (λ told. IsKept system.now growing.new) }
    ensures quiet { IfOk result (λ told. AreQuiet system.now pick.now growing.new) }
    ensures tested { IfOk result (AreTested system.now edge unknown growing.old growing.new) }
    ensures stays { IfOk result (λ told. StaysUnraised growing.old growing.new) }
    ensures stop { IfErr result (IsTestStop system.now edge unknown growing.old round) }
{
    let rows = system.template.as_slice().len() as u32;
    let value = tested_value(
        alloc,
        system,
        paths,
        &growing.bounds,
        edge,
        unknown % rows,
        round,
    )?;
    if !exceeds(supremum(&value), growing.bounds.at(unknown)) {
        growing.quiet[unknown as usize] = true;
        return Ok(false);
    }
    let bound = growing.bounds.at(unknown);
    let raises = growing.steps.len() as u32;
    let step = raising_step(alloc, system, unknown, edge, bound, value, round, raises)?;
    growing.bounds.set(unknown, new_bound(&step));
    growing.raised[unknown as usize] = true;
    growing.steps.push(step)?;
    wake(system, pick, known, unknown / rows, growing);
    Ok(true)
}

// Tests an unknown unless it has no pick, was raised, is quiet or is at `+inf`, which nothing exceeds. Tells whether it was raised
// now.
fn test(
    alloc: Global,
    system: &System,
    paths: &Paths,
    pick: &Pick,
    known: &Known,
    round: u32,
    unknown: u32,
    growing: &mut Growing,
) -> Result<bool, Stop>
    requires composed { AreComposed (equations_of system.now) paths.now }
    requires pick { length pick.now ≡ length system.now.flow.points * length system.now.template }
    requires edges { EdgesAreThere system.now pick.now }
    requires ends { EdgesEnd system.now pick.now }
    requires leaving { AreLeaving system.now known.now.outgoing }
    requires kept { IsKept system.now growing.old }
    requires quiet { AreQuiet system.now pick.now growing.old }
    requires unknown { unknown < length system.now.flow.points * length system.now.template }
    ensures kept { IfOk result (λ told. IsKept system.now growing.new) }
    ensures quiet { IfOk result (λ told. AreQuiet system.now pick.now growing.new) }
    ensures others { IfOk result (λ told. OthersKeep unknown 1 growing.old growing.new) }
    ensures passed { IfOk result (ArePassed system.now pick.now unknown 1 growing.old growing.new) }
    ensures over { IfOk result (λ told. told ≡ false → AreOver system.now pick.now unknown 1 growing.old growing.new) }
    ensures stays { IfOk result (λ told. StaysUnraised growing.old growing.new) }
    ensures stop { IfErr result (IsPassStop system.now pick.now unknown 1 growing.old round) }
{
    if growing.raised[unknown as usize] {
        return Ok(false);
    }
    if growing.quiet[unknown as usize] {
        return Ok(false);
    }
    if is_unlimited(growing.bounds.at(unknown)) {
        return Ok(false);
    }
    match pick.at(unknown) {
        Some(edge) => test_picked(
            alloc, system, paths, pick, edge, known, round, unknown, growing,
        ),
        None => Ok(false),
    }
}

// Tests the unknowns of a point in order. Tells whether one was raised.
fn test_point(
    alloc: Global,
    system: &System,
    paths: &Paths,
    pick: &Pick,
    known: &Known,
    round: u32,
    point: u32,
    growing: &mut Growing,
) -> Result<bool, Stop>
    requires composed { AreComposed (equations_of system.now) paths.now }
    requires pick { length pick.now ≡ length system.now.flow.points * length system.now.template }
    requires edges { EdgesAreThere system.now pick.now }
    requires ends { EdgesEnd system.now pick.now }
    requires leaving { AreLeaving system.now known.now.outgoing }
    requires kept { IsKept system.now growing.old }
    requires quiet { AreQuiet system.now pick.now growing.old }
    requires point { point < length system.now.flow.points }
    ensures kept { IfOk result (λ told. IsKept system.now growing.new) }
    ensures quiet { IfOk result (λ told. AreQuiet system.now pick.now growing.new) }
    ensures others { IfOk result (λ told. OthersKeep (point * length system.now.template) (length system.now.template) growing.old
        growing.new) }
    ensures passed { IfOk result (ArePassed system.now pick.now (point * length system.now.template) (length system.now.template)
        growing.old growing.new) }
    ensures over { IfOk result (λ told. told ≡ false → AreOver system.now pick.now (point * length system.now.template)
        (length system.now.template) growing.old growing.new) }
    ensures stays { IfOk result (λ told. StaysUnraised growing.old growing.new) }
    ensures stop { IfErr result (IsPassStop system.now pick.now (point * length system.now.template) (length system.now.template)
        growing.old round) }
{
    let rows = system.template.as_slice().len() as u32;
    let mut told = false;
    for row in 0..rows {
        if test(
            alloc,
            system,
            paths,
            pick,
            known,
            round,
            point * rows + row,
            growing,
        )? {
            told = true;
        }
    }
    Ok(told)
}

// Passes the unknowns of a point: a calm one has none to be tested, and one where none was raised is calm from then on. Tells
// whether one was raised.
fn pass_point(
    alloc: Global,
    system: &System,
    paths: &Paths,
    pick: &Pick,
    known: &Known,
    round: u32,
    point: u32,
    growing: &mut Growing,
) -> Result<bool, Stop>
    requires composed { AreComposed (equations_of system.now) paths.now }
    requires pick { length pick.now ≡ length system.now.flow.points * length system.now.template }
    requires edges { EdgesAreThere system.now pick.now }
    requires ends { EdgesEnd system.now pick.now }
    requires leaving { AreLeaving system.now known.now.outgoing }
    requires kept { IsKept system.now growing.old }
    requires quiet { AreQuiet system.now pick.now growing.old }
    requires point { point < length system.now.flow.points }
    ensures kept { IfOk result (λ told. IsKept system.now growing.new) }
    ensures quiet { IfOk result (λ told. AreQuiet system.now pick.now growing.new) }
    ensures others { IfOk result (λ told. OthersKeep (point * length system.now.template) (length system.now.template) growing.old
        growing.new) }
    ensures passed { IfOk result (ArePassed system.now pick.now (point * length system.now.template) (length system.now.template)
        growing.old growing.new) }
    ensures stays { IfOk result (λ told. StaysUnraised growing.old growing.new) }
    ensures stop { IfErr result (IsPassStop system.now pick.now (point * length system.now.template) (length system.now.template)
        growing.old round) }
{
    if growing.calm[point as usize] {
        return Ok(false);
    }
    let told = test_point(alloc, system, paths, pick, known, round, point, growing)?;
    if !told {
        growing.calm[point as usize] = true;
    }
    Ok(told)
}

// Passes all unknowns in order. Tells whether one was raised.
pub(crate) fn pass(
    alloc: Global,
    system: &System,
    paths: &Paths,
    pick: &Pick,
    known: &Known,
    round: u32,
    growing: &mut Growing,
) -> Result<bool, Stop>
    requires composed { AreComposed (equations_of system.now) paths.now }
    requires pick { length pick.now ≡ length system.now.flow.points * length system.now.template }
    requires edges { EdgesAreThere system.now pick.now }
    requires ends { EdgesEnd system.now pick.now }
    requires leaving { AreLeaving system.now known.now.outgoing }
    requires kept { IsKept system.now growing.old }
    requires quiet { AreQuiet system.now pick.now growing.old }
    ensures kept { IfOk result (λ told. IsKept system.now growing.new) }
    ensures quiet { IfOk result (λ told. AreQuiet system.now pick.now growing.new) }
    ensures passed { IfOk result (ArePassed system.now pick.now 0 (length system.now.flow.points * length system.now.template) growing.old
        growing.new) }
    ensures stays { IfOk result (λ told. StaysUnraised growing.old growing.new) }
    ensures stop { IfErr result (IsPassStop system.now pick.now 0 (length system.now.flow.points * length system.now.template) growing.old
        round) }
{
    let mut told = false;
    for point in 0..system.flow.points.as_slice().len() as u32 {
        if pass_point(alloc, system, paths, pick, known, round, point, growing)? {
            told = true;
        }
    }
    Ok(told)
}

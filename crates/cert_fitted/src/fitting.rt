//! The steps and the evidence for which written ones stand where their system is known.
#![tactic(auto, using(crate::proofs::lists::Maps::map_push))]

ghost use Rattle.std.specs.Prelude.{◌≡◌, IfOk, length, map};
ghost use Rattle.flow_systems.specs.View.{equations_of};
ghost use Rattle.cert_fitted.specs.Fitted.{item_for, jump_item_for, ray_item_for, row_for, rows_for, step_for, trace_for, upper_for};
ghost use Rattle.cert_written.specs.Entries.{entries_for};

use crate::lists::entries_for;
use crate::needed::frees_at;
use base_fractions::Frac;
use cert_types as fitted;
use cert_types::{Items, JumpItems, RayItems, Rows, Step, Upper};
use cert_written as written;
use cert_written::Entries;
use flow_systems::{Fracs, System, Trace};
use lang_tree::Coeffs;
use std::alloc::{AllocError, Global};

// The numerators of fractions.
fn numerators(alloc: Global, list: &[Frac]) -> Result<Coeffs, AllocError>
    ensures { IfOk result (λ row. row ≡ map (λ q. q.num) list.now) }
{
    let mut row = Vec::new(alloc);
    for number in list {
        row.push(number.num())?;
    }
    Ok(Coeffs::new(row))
}

// A row of the template.
fn row_for(alloc: Global, vars: usize, row: &Entries) -> Result<Coeffs, AllocError>
    ensures { IfOk result (λ made. made ≡ row_for vars row.now) }
{
    let list = entries_for(alloc, vars, row)?;
    numerators(alloc, list.as_slice())
}

/// The rows of a written certificate as rows over so many variables.
pub fn fitted_rows(alloc: Global, vars: usize, rows: &[Entries]) -> Result<Rows, AllocError>
    ensures { IfOk result (λ made. made ≡ rows_for vars rows.now) }
{
    let mut list = Vec::new(alloc);
    for row in rows {
        list.push(row_for(alloc, vars, row)?)?;
    }
    Ok(Rows::new(list))
}

// A trace along an edge.
fn trace_for(
    alloc: Global,
    system: &System,
    edge: u32,
    trace: &written::Trace,
) -> Result<Trace, AllocError>
    ensures { IfOk result (λ made. made ≡ trace_for (equations_of system.now) edge trace.now) }
{
    let vars = system.flow.names.as_slice().len();
    let start = entries_for(alloc, vars, &trace.start)?;
    let free = entries_for(alloc, frees_at(system, edge), &trace.free)?;
    Ok(Trace {
        start: Fracs::new(start),
        free: Fracs::new(free),
    })
}

// An item of a plain step.
fn item_for(
    alloc: Global,
    system: &System,
    item: &written::Item,
) -> Result<fitted::Item, AllocError>
    ensures { IfOk result (λ made. made ≡ item_for (equations_of system.now) item.now) }
{
    let low = trace_for(alloc, system, item.edge, &item.low)?;
    Ok(fitted::Item {
        unknown: item.unknown,
        edge: item.edge,
        low,
        to: item.to,
    })
}

// The items of a plain step.
fn items_for(alloc: Global, system: &System, items: &[written::Item]) -> Result<Items, AllocError>
    ensures { IfOk result (λ made. made ≡ map (item_for (equations_of system.now)) items.now) }
{
    let mut list = Vec::new(alloc);
    for item in items {
        list.push(item_for(alloc, system, item)?)?;
    }
    Ok(Items::new(list))
}

// An item of a jump.
fn jump_item_for(
    alloc: Global,
    system: &System,
    item: &written::JumpItem,
) -> Result<fitted::JumpItem, AllocError>
    ensures { IfOk result (λ made. made ≡ jump_item_for (equations_of system.now) item.now) }
{
    let low = trace_for(alloc, system, item.edge, &item.low)?;
    let high = trace_for(alloc, system, item.edge, &item.high)?;
    Ok(fitted::JumpItem {
        unknown: item.unknown,
        edge: item.edge,
        low,
        high,
        to: item.to,
    })
}

// The items of a jump.
fn jump_items_for(
    alloc: Global,
    system: &System,
    items: &[written::JumpItem],
) -> Result<JumpItems, AllocError>
    ensures { IfOk result (λ made. made ≡ map (jump_item_for (equations_of system.now)) items.now) }
{
    let mut list = Vec::new(alloc);
    for item in items {
        list.push(jump_item_for(alloc, system, item)?)?;
    }
    Ok(JumpItems::new(list))
}

// An item of a ray.
fn ray_item_for(
    alloc: Global,
    system: &System,
    item: &written::RayItem,
) -> Result<fitted::RayItem, AllocError>
    ensures { IfOk result (λ made. made ≡ ray_item_for (equations_of system.now) item.now) }
{
    let low = trace_for(alloc, system, item.edge, &item.low)?;
    let direction = trace_for(alloc, system, item.edge, &item.direction)?;
    Ok(fitted::RayItem {
        unknown: item.unknown,
        edge: item.edge,
        low,
        direction,
        rate: item.rate,
    })
}

// The items of a ray.
fn ray_items_for(
    alloc: Global,
    system: &System,
    items: &[written::RayItem],
) -> Result<RayItems, AllocError>
    ensures { IfOk result (λ made. made ≡ map (ray_item_for (equations_of system.now)) items.now) }
{
    let mut list = Vec::new(alloc);
    for item in items {
        list.push(ray_item_for(alloc, system, item)?)?;
    }
    Ok(RayItems::new(list))
}

/// A step.
pub(crate) fn step_for(
    alloc: Global,
    system: &System,
    step: &written::Step,
) -> Result<Step, AllocError>
    ensures { IfOk result (λ made. made ≡ step_for (equations_of system.now) step.now) }
{
    match step {
        written::Step::Plain(items) => {
            Ok(Step::Plain(items_for(alloc, system, items.as_slice())?))
        }
        written::Step::Jump(items) => {
            Ok(Step::Jump(jump_items_for(alloc, system, items.as_slice())?))
        }
        written::Step::Ray(items) => {
            Ok(Step::Ray(ray_items_for(alloc, system, items.as_slice())?))
        }
    }
}

// A list of multipliers.
fn multipliers(alloc: Global, count: usize, list: &Entries) -> Result<Fracs, AllocError>
    ensures { IfOk result (λ made. made ≡ entries_for count list.now) }
{
    Ok(Fracs::new(entries_for(alloc, count, list)?))
}

/// Evidence where there are so many rows and so many guards.
pub(crate) fn upper_for(
    alloc: Global,
    rows: usize,
    guards: usize,
    upper: &written::Upper,
) -> Result<Upper, AllocError>
    ensures { IfOk result (λ made. made ≡ upper_for rows guards upper.now) }
{
    match upper {
        written::Upper::Unreached { row } => Ok(Upper::Unreached { row: *row }),
        written::Upper::Empty { rows: r, guards: g } => {
            let r = multipliers(alloc, rows, r)?;
            let g = multipliers(alloc, guards, g)?;
            Ok(Upper::Empty { rows: r, guards: g })
        }
        written::Upper::Bound { rows: r, guards: g } => {
            let r = multipliers(alloc, rows, r)?;
            let g = multipliers(alloc, guards, g)?;
            Ok(Upper::Bound { rows: r, guards: g })
        }
    }
}

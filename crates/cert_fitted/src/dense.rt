//! A certificate as one that is written, with all entries of its lists.
#![tactic(auto, using(crate::proofs::lists::Maps::map_push))]

ghost use Rattle.std.specs.Prelude.{◌≡◌, IfOk, IsTrue, map};
ghost use Rattle.base_numbers.specs.Rational.{whole};
ghost use Rattle.lang_tree.specs.Numbers.{are_numbers};
ghost use Rattle.cert_fitted.specs.Dense.{dense_cert, dense_item, dense_jump_item, dense_ray_item, dense_row, dense_step};
ghost use Rattle.cert_fitted.specs.Dense.{dense_trace, dense_upper};
ghost use Rattle.cert_written.specs.declared.entries.Entries.TheVariants.{Dense};

use cert_types::{Cert, Item, JumpItem, RayItem, Step, Upper};
use cert_written as written;
use cert_written::Entries;
use flow_systems::{Bounds, Fracs, Trace, fraction};
use lang_tree::Coeffs;
use std::alloc::{AllocError, Global};

// Whole numbers as fractions.
fn wholes(alloc: Global, row: &[i64]) -> Result<Fracs, AllocError>
    requires { IsTrue (are_numbers row.now) }
    ensures { IfOk result (λ list. list ≡ map whole row.now) }
{
    let mut list = Vec::new(alloc);
    for number in row {
        list.push(fraction(*number))?;
    }
    Ok(Fracs::new(list))
}

// A row of the template.
fn row_of(alloc: Global, row: &Coeffs) -> Result<Entries, AllocError>
    ensures { IfOk result (λ made. made ≡ dense_row row.now) }
{
    Ok(Entries::Dense(wholes(alloc, row.as_slice())?))
}

// The rows of the template.
fn rows_of(alloc: Global, rows: &[Coeffs]) -> Result<written::Rows, AllocError>
    ensures { IfOk result (λ made. made ≡ map dense_row rows.now) }
{
    let mut list = Vec::new(alloc);
    for row in rows {
        list.push(row_of(alloc, row)?)?;
    }
    Ok(written::Rows::new(list))
}

// A list with all its entries.
fn list_of(alloc: Global, list: &Fracs) -> Result<Entries, AllocError>
    ensures { IfOk result (λ made. made ≡ Dense list.now) }
{
    Ok(Entries::Dense(Fracs::new(list.as_slice().to_vec(alloc)?)))
}

// A trace.
fn trace_of(alloc: Global, trace: &Trace) -> Result<written::Trace, AllocError>
    ensures { IfOk result (λ made. made ≡ dense_trace trace.now) }
{
    let start = list_of(alloc, &trace.start)?;
    let free = list_of(alloc, &trace.free)?;
    Ok(written::Trace { start, free })
}

// An item of a plain step.
fn item_of(alloc: Global, item: &Item) -> Result<written::Item, AllocError>
    ensures { IfOk result (λ made. made ≡ dense_item item.now) }
{
    Ok(written::Item {
        unknown: item.unknown,
        edge: item.edge,
        low: trace_of(alloc, &item.low)?,
        to: item.to,
    })
}

// The items of a plain step.
fn items_of(alloc: Global, items: &[Item]) -> Result<written::Items, AllocError>
    ensures { IfOk result (λ made. made ≡ map dense_item items.now) }
{
    let mut list = Vec::new(alloc);
    for item in items {
        list.push(item_of(alloc, item)?)?;
    }
    Ok(written::Items::new(list))
}

// An item of a jump.
fn jump_item_of(alloc: Global, item: &JumpItem) -> Result<written::JumpItem, AllocError>
    ensures { IfOk result (λ made. made ≡ dense_jump_item item.now) }
{
    Ok(written::JumpItem {
        unknown: item.unknown,
        edge: item.edge,
        low: trace_of(alloc, &item.low)?,
        high: trace_of(alloc, &item.high)?,
        to: item.to,
    })
}

// The items of a jump.
fn jump_items_of(alloc: Global, items: &[JumpItem]) -> Result<written::JumpItems, AllocError>
    ensures { IfOk result (λ made. made ≡ map dense_jump_item items.now) }
{
    let mut list = Vec::new(alloc);
    for item in items {
        list.push(jump_item_of(alloc, item)?)?;
    }
    Ok(written::JumpItems::new(list))
}

// An item of a ray.
fn ray_item_of(alloc: Global, item: &RayItem) -> Result<written::RayItem, AllocError>
    ensures { IfOk result (λ made. made ≡ dense_ray_item item.now) }
{
    Ok(written::RayItem {
        unknown: item.unknown,
        edge: item.edge,
        low: trace_of(alloc, &item.low)?,
        direction: trace_of(alloc, &item.direction)?,
        rate: item.rate,
    })
}

// The items of a ray.
fn ray_items_of(alloc: Global, items: &[RayItem]) -> Result<written::RayItems, AllocError>
    ensures { IfOk result (λ made. made ≡ map dense_ray_item items.now) }
{
    let mut list = Vec::new(alloc);
    for item in items {
        list.push(ray_item_of(alloc, item)?)?;
    }
    Ok(written::RayItems::new(list))
}

// A step.
fn step_of(alloc: Global, step: &Step) -> Result<written::Step, AllocError>
    ensures { IfOk result (λ made. made ≡ dense_step step.now) }
{
    match step {
        Step::Plain(items) => Ok(written::Step::Plain(items_of(alloc, items.as_slice())?)),
        Step::Jump(items) => Ok(written::Step::Jump(jump_items_of(alloc, items.as_slice())?)),
        Step::Ray(items) => Ok(written::Step::Ray(ray_items_of(alloc, items.as_slice())?)),
    }
}

// The steps.
fn steps_of(alloc: Global, steps: &[Step]) -> Result<written::Steps, AllocError>
    ensures { IfOk result (λ made. made ≡ map dense_step steps.now) }
{
    let mut list = Vec::new(alloc);
    for step in steps {
        list.push(step_of(alloc, step)?)?;
    }
    Ok(written::Steps::new(list))
}

// Evidence.
fn upper_of(alloc: Global, upper: &Upper) -> Result<written::Upper, AllocError>
    ensures { IfOk result (λ made. made ≡ dense_upper upper.now) }
{
    match upper {
        Upper::Unreached { row } => Ok(written::Upper::Unreached { row: *row }),
        Upper::Empty { rows, guards } => {
            let rows = list_of(alloc, rows)?;
            let guards = list_of(alloc, guards)?;
            Ok(written::Upper::Empty { rows, guards })
        }
        Upper::Bound { rows, guards } => {
            let rows = list_of(alloc, rows)?;
            let guards = list_of(alloc, guards)?;
            Ok(written::Upper::Bound { rows, guards })
        }
    }
}

// The evidence.
fn uppers_of(alloc: Global, uppers: &[Upper]) -> Result<written::Uppers, AllocError>
    ensures { IfOk result (λ made. made ≡ map dense_upper uppers.now) }
{
    let mut list = Vec::new(alloc);
    for upper in uppers {
        list.push(upper_of(alloc, upper)?)?;
    }
    Ok(written::Uppers::new(list))
}

/// The certificate as one that is written, with all entries of its lists.
pub fn dense_cert(alloc: Global, cert: &Cert) -> Result<written::Cert, AllocError>
    ensures { IfOk result (λ made. made ≡ dense_cert cert.now) }
{
    let rows = rows_of(alloc, cert.rows.as_slice())?;
    let bounds = Bounds::new(cert.bounds.as_slice().to_vec(alloc)?);
    let steps = steps_of(alloc, cert.steps.as_slice())?;
    let uppers = uppers_of(alloc, cert.uppers.as_slice())?;
    Ok(written::Cert {
        rows,
        bounds,
        steps,
        uppers,
    })
}

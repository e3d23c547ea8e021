//! How the states before the picked edges go on along a ray.

use crate::asked::Asked;
use crate::columns::Columns;
use crate::halt::Halt;
use crate::reached::entry;
use crate::shaped::Shaped;
use base_fractions::{Ext, Frac, OrderedField};
use flow_systems::{Fracs, Trace};
use lp_dictionary::Dict;
use lp_simplex::{Outcome, Row};
use solve_composition::Affine;
use solve_ray::{RateList, RateOf, Rates};
use solve_transformer::{split_coeffs, split_row};
use std::alloc::Global;

// What the bound of an unknown changes by for each unit of a ray; nothing where it is no number.
fn change(asked: Asked<'_>, columns: &Columns, ray: &[Frac], unknown: usize) -> Option<Frac> {
    match asked.bounds.as_slice().get(unknown) {
        Some(Ext::Fin(_)) => match columns.at(unknown) {
            Some(column) => Some(entry(ray, column)),
            None => Some(Frac::zero()),
        },
        _ => None,
    }
}

// Adds the rows of the point whose unknowns are numbered from a first one on.
fn add_source(
    alloc: Global,
    asked: Asked<'_>,
    columns: &Columns,
    ray: &[Frac],
    first: usize,
    problem: &mut Shaped,
) -> Result<(), Halt> {
    for (k, row) in asked.system.template.as_slice().iter().enumerate() {
        if let Some(side) = change(asked, columns, ray, first.saturating_add(k)) {
            let coeffs = split_row(alloc, row.as_slice(), problem.columns() / 2)?;
            problem.add(Row { coeffs, side })?;
        }
    }
    Ok(())
}

// Adds the rows of guards, which don't change along a ray.
fn add_guards(alloc: Global, guards: &[Affine], problem: &mut Shaped) -> Result<(), Halt> {
    for guard in guards {
        let coeffs = split_coeffs(alloc, guard.coeffs.as_slice())?;
        let side = Frac::zero();
        problem.add(Row { coeffs, side })?;
    }
    Ok(())
}

// So many entries of split columns from a first one on.
fn joined(alloc: Global, point: &[Frac], first: usize, count: usize) -> Result<Fracs, Halt> {
    let mut list = Vec::with_capacity(alloc, count)?;
    for i in 0..count {
        let column = first.saturating_add(i).saturating_mul(2);
        let number = entry(point, column).minus(entry(point, column.saturating_add(1)))?;
        list.push(number)?;
    }
    Ok(Fracs::new(list))
}

// The problem of the steepest direction of an unknown's picked edge along a ray.
fn steepest(
    alloc: Global,
    asked: Asked<'_>,
    columns: &Columns,
    ray: &[Frac],
    unknown: u32,
) -> Result<Shaped, Halt> {
    let edge = asked.edge(unknown)?;
    let rows = asked.system.template.as_slice().len();
    let first = asked.system.flow.edges.as_slice()[edge as usize].from as usize * rows;
    let path = asked.paths.path(edge);
    let row = unknown % rows as u32;
    let goal = match path.rows.as_slice().get(row as usize) {
        Some(form) => split_coeffs(alloc, form.coeffs.as_slice())?,
        None => return Err(Halt::GivenUp),
    };
    let mut problem = Shaped::new(alloc, goal)?;
    add_source(alloc, asked, columns, ray, first, &mut problem)?;
    add_guards(alloc, path.guards.as_slice(), &mut problem)?;
    Ok(problem)
}

// A direction of the states before an unknown's picked edge along which the unknown grows at least at this rate.
fn direction(alloc: Global, asked: Asked<'_>, problem: &Shaped, rate: Frac) -> Result<Trace, Halt> {
    let variables = asked.system.flow.names.as_slice().len();
    let width = problem.columns() / 2;
    match problem.outcome::<Dict<Frac>>(alloc)? {
        Outcome::Best { point, value, .. } => {
            if value < rate {
                return Err(Halt::GivenUp);
            }
            let start = joined(alloc, point.as_slice(), 0, variables)?;
            let free = joined(
                alloc,
                point.as_slice(),
                variables,
                width.saturating_sub(variables),
            )?;
            Ok(Trace { start, free })
        }
        _ => Err(Halt::GivenUp),
    }
}

/// The unknowns that grow along a ray of the master problem, each with its rate and a direction of the states before its picked edge.
pub fn rates(
    alloc: Global,
    asked: Asked<'_>,
    columns: &Columns,
    ray: &[Frac],
) -> Result<Rates, Halt> {
    let mut list = Vec::new(alloc);
    for (place, unknown) in asked.list.iter().enumerate() {
        let rate = entry(ray, place);
        if Frac::zero() < rate {
            let problem = steepest(alloc, asked, columns, ray, *unknown)?;
            let direction = direction(alloc, asked, &problem, rate)?;
            list.push(RateOf {
                unknown: *unknown,
                rate,
                direction,
            })?;
        }
    }
    Ok(Rates {
        list: RateList::new(list),
    })
}

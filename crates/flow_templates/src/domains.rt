//! The templates that serve any program: intervals, zones and octagons.

ghost use Rattle.std.specs.Prelude.{◌≡◌, ◌≢◌, ◌+◌, ◌-◌, ◌*◌, ◌<◌, ◌≤◌, ◌++◌, length, Ok, Err, IfOk, IfErr, OnOk, IsTrue};
ghost use Rattle.std.specs.List.{range_with_len, flat_map};
ghost use Rattle.lang_tree.specs.Numbers.{is_number};
ghost use Rattle.flow_templates.specs.Rows.{width_of};
ghost use Rattle.flow_templates.specs.Domains.{multiple, combination, intervals_of, difference, zones_of, signed_sums, octagons_of, ready};
ghost use Rattle.flow_templates.specs.declared.fault.RowFault.TheVariants.{NoMemory};
ghost use Rattle.lang_tree.specs.declared.limits.TheConstants.{MOST_VARIABLES};

use crate::fault::RowFault;
use crate::limits::MOST_ROWS;
use crate::template::Template;
use lang_tree::Coeffs;
use std::alloc::{AllocError, Global};

/// The row of `c` times one of so many variables.
///
/// It fails for want of memory alone.
pub fn multiple(alloc: Global, vars: u32, c: i64, var: u32) -> Result<Coeffs, AllocError>
    requires { IsTrue (is_number c) }
    ensures { IfOk result (λ row. row ≡ multiple vars c var) }
{
    let mut list = Vec::new(alloc);
    for k in 0..vars {
        list.push(if k == var { c } else { 0 })?;
    }
    Ok(Coeffs::new(list))
}

// The row of `c` times one variable plus `d` times another one.
fn combination(
    alloc: Global,
    vars: u32,
    c: i64,
    first: u32,
    d: i64,
    second: u32,
) -> Result<Coeffs, AllocError>
    requires different { first ≢ second }
    requires c_number { IsTrue (is_number c) }
    requires d_number { IsTrue (is_number d) }
    ensures { IfOk result (λ row. row ≡ combination vars c first d second) }
{
    let mut list = Vec::new(alloc);
    for k in 0..vars {
        let coefficient = if k == first {
            c
        } else if k == second {
            d
        } else {
            0
        };
        list.push(coefficient)?;
    }
    Ok(Coeffs::new(list))
}

/// The rows `x` and `-x` for each variable `x`: of any number of variables, as a beginning of longer lists of rows.
///
/// It fails for want of memory alone.
pub fn interval_rows(alloc: Global, vars: u32) -> Result<Vec<Coeffs>, AllocError>
    ensures { IfOk result (λ rows. rows.items ≡ intervals_of vars) }
{
    let mut rows = Vec::new(alloc);
    for var in 0..vars {
        rows.push(multiple(alloc, vars, 1, var)?)?;
        rows.push(multiple(alloc, vars, -1, var)?)?;
    }
    Ok(rows)
}

// Appends the difference of a variable and each other one.
fn add_differences(
    alloc: Global,
    rows: &mut Vec<Coeffs>,
    vars: u32,
    first: u32,
) -> Result<(), AllocError>
    ensures { OnOk result (rows.new.items ≡ rows.old.items ++ flat_map (difference vars first) (range_with_len 0 vars)) }
{
    for second in 0..vars {
        if first != second {
            rows.push(combination(alloc, vars, 1, first, -1, second)?)?;
        }
    }
    Ok(())
}

/// Appends the four signed sums of a variable and a later one: `x + y`, `x - y`, `-x + y` and `-x - y`.
///
/// It fails for want of memory alone.
pub fn add_signed_sums(
    alloc: Global,
    rows: &mut Vec<Coeffs>,
    vars: u32,
    first: u32,
    second: u32,
) -> Result<(), AllocError>
    requires { first < second }
    ensures { OnOk result (rows.new.items ≡ rows.old.items ++ signed_sums vars first second) }
{
    rows.push(combination(alloc, vars, 1, first, 1, second)?)?;
    rows.push(combination(alloc, vars, 1, first, -1, second)?)?;
    rows.push(combination(alloc, vars, -1, first, 1, second)?)?;
    rows.push(combination(alloc, vars, -1, first, -1, second)?)?;
    Ok(())
}

// Appends the signed sums of a variable and each later one.
fn add_all_signed_sums(
    alloc: Global,
    rows: &mut Vec<Coeffs>,
    vars: u32,
    first: u32,
) -> Result<(), AllocError>
    ensures { OnOk result (rows.new.items ≡ rows.old.items ++ flat_map (signed_sums vars first) (range_with_len 0 vars)) }
{
    for second in 0..vars {
        if first < second {
            add_signed_sums(alloc, rows, vars, first, second)?;
        }
    }
    Ok(())
}

// The rows of intervals, and then the difference of each ordered pair of different variables.
fn zone_rows(alloc: Global, vars: u32) -> Result<Vec<Coeffs>, AllocError>
    ensures { IfOk result (λ rows. rows.items ≡ zones_of vars) }
{
    let mut rows = interval_rows(alloc, vars)?;
    for first in 0..vars {
        add_differences(alloc, &mut rows, vars, first)?;
    }
    Ok(rows)
}

// The rows of intervals, and then the signed sums of each pair of variables.
fn octagon_rows(alloc: Global, vars: u32) -> Result<Vec<Coeffs>, AllocError>
    ensures { IfOk result (λ rows. rows.items ≡ octagons_of vars) }
{
    let mut rows = interval_rows(alloc, vars)?;
    for first in 0..vars {
        add_all_signed_sums(alloc, &mut rows, vars, first)?;
    }
    Ok(rows)
}

/// The template of intervals over 1 to `MOST_VARIABLES` variables: for each variable `x`, the rows `x` and `-x`, of which there are never
/// more than `MOST_ROWS`.
///
/// It fails for want of memory alone. `docs/FORMATS.md` has the order of the rows.
pub fn intervals(alloc: Global, vars: u32) -> Result<Template, AllocError>
    requires some { 1 ≤ vars }
    requires few { vars ≤ MOST_VARIABLES }
    ensures rows { IfOk result (λ template. template ≡ intervals_of vars) }
    ensures width { IfOk result (λ template. width_of template ≡ vars) }
    ensures count { IfOk result (λ template. length template ≡ 2 * vars) }
{
    Ok(Template::new(interval_rows(alloc, vars)?))
}

/// The template of zones over 1 to `MOST_VARIABLES` variables: the rows of intervals, and then for each ordered pair of different
/// variables `x` and `y`, by `x` and then by `y`, the row `x - y`.
///
/// It refuses more rows than `MOST_ROWS` by `Large`, before any is made. `docs/FORMATS.md` has the order of the rows.
pub fn zones(alloc: Global, vars: u32) -> Result<Template, RowFault>
    requires some { 1 ≤ vars }
    requires few { vars ≤ MOST_VARIABLES }
    ensures template { IfOk result (λ template. Ok template ≡ ready (zones_of vars)) }
    ensures rows { IfOk result (λ template. template ≡ zones_of vars) }
    ensures width { IfOk result (λ template. width_of template ≡ vars) }
    ensures count { IfOk result (λ template. length template ≡ 2 * vars + vars * (vars - 1)) }
    ensures refused { IfErr result (λ fault. fault ≢ NoMemory → Err fault ≡ ready (zones_of vars)) }
{
    let count = 2 * vars + vars * (vars - 1);
    if count > MOST_ROWS {
        return Err(RowFault::Large { count });
    }
    Ok(Template::new(zone_rows(alloc, vars)?))
}

/// The template of octagons over 1 to `MOST_VARIABLES` variables: the rows of intervals, and then for each pair of variables `x` and
/// a later `y`, by `x` and then by `y`, the rows `x + y`, `x - y`, `-x + y` and `-x - y`.
///
/// It refuses more rows than `MOST_ROWS` by `Large`, before any is made. `docs/FORMATS.md` has the order of the rows.
pub fn octagons(alloc: Global, vars: u32) -> Result<Template, RowFault>
    requires some { 1 ≤ vars }
    requires few { vars ≤ MOST_VARIABLES }
    ensures template { IfOk result (λ template. Ok template ≡ ready (octagons_of vars)) }
    ensures rows { IfOk result (λ template. template ≡ octagons_of vars) }
    ensures width { IfOk result (λ template. width_of template ≡ vars) }
    ensures count { IfOk result (λ template. length template ≡ 2 * vars * vars) }
    ensures refused { IfErr result (λ fault. fault ≢ NoMemory → Err fault ≡ ready (octagons_of vars)) }
{
    let count = 2 * vars * vars;
    if count > MOST_ROWS {
        return Err(RowFault::Large { count });
    }
    Ok(Template::new(octagon_rows(alloc, vars)?))
}

//! The template of packs.

ghost use Rattle.std.specs.Prelude.{◌≡◌, ◌≢◌, ◌≤◌, ◌++◌, Ok, Err, IfOk, IfErr, OnOk};
ghost use Rattle.std.specs.List.{range_with_len, flat_map};
ghost use Rattle.lang_tree.specs.declared.limits.TheConstants.{MOST_VARIABLES};
ghost use Rattle.flow_templates.specs.Rows.{width_of};
ghost use Rattle.flow_templates.specs.Domains.{ready};
ghost use Rattle.flow_templates.specs.declared.fault.RowFault.TheVariants.{NoMemory};
ghost use Rattle.flow_packs.specs.Packs.{sums_together, packs_of};

use flow_templates::{MOST_ROWS, RowFault, Template, add_signed_sums, interval_rows};
use lang_groups::Groups;
use lang_tree::Coeffs;
use std::alloc::{AllocError, Global};

// Appends the signed sums of a variable and a later one that it is together with.
fn add_pair(
    alloc: Global,
    rows: &mut Vec<Coeffs>,
    vars: u32,
    groups: &Groups,
    first: u32,
    second: u32,
) -> Result<(), AllocError>
    ensures { OnOk result (rows.new.items ≡ rows.old.items ++ sums_together vars groups.now first second) }
{
    if first < second && groups.are_together(first, second) {
        add_signed_sums(alloc, rows, vars, first, second)?;
    }
    Ok(())
}

// Appends the signed sums of a variable and each later one that it is together with.
fn add_pairs(
    alloc: Global,
    rows: &mut Vec<Coeffs>,
    vars: u32,
    groups: &Groups,
    first: u32,
) -> Result<(), AllocError>
    ensures { OnOk result (rows.new.items ≡ rows.old.items ++ flat_map (sums_together vars groups.now first) (range_with_len 0 vars)) }
{
    for second in 0..vars {
        add_pair(alloc, rows, vars, groups, first, second)?;
    }
    Ok(())
}

// The rows of intervals, and then the signed sums of each pair of variables that is together.
fn pack_rows(alloc: Global, vars: u32, groups: &Groups) -> Result<Vec<Coeffs>, AllocError>
    ensures { IfOk result (λ rows. rows.items ≡ packs_of vars groups.now) }
{
    let mut rows = interval_rows(alloc, vars)?;
    for first in 0..vars {
        add_pairs(alloc, &mut rows, vars, groups, first)?;
    }
    Ok(rows)
}

/// The template of packs over 1 to `MOST_VARIABLES` variables: the rows of intervals, and then for each pair of variables `x` and a
/// later `y` that are together in one of the groups, by `x` and then by `y`, the rows `x + y`, `x - y`, `-x + y` and `-x - y`.
/// Variables are numbered from 0.
///
/// It refuses more rows than `MOST_ROWS` by `Large`. `docs/FORMATS.md` has the order of the rows.
pub fn packs(alloc: Global, vars: u32, groups: &Groups) -> Result<Template, RowFault>
    requires some { 1 ≤ vars }
    requires few { vars ≤ MOST_VARIABLES }
    ensures template { IfOk result (λ template. Ok template ≡ ready (packs_of vars groups.now)) }
    ensures rows { IfOk result (λ template. template ≡ packs_of vars groups.now) }
    ensures width { IfOk result (λ template. width_of template ≡ vars) }
    ensures refused { IfErr result (λ fault. fault ≢ NoMemory → Err fault ≡ ready (packs_of vars groups.now)) }
{
    let rows = pack_rows(alloc, vars, groups)?;
    let count = rows.len() as u32;
    if count > MOST_ROWS {
        return Err(RowFault::Large { count });
    }
    Ok(Template::new(rows))
}

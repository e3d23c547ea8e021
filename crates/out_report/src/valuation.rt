//! The values of names, one line each.

ghost use Rattle.std.specs.Prelude.{◌≡◌, ◌+◌, ◌*◌, ◌<◌, ◌≤◌, ◌++◌, IfOk, length};
ghost use Rattle.base_fractions.specs.Extended.{extended};
ghost use Rattle.flow_systems.specs.View.{vector_of};
ghost use Rattle.out_report.specs.Points.{bounds_from};
ghost use Rattle.out_report.specs.Values.{value_line, value_lines, values_text};
ghost use Rattle.lang_tree.specs.declared.limits.TheConstants.{MOST_VARIABLES};

use crate::heads::push_footer;
use crate::rows::push_bound;
use base_fractions::Ext;
use flow_systems::{Bounds, Footer};
use lang_tree::Name;
use std::alloc::{AllocError, Global};

/// Appends the line of a name and its value.
fn push_value(text: &mut Vec<u8>, name: &Name, value: Ext) -> Result<(), AllocError>
    ensures { IfOk result (λ _. text.new.items ≡ text.old.items ++ value_line name.now (extended value)) }
{
    text.extend_from_slice(name.bytes())?;
    text.extend_from_slice(b" = ")?;
    push_bound(text, value)?;
    text.extend_from_slice(b"\n")?;
    Ok(())
}

/// Appends a line for each name; the value of the first stands at `first`.
fn push_values(
    text: &mut Vec<u8>,
    names: &[Name],
    bounds: &[Ext],
    first: usize,
) -> Result<(), AllocError>
    requires { first + length names.now ≤ length bounds.now }
    ensures { IfOk result (λ _. text.new.items ≡ text.old.items ++ value_lines 0 names.now (bounds_from bounds.now first)) }
{
    for index in 0..names.len() {
        push_value(text, &names[index], bounds[first + index])?;
    }
    Ok(())
}

/// The values of names as lines `NAME = VALUE`, and the footer (docs/FORMATS.md, "Equations"): the bounds of a point, counted from
/// 0, where each point has one row for each of these names.
pub fn values(
    alloc: Global,
    names: &[Name],
    bounds: &Bounds,
    point: u32,
    footer: Footer,
) -> Result<Vec<u8>, AllocError>
    requires names { length names.now ≤ MOST_VARIABLES }
    requires bounds { (point + 1) * length names.now ≤ length bounds.now }
    ensures { IfOk result (λ text. text.items ≡ values_text names.now (vector_of (length names.now) bounds.now point) footer) }
{
    let first = point as usize * names.len();
    let mut text = Vec::new(alloc);
    push_values(&mut text, names, bounds.as_slice(), first)?;
    push_footer(&mut text, footer)?;
    Ok(text)
}

//! The values of names.

ghost use Rattle.std.specs.Prelude.{◌≡◌, ◌+◌, ◌*◌, ◌≤◌, ◌++◌, IfOk, false, true, length};
ghost use Rattle.serde_json.specs.Written.{compact_text, items_text, members_text};
ghost use Rattle.base_fractions.specs.Extended.{extended};
ghost use Rattle.flow_systems.specs.View.{vector_of};
ghost use Rattle.flow_systems.specs.declared.footer.Footer.TheVariants.{Improvements};
ghost use Rattle.lang_tree.specs.declared.limits.TheConstants.{MOST_VARIABLES};
ghost use Rattle.out_report.specs.Points.{bounds_from};
ghost use Rattle.out_json.specs.Pieces.{value_line};
ghost use Rattle.out_json.specs.Values.{named_value, named_values, value_members, values_value};

use crate::members::push_improvements;
use base_fractions::Ext;
use base_json::{push_begin, push_list, push_text_member};
use flow_systems::Bounds;
use lang_tree::Name;
use std::alloc::{AllocError, Global};

/// Appends a name and its value.
fn push_value(out: &mut Vec<u8>, name: &Name, value: Ext) -> Result<(), AllocError>
    ensures { IfOk result (λ _. out.new.items ≡ out.old.items ++ compact_text (named_value name.now (extended value))) }
{
    out.extend_from_slice(b"{")?;
    push_text_member(out, false, b"name", name.bytes())?;
    push_text_member(out, true, b"value", value.text().bytes())?;
    out.extend_from_slice(b"}")?;
    Ok(())
}

/// Appends each name with its value; that of the first stands at `first`.
fn push_values(
    out: &mut Vec<u8>,
    names: &[Name],
    bounds: &[Ext],
    first: usize,
) -> Result<(), AllocError>
    requires { first + length names.now ≤ length bounds.now }
    ensures { IfOk result (λ _. out.new.items
        ≡ out.old.items ++ items_text false (named_values 0 names.now (bounds_from bounds.now first))) }
{
    for index in 0..names.len() {
        push_begin(out, index > 0)?;
        push_value(out, &names[index], bounds[first + index])?;
    }
    out.extend_from_slice(b"]")?;
    Ok(())
}

/// Appends the values of names as the last member; that of the first stands at `first`.
fn push_last(
    out: &mut Vec<u8>,
    names: &[Name],
    bounds: &[Ext],
    first: usize,
) -> Result<(), AllocError>
    requires { first + length names.now ≤ length bounds.now }
    ensures { IfOk result (λ _. out.new.items
        ≡ out.old.items ++ members_text true (value_members names.now (bounds_from bounds.now first))) }
{
    push_list(out, true, b"values")?;
    push_values(out, names, bounds, first)?;
    out.extend_from_slice(b"}")?;
    Ok(())
}

/// Appends the line of the values of names; that of the first stands at `first`.
fn push_line(
    out: &mut Vec<u8>,
    names: &[Name],
    bounds: &[Ext],
    first: usize,
    improvements: u32,
) -> Result<(), AllocError>
    requires { first + length names.now ≤ length bounds.now }
    ensures { IfOk result (λ _. out.new.items ≡ out.old.items
        ++ value_line (values_value names.now (bounds_from bounds.now first) (Improvements improvements))) }
{
    push_improvements(out, improvements)?;
    push_last(out, names, bounds, first)?;
    out.extend_from_slice(b"\n")?;
    Ok(())
}

/// The values of names as a line of JSON (docs/FORMATS.md, "JSON"): the bounds of a point, counted from 0, where each point has one
/// row for each of these names; with the number of improvements.
pub fn values_json(
    alloc: Global,
    names: &[Name],
    bounds: &Bounds,
    point: u32,
    improvements: u32,
) -> Result<Vec<u8>, AllocError>
    requires names { length names.now ≤ MOST_VARIABLES }
    requires bounds { (point + 1) * length names.now ≤ length bounds.now }
    ensures { IfOk result (λ out. out.items ≡ value_line (values_value names.now (vector_of (length names.now) bounds.now point)
        (Improvements improvements))) }
{
    let first = point as usize * names.len();
    let mut out = Vec::new(alloc);
    push_line(&mut out, names, bounds.as_slice(), first, improvements)?;
    Ok(out)
}

//! Points with their bounds.

ghost use Rattle.std.specs.Prelude.{◌≡◌, ◌≤◌, ◌<◌, ◌+◌, ◌*◌, ◌++◌, ◌∷◌, IfOk, codes, false, true, length, map};
ghost use Rattle.json.specs.Print.{quoted};
ghost use Rattle.serde_json.specs.Written.{comma_if, compact_text, items_text, members_text};
ghost use Rattle.base_fractions.specs.Extended.{extended};
ghost use Rattle.flow_systems.specs.Report.{bound_text};
ghost use Rattle.flow_systems.specs.View.{vector_of};
ghost use Rattle.out_report.specs.Points.{bounds_from, point_of};
ghost use Rattle.out_json.specs.Reports.{bounded_members, is_reachable, kind_text, last_members, line_members, line_value};
ghost use Rattle.out_json.specs.Reports.{name_members, name_value, place_members, point_bounds, point_value, point_values, row_bounds};

use base_fractions::Ext;
use base_json::{
    push_begin, push_key, push_list, push_number, push_number_member, push_text, push_text_member,
};
use flow_edges::{Place, Point};
use flow_systems::System;
use lang_tree::Coeffs;
use std::alloc::AllocError;

/// The word for what a point is.
fn kind_of(place: &Place) -> &'static [u8]
    ensures { result.now ≡ kind_text place.now }
{
    match place {
        Place::Entry => b"entry",
        Place::Loop => b"loop",
        Place::Label(_) => b"label",
        Place::Join => b"join",
        Place::Assume => b"assume",
        Place::Exit => b"exit",
    }
}

/// Appends the line of a point: `null` at the entry and the exit.
fn push_line(out: &mut Vec<u8>, place: &Place, line: u32) -> Result<(), AllocError>
    ensures { IfOk result (λ _. out.new.items ≡ out.old.items ++ compact_text (line_value place.now line)) }
{
    match place {
        Place::Entry | Place::Exit => out.extend_from_slice(b"null")?,
        Place::Loop | Place::Label(_) | Place::Join | Place::Assume => push_number(
            out,
            line as u64,
        )?,
    }
    Ok(())
}

/// Appends the name of a label: `null` for other points.
fn push_name(out: &mut Vec<u8>, place: &Place) -> Result<(), AllocError>
    ensures { IfOk result (λ _. out.new.items ≡ out.old.items ++ compact_text (name_value place.now)) }
{
    match place {
        Place::Label(name) => push_text(out, name.bytes())?,
        Place::Entry | Place::Loop | Place::Join | Place::Assume | Place::Exit => {
            out.extend_from_slice(b"null")?
        }
    }
    Ok(())
}

/// Appends the number of a point and whether it is reachable, as the last members.
fn push_last(out: &mut Vec<u8>, number: usize, is_reachable: bool) -> Result<(), AllocError>
    ensures { IfOk result (λ _. out.new.items ≡ out.old.items ++ members_text true (last_members number is_reachable)) }
{
    push_number_member(out, true, b"point", number as u64)?;
    push_key(out, true, b"reachable")?;
    if is_reachable {
        out.extend_from_slice(b"true}")?;
    } else {
        out.extend_from_slice(b"false}")?;
    }
    Ok(())
}

/// Appends the name of a point, its number, and whether it is reachable.
fn push_named(
    out: &mut Vec<u8>,
    place: &Place,
    number: usize,
    is_reachable: bool,
) -> Result<(), AllocError>
    ensures { IfOk result (λ _. out.new.items
        ≡ out.old.items ++ members_text true (name_members place.now (last_members number is_reachable))) }
{
    push_key(out, true, b"name")?;
    push_name(out, place)?;
    push_last(out, number, is_reachable)
}

/// Appends what a point is, as a member.
fn push_kind(out: &mut Vec<u8>, place: &Place) -> Result<(), AllocError>
    ensures { IfOk result (λ _. out.new.items
        ≡ out.old.items ++ (comma_if true ++ (quoted (codes "kind") ++ 58 ∷ quoted (kind_text place.now)))) }
{
    push_text_member(out, true, b"kind", kind_of(place))
}

/// Appends the line of a point, its name, its number, and whether it is reachable.
fn push_lined(
    out: &mut Vec<u8>,
    point: &Point,
    number: usize,
    is_reachable: bool,
) -> Result<(), AllocError>
    ensures { IfOk result (λ _. out.new.items
        ≡ out.old.items ++ members_text true (line_members point.now (last_members number is_reachable))) }
{
    push_key(out, true, b"line")?;
    push_line(out, &point.place, point.line)?;
    push_named(out, &point.place, number, is_reachable)
}

/// Appends what a point is and where, its number, and whether it is reachable.
fn push_place(
    out: &mut Vec<u8>,
    point: &Point,
    number: usize,
    is_reachable: bool,
) -> Result<(), AllocError>
    ensures { IfOk result (λ _. out.new.items
        ≡ out.old.items ++ members_text true (place_members point.now (last_members number is_reachable))) }
{
    push_kind(out, &point.place)?;
    push_lined(out, point, number, is_reachable)?;
    Ok(())
}

/// The bound of a row at the point whose bounds begin at `first`.
fn bound_of(bounds: &[Ext], first: usize, row: usize) -> Ext
    requires { first + row < length bounds.now }
    ensures { extended result ≡ bounds_from bounds.now first row }
{
    bounds[first + row]
}

/// Appends a bound as a text.
fn push_bound(out: &mut Vec<u8>, bound: Ext) -> Result<(), AllocError>
    ensures { IfOk result (λ _. out.new.items ≡ out.old.items ++ quoted (bound_text (extended bound))) }
{
    push_text(out, bound.text().bytes())
}

/// Appends the bound of a row as a text.
fn push_row_bound(
    out: &mut Vec<u8>,
    bounds: &[Ext],
    first: usize,
    row: usize,
) -> Result<(), AllocError>
    requires { first + row < length bounds.now }
    ensures { IfOk result (λ _. out.new.items ≡ out.old.items ++ quoted (bound_text (bounds_from bounds.now first row))) }
{
    push_bound(out, bound_of(bounds, first, row))
}

/// Appends a bound for each row as items; that of the first stands at `first`.
fn push_rows(
    out: &mut Vec<u8>,
    rows: &[Coeffs],
    bounds: &[Ext],
    first: usize,
) -> Result<(), AllocError>
    requires { first + length rows.now ≤ length bounds.now }
    ensures { IfOk result (λ _. out.new.items
        ≡ out.old.items ++ items_text false (row_bounds 0 rows.now (bounds_from bounds.now first))) }
{
    for index in 0..rows.len() {
        push_begin(out, index > 0)?;
        push_row_bound(out, bounds, first, index)?;
    }
    out.extend_from_slice(b"]")?;
    Ok(())
}

/// Appends the bounds of a point: none where it is unreachable.
fn push_bounds(
    out: &mut Vec<u8>,
    rows: &[Coeffs],
    bounds: &[Ext],
    first: usize,
) -> Result<(), AllocError>
    requires some { 0 < length rows.now }
    requires within { first + length rows.now ≤ length bounds.now }
    ensures { IfOk result (λ _. out.new.items ≡ out.old.items
        ++ items_text false (point_bounds rows.now (bounds_from bounds.now first) (bounds_from bounds.now first 0))) }
{
    match bound_of(bounds, first, 0) {
        Ext::NegInf => {
            out.extend_from_slice(b"]")?;
            Ok(())
        }
        _ => push_rows(out, rows, bounds, first),
    }
}

/// Whether a point with this first bound is reachable.
fn is_reachable(bound: Ext) -> bool
    ensures { result ≡ is_reachable (extended bound) }
{
    match bound {
        Ext::NegInf => false,
        Ext::Fin(_) | Ext::PosInf => true,
    }
}

/// Whether the point whose bounds begin at `first` is reachable.
fn is_reached(bounds: &[Ext], first: usize) -> bool
    requires { first < length bounds.now }
    ensures { result ≡ is_reachable (bounds_from bounds.now first 0) }
{
    is_reachable(bound_of(bounds, first, 0))
}

/// Appends the members of a point whose bounds begin at `first`.
fn push_members(
    out: &mut Vec<u8>,
    rows: &[Coeffs],
    bounds: &[Ext],
    first: usize,
    number: usize,
    point: &Point,
) -> Result<(), AllocError>
    requires some { 0 < length rows.now }
    requires within { first + length rows.now ≤ length bounds.now }
    ensures { IfOk result (λ _. out.new.items ≡ out.old.items ++ members_text false (bounded_members rows.now
        (bounds_from bounds.now first) (bounds_from bounds.now first 0) number point.now)) }
{
    push_list(out, false, b"bounds")?;
    push_bounds(out, rows, bounds, first)?;
    let is_reachable = is_reached(bounds, first);
    push_place(out, point, number, is_reachable)?;
    Ok(())
}

/// Appends a point.
fn push_point(
    out: &mut Vec<u8>,
    system: &System,
    bounds: &[Ext],
    number: usize,
) -> Result<(), AllocError>
    requires point { number < length system.now.flow.points }
    requires bounds { length bounds.now ≡ length system.now.flow.points * length system.now.template }
    ensures { IfOk result (λ _. out.new.items ≡ out.old.items ++ compact_text (point_value system.now.template
        (vector_of (length system.now.template) (map extended bounds.now)) number (point_of system.now.flow.points number))) }
{
    let rows = system.template.as_slice();
    out.extend_from_slice(b"{")?;
    push_members(
        out,
        rows,
        bounds,
        number * rows.len(),
        number,
        &system.flow.points.as_slice()[number],
    )
}

/// Appends all points.
pub(crate) fn push_points(
    out: &mut Vec<u8>,
    system: &System,
    bounds: &[Ext],
) -> Result<(), AllocError>
    requires { length bounds.now ≡ length system.now.flow.points * length system.now.template }
    ensures { IfOk result (λ _. out.new.items ≡ out.old.items ++ items_text false (point_values system.now.template
        (vector_of (length system.now.template) (map extended bounds.now)) 0 system.now.flow.points)) }
{
    for number in 0..system.flow.points.as_slice().len() {
        push_begin(out, number > 0)?;
        push_point(out, system, bounds, number)?;
    }
    out.extend_from_slice(b"]")?;
    Ok(())
}

//! Whole reports.

ghost use Rattle.std.specs.Prelude.{◌≡◌, ◌+◌, ◌*◌, ◌<◌, ◌≤◌, ◌++◌, IfOk, length, map};
ghost use Rattle.base_fractions.specs.Extended.{extended};
ghost use Rattle.flow_systems.specs.Report.{bound_lines, point_lines, points_lines, report_of, row_lines};
ghost use Rattle.flow_systems.specs.View.{vector_of};
ghost use Rattle.out_report.specs.Points.{bounds_from, point_of};

use crate::heads::{push_footer, push_head, push_variables};
use crate::rows::push_row_line;
use base_fractions::Ext;
use flow_edges::Point;
use flow_systems::{Bounds, Footer, System};
use lang_tree::{Coeffs, Name};
use std::alloc::{AllocError, Global};

/// The bound of a row at the point whose bounds begin at `first`.
fn bound_of(bounds: &[Ext], first: usize, row: usize) -> Ext
    requires { first + row < length bounds.now }
    ensures { extended result ≡ bounds_from bounds.now first row }
{
    bounds[first + row]
}

/// Appends a line for each row; the bound of the first stands at `first`.
fn push_rows(
    text: &mut Vec<u8>,
    names: &[Name],
    rows: &[Coeffs],
    bounds: &[Ext],
    first: usize,
) -> Result<(), AllocError>
    requires { first + length rows.now ≤ length bounds.now }
    ensures { IfOk result (λ _. text.new.items ≡ text.old.items ++ row_lines names.now 0 rows.now (bounds_from bounds.now first)) }
{
    for index in 0..rows.len() {
        push_row_line(text, names, &rows[index], bound_of(bounds, first, index))?;
    }
    Ok(())
}

/// Appends the lines of a point's bounds: one line where the first is `-inf`, else one for each row.
fn push_bounds(
    text: &mut Vec<u8>,
    names: &[Name],
    rows: &[Coeffs],
    bounds: &[Ext],
    first: usize,
) -> Result<(), AllocError>
    requires some { 0 < length rows.now }
    requires within { first + length rows.now ≤ length bounds.now }
    ensures { IfOk result (λ _. text.new.items ≡ text.old.items
        ++ bound_lines names.now rows.now (bounds_from bounds.now first) (bounds_from bounds.now first 0)) }
{
    match bound_of(bounds, first, 0) {
        Ext::NegInf => {
            text.extend_from_slice(b"  unreachable\n")?;
            Ok(())
        }
        _ => push_rows(text, names, rows, bounds, first),
    }
}

/// Appends a point's lines.
fn push_point(
    text: &mut Vec<u8>,
    system: &System,
    bounds: &[Ext],
    number: usize,
) -> Result<(), AllocError>
    requires point { number < length system.now.flow.points }
    requires bounds { length bounds.now ≡ length system.now.flow.points * length system.now.template }
    ensures { IfOk result (λ _. text.new.items ≡ text.old.items ++ point_lines system.now.flow.names system.now.template
        (vector_of (length system.now.template) (map extended bounds.now)) number (point_of system.now.flow.points number)) }
{
    let rows = system.template.as_slice();
    push_head(text, number, &system.flow.points.as_slice()[number])?;
    push_bounds(
        text,
        system.flow.names.as_slice(),
        rows,
        bounds,
        number * rows.len(),
    )
}

/// Appends the lines of all points.
fn push_points(text: &mut Vec<u8>, system: &System, bounds: &[Ext]) -> Result<(), AllocError>
    requires { length bounds.now ≡ length system.now.flow.points * length system.now.template }
    ensures { IfOk result (λ _. text.new.items ≡ text.old.items ++ points_lines system.now.flow.names system.now.template
        (vector_of (length system.now.template) (map extended bounds.now)) 0 system.now.flow.points) }
{
    for number in 0..system.flow.points.as_slice().len() {
        push_point(text, system, bounds, number)?;
    }
    Ok(())
}

/// The whole report on the bounds of a system (docs/FORMATS.md, "The report").
pub fn report(
    alloc: Global,
    system: &System,
    bounds: &Bounds,
    footer: Footer,
) -> Result<Vec<u8>, AllocError>
    requires { length bounds.now ≡ length system.now.flow.points * length system.now.template }
    ensures { IfOk result (λ text. text.items ≡ report_of system.now (vector_of (length system.now.template) bounds.now) footer) }
{
    let mut text = Vec::new(alloc);
    push_variables(&mut text, system.flow.names.as_slice())?;
    push_points(&mut text, system, bounds.as_slice())?;
    push_footer(&mut text, footer)?;
    Ok(text)
}

/// The lines of one point, counted from 0.
pub fn point_text(
    alloc: Global,
    system: &System,
    bounds: &Bounds,
    point: u32,
) -> Result<Vec<u8>, AllocError>
    requires point { point < length system.now.flow.points }
    requires bounds { length bounds.now ≡ length system.now.flow.points * length system.now.template }
    ensures { IfOk result (λ text. text.items ≡ point_lines system.now.flow.names system.now.template
        (vector_of (length system.now.template) bounds.now) point (point_of system.now.flow.points point)) }
{
    let mut text = Vec::new(alloc);
    push_point(&mut text, system, bounds.as_slice(), point as usize)?;
    Ok(text)
}

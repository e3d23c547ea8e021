//! Whole reports.

ghost use Rattle.std.specs.Prelude.{◌≡◌, ◌*◌, ◌++◌, IfOk, false, true, length, map};
ghost use Rattle.json.specs.Print.{quoted};
ghost use Rattle.serde_json.specs.Written.{items_text, members_text};
ghost use Rattle.base_fractions.specs.Extended.{extended};
ghost use Rattle.flow_systems.specs.Report.{row_text};
ghost use Rattle.flow_systems.specs.View.{vector_of};
ghost use Rattle.flow_systems.specs.declared.footer.Footer.TheVariants.{Accepted, Improvements};
ghost use Rattle.out_json.specs.Pieces.{texts, value_line};
ghost use Rattle.out_json.specs.Reports.{body_members, report_value_of, row_members, row_values, variable_members};

use crate::members::{push_accepted, push_improvements};
use crate::points::push_points;
use base_fractions::Ext;
use base_json::{push_begin, push_list, push_text};
use flow_systems::{Bounds, Footer, System};
use lang_tree::{Coeffs, Name};
use out_report::push_row;
use std::alloc::{AllocError, Global};

/// Appends a row as a text.
fn push_row_text(
    alloc: Global,
    out: &mut Vec<u8>,
    names: &[Name],
    row: &Coeffs,
) -> Result<(), AllocError>
    ensures { IfOk result (λ _. out.new.items ≡ out.old.items ++ quoted (row_text names.now row.now)) }
{
    let mut text = Vec::new(alloc);
    push_row(&mut text, names, row.as_slice())?;
    push_text(out, &text)
}

/// Appends all rows.
fn push_rows(
    alloc: Global,
    out: &mut Vec<u8>,
    names: &[Name],
    rows: &[Coeffs],
) -> Result<(), AllocError>
    ensures { IfOk result (λ _. out.new.items ≡ out.old.items ++ items_text false (row_values names.now rows.now)) }
{
    for index in 0..rows.len() {
        push_begin(out, index > 0)?;
        push_row_text(alloc, out, names, &rows[index])?;
    }
    out.extend_from_slice(b"]")?;
    Ok(())
}

/// Appends all names.
fn push_names(out: &mut Vec<u8>, names: &[Name]) -> Result<(), AllocError>
    ensures { IfOk result (λ _. out.new.items ≡ out.old.items ++ items_text false (texts names.now)) }
{
    for index in 0..names.len() {
        push_begin(out, index > 0)?;
        push_text(out, names[index].bytes())?;
    }
    out.extend_from_slice(b"]")?;
    Ok(())
}

/// Appends the variables, as the last member.
fn push_variables(out: &mut Vec<u8>, names: &[Name]) -> Result<(), AllocError>
    ensures { IfOk result (λ _. out.new.items ≡ out.old.items ++ members_text true (variable_members names.now)) }
{
    push_list(out, true, b"variables")?;
    push_names(out, names)?;
    out.extend_from_slice(b"}")?;
    Ok(())
}

/// Appends the rows and the variables, as the last members.
fn push_last(alloc: Global, out: &mut Vec<u8>, system: &System) -> Result<(), AllocError>
    ensures { IfOk result (λ _. out.new.items
        ≡ out.old.items ++ members_text true (row_members system.now.flow.names system.now.template)) }
{
    let names = system.flow.names.as_slice();
    push_list(out, true, b"rows")?;
    push_rows(alloc, out, names, system.template.as_slice())?;
    push_variables(out, names)
}

/// Appends the points, the rows and the variables, as the last members of the object of a line.
fn push_body(
    alloc: Global,
    out: &mut Vec<u8>,
    system: &System,
    bounds: &[Ext],
) -> Result<(), AllocError>
    requires { length bounds.now ≡ length system.now.flow.points * length system.now.template }
    ensures { IfOk result (λ _. out.new.items ≡ out.old.items ++ members_text true (body_members system.now.flow.names
        system.now.flow.points system.now.template (vector_of (length system.now.template) (map extended bounds.now)))) }
{
    push_list(out, true, b"points")?;
    push_points(out, system, bounds)?;
    push_last(alloc, out, system)?;
    Ok(())
}

/// Appends the line of a report on bounds that improvements led to.
fn push_improved(
    alloc: Global,
    out: &mut Vec<u8>,
    system: &System,
    bounds: &[Ext],
    improvements: u32,
) -> Result<(), AllocError>
    requires { length bounds.now ≡ length system.now.flow.points * length system.now.template }
    ensures { IfOk result (λ _. out.new.items ≡ out.old.items ++ value_line (report_value_of system.now
        (vector_of (length system.now.template) (map extended bounds.now)) (Improvements improvements))) }
{
    push_improvements(out, improvements)?;
    push_body(alloc, out, system, bounds)?;
    out.extend_from_slice(b"\n")?;
    Ok(())
}

/// Appends the line of a report on the bounds of a certificate.
fn push_checked(
    alloc: Global,
    out: &mut Vec<u8>,
    system: &System,
    bounds: &[Ext],
) -> Result<(), AllocError>
    requires { length bounds.now ≡ length system.now.flow.points * length system.now.template }
    ensures { IfOk result (λ _. out.new.items ≡ out.old.items ++ value_line (report_value_of system.now
        (vector_of (length system.now.template) (map extended bounds.now)) Accepted)) }
{
    push_accepted(out)?;
    push_body(alloc, out, system, bounds)?;
    out.extend_from_slice(b"\n")?;
    Ok(())
}

/// Appends the line of a report.
fn push_report(
    alloc: Global,
    out: &mut Vec<u8>,
    system: &System,
    bounds: &[Ext],
    footer: Footer,
) -> Result<(), AllocError>
    requires { length bounds.now ≡ length system.now.flow.points * length system.now.template }
    ensures { IfOk result (λ _. out.new.items ≡ out.old.items ++ value_line (report_value_of system.now
        (vector_of (length system.now.template) (map extended bounds.now)) footer)) }
{
    match footer {
        Footer::Improvements(count) => push_improved(alloc, out, system, bounds, count),
        Footer::Accepted => push_checked(alloc, out, system, bounds),
    }
}

/// The whole report on the bounds of a system as a line of JSON (docs/FORMATS.md, "JSON").
pub fn report_json(
    alloc: Global,
    system: &System,
    bounds: &Bounds,
    footer: Footer,
) -> Result<Vec<u8>, AllocError>
    requires { length bounds.now ≡ length system.now.flow.points * length system.now.template }
    ensures { IfOk result (λ out. out.items
        ≡ value_line (report_value_of system.now (vector_of (length system.now.template) bounds.now) footer)) }
{
    let mut out = Vec::new(alloc);
    push_report(alloc, &mut out, system, bounds.as_slice(), footer)?;
    Ok(out)
}

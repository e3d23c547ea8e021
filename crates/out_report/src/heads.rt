//! The heads of points, alone and in a report, and a report's first and last line.

ghost use Rattle.std.specs.Prelude.{◌≡◌, ◌++◌, ◌∷◌, IfOk, codes, decimal};
ghost use Rattle.std.specs.List.{flat_map};
ghost use Rattle.flow_systems.specs.Report.{footer_line, head_line, line, place_text, variables_line};
ghost use Rattle.out_report.specs.Heads.{head_lines};

use crate::rows::push_number;
use flow_edges::{Flow, Place, Point};
use flow_systems::Footer;
use lang_tree::Name;
use std::alloc::{AllocError, Global};

/// Appends what is told of a place.
fn push_place(text: &mut Vec<u8>, place: &Place, line: u32) -> Result<(), AllocError>
    ensures { IfOk result (λ _. text.new.items ≡ text.old.items ++ place_text place.now line) }
{
    match place {
        Place::Entry => text.extend_from_slice(b"entry")?,
        Place::Loop => push_counted(text, b"loop at line ", line)?,
        Place::Label(name) => {
            text.extend_from_slice(b"label ")?;
            text.extend_from_slice(name.bytes())?;
            push_counted(text, b" at line ", line)?;
        }
        Place::Join => push_counted(text, b"join at line ", line)?,
        Place::Assume => push_counted(text, b"assume at line ", line)?,
        Place::Exit => text.extend_from_slice(b"exit")?,
    }
    Ok(())
}

/// Appends words and a number.
fn push_counted(text: &mut Vec<u8>, words: &[u8], number: u32) -> Result<(), AllocError>
    ensures { IfOk result (λ _. text.new.items ≡ text.old.items ++ (words.now ++ decimal number)) }
{
    text.extend_from_slice(words)?;
    push_number(text, number as u64)
}

/// Appends the head of a point.
pub(crate) fn push_head(text: &mut Vec<u8>, number: usize, point: &Point) -> Result<(), AllocError>
    ensures { IfOk result (λ _. text.new.items ≡ text.old.items ++ head_line number point.now) }
{
    text.extend_from_slice(b"point ")?;
    push_number(text, number as u64)?;
    text.extend_from_slice(b": ")?;
    push_place(text, &point.place, point.line)?;
    text.extend_from_slice(b"\n")?;
    Ok(())
}

/// Appends the heads of all points.
fn push_heads(text: &mut Vec<u8>, points: &[Point]) -> Result<(), AllocError>
    ensures { IfOk result (λ _. text.new.items ≡ text.old.items ++ head_lines 0 points.now) }
{
    for number in 0..points.len() {
        push_head(text, number, &points[number])?;
    }
    Ok(())
}

/// The heads of a flow's points in their order, each as the report has it (docs/FORMATS.md, "The points of a program").
pub fn point_heads(alloc: Global, flow: &Flow) -> Result<Vec<u8>, AllocError>
    ensures { IfOk result (λ text. text.items ≡ head_lines 0 flow.now.points) }
{
    let mut text = Vec::new(alloc);
    push_heads(&mut text, flow.points.as_slice())?;
    Ok(text)
}

/// Appends the names of the variables, each after a space.
fn push_names(text: &mut Vec<u8>, names: &[Name]) -> Result<(), AllocError>
    ensures { IfOk result (λ _. text.new.items ≡ text.old.items ++ flat_map (λ name. 32 ∷ name) names.now) }
{
    for name in names {
        text.extend_from_slice(b" ")?;
        text.extend_from_slice(name.bytes())?;
    }
    Ok(())
}

/// Appends the first line.
pub(crate) fn push_variables(text: &mut Vec<u8>, names: &[Name]) -> Result<(), AllocError>
    ensures { IfOk result (λ _. text.new.items ≡ text.old.items ++ variables_line names.now) }
{
    text.extend_from_slice(b"variables")?;
    push_names(text, names)?;
    text.extend_from_slice(b"\n")?;
    Ok(())
}

/// Appends how many improvements were made.
fn push_improvements(text: &mut Vec<u8>, count: u32) -> Result<(), AllocError>
    ensures { IfOk result (λ _. text.new.items ≡ text.old.items ++ line (codes "improvements: " ++ decimal count)) }
{
    push_counted(text, b"improvements: ", count)?;
    text.extend_from_slice(b"\n")?;
    Ok(())
}

/// Appends the last line.
pub fn push_footer(text: &mut Vec<u8>, footer: Footer) -> Result<(), AllocError>
    ensures { IfOk result (λ _. text.new.items ≡ text.old.items ++ footer_line footer) }
{
    match footer {
        Footer::Improvements(count) => push_improvements(text, count),
        Footer::Accepted => {
            text.extend_from_slice(b"certificate: accepted\n")?;
            Ok(())
        }
    }
}

//! The summary of what was found about a generated program.

ghost use Rattle.std.specs.Prelude.{◌≡◌, ◌*◌, ◌++◌, IfOk, codes, length};
ghost use Rattle.flow_systems.specs.View.{vector_of};
ghost use Rattle.out_workload.specs.Summaries.{bench_line, counted_line, exit_lines, program_line, summary_of};

use crate::texts::push_number;
use flow_systems::{Bounds, System};
use out_report::point_text;
use std::alloc::{AllocError, Global};

/// Appends a line with a number after these words.
fn push_counted(text: &mut Vec<u8>, words: &[u8], number: u64) -> Result<(), AllocError>
    ensures { IfOk result (λ _. text.new.items ≡ text.old.items ++ counted_line words.now number) }
{
    text.extend_from_slice(words)?;
    push_number(text, number)?;
    text.extend_from_slice(b"\n")?;
    Ok(())
}

/// Appends the line that says which program it was.
fn push_bench(text: &mut Vec<u8>, seed: u32, loops: u32) -> Result<(), AllocError>
    ensures { IfOk result (λ _. text.new.items ≡ text.old.items ++ bench_line seed loops) }
{
    text.extend_from_slice(b"bench seed ")?;
    push_number(text, seed as u64)?;
    text.extend_from_slice(b" loops ")?;
    push_number(text, loops as u64)?;
    text.extend_from_slice(b"\n")?;
    Ok(())
}

/// Appends the line that says how long its text is.
fn push_program(text: &mut Vec<u8>, bytes: u32) -> Result<(), AllocError>
    ensures { IfOk result (λ _. text.new.items ≡ text.old.items ++ program_line bytes) }
{
    text.extend_from_slice(b"program ")?;
    push_number(text, bytes as u64)?;
    text.extend_from_slice(b" bytes\n")?;
    Ok(())
}

/// Appends the line that counts the points.
fn push_points(text: &mut Vec<u8>, system: &System) -> Result<(), AllocError>
    ensures { IfOk result (λ _. text.new.items ≡ text.old.items ++ counted_line (codes "points ") (length system.now.flow.points)) }
{
    let points = system.flow.points.as_slice().len() as u64;
    push_counted(text, b"points ", points)
}

/// Appends the line that counts the unknowns.
fn push_unknowns(text: &mut Vec<u8>, system: &System) -> Result<(), AllocError>
    ensures { IfOk result (λ _. text.new.items ≡ text.old.items
        ++ counted_line (codes "unknowns ") (length system.now.flow.points * length system.now.template)) }
{
    let points = system.flow.points.as_slice().len() as u64;
    let rows = system.template.as_slice().len() as u64;
    push_counted(text, b"unknowns ", points * rows)
}

/// Appends the lines of the exit.
fn push_exit(
    alloc: Global,
    text: &mut Vec<u8>,
    system: &System,
    bounds: &Bounds,
) -> Result<(), AllocError>
    requires { length bounds.now ≡ length system.now.flow.points * length system.now.template }
    ensures { IfOk result (λ _. text.new.items ≡ text.old.items ++ exit_lines system.now
        (vector_of (length system.now.template) bounds.now)) }
{
    let exit = system.flow.points.as_slice().len() - 1;
    let lines = point_text(alloc, system, bounds, exit as u32)?;
    text.extend_from_slice(lines.as_slice())?;
    Ok(())
}

/// The summary of the bounds of a generated program, from the number of its bytes and that of the improvements: which program it was,
/// its points and unknowns with those of the entry, and the lines of its exit (docs/FORMATS.md, "The generator and the summary").
pub fn summary(
    alloc: Global,
    seed: u32,
    loops: u32,
    bytes: u32,
    system: &System,
    bounds: &Bounds,
    improvements: u32,
) -> Result<Vec<u8>, AllocError>
    requires { length bounds.now ≡ length system.now.flow.points * length system.now.template }
    ensures { IfOk result (λ text. text.items ≡ summary_of seed loops bytes system.now (vector_of (length system.now.template) bounds.now)
        improvements) }
{
    let mut text = Vec::new(alloc);
    push_bench(&mut text, seed, loops)?;
    push_program(&mut text, bytes)?;
    push_points(&mut text, system)?;
    push_unknowns(&mut text, system)?;
    push_counted(&mut text, b"improvements ", improvements as u64)?;
    push_exit(alloc, &mut text, system, bounds)?;
    Ok(text)
}

//! Row files.

ghost use Rattle.std.specs.Prelude.{◌≡◌, ◌≢◌, ◌≤◌, ◌+◌, ◌++◌, ℤ, List, Result, length, map, nat_le, option_to_list, OnOk, IfOk, IfErr};
ghost use Rattle.std.specs.Prelude.{IsTrue, Ok, Err};
ghost use Rattle.std.specs.List.{list_all};
ghost use Rattle.base_limits.specs.declared.limits.TheConstants.{MOST_TEXT_BYTES};
ghost use Rattle.flow_templates.specs.declared.fault.RowFault.{RowFault};
ghost use Rattle.flow_templates.specs.declared.fault.RowFault.TheVariants.{NoMemory};
ghost use Rattle.flow_templates.specs.Rows.{width_of};
ghost use Rattle.flow_templates.specs.RowFiles.{lines_of, LinesRead, HasFault, Answers, Gives};

use crate::fault::RowFault;
use crate::given::count_fault;
use crate::line::read_line;
use crate::template::Template;
use lang_tree::{Coeffs, Name};
use std::alloc::{AllocError, Global};

// The lines of a text: the pieces between its line feeds.
fn lines_of<'a>(alloc: Global, text: &'a [u8]) -> Result<Vec<&'a [u8]>, AllocError>
    ensures { IfOk result (λ lines. map (λ line. line.now) lines.items ≡ lines_of text.now) }
{
    text.split(|byte| *byte == b'\n').collect(alloc)
}

// Adds the row of a line, if it gives one.
fn add(rows: &mut Vec<Coeffs>, read: Option<Coeffs>) -> Result<(), AllocError>
    ensures { OnOk result (rows.new.items ≡ rows.old.items ++ option_to_list read) }
{
    if let Some(row) = read {
        rows.push(row)?;
    }
    Ok(())
}

// The rows of the lines.
fn rows_of(alloc: Global, lines: &[&[u8]], names: &[Name]) -> Result<Vec<Coeffs>, RowFault>
    requires few { length lines.now ≤ MOST_TEXT_BYTES + 1 }
    requires short { IsTrue (list_all (λ line. nat_le (length line.now) MOST_TEXT_BYTES) lines.now) }
    ensures rows { IfOk result (λ rows. LinesRead names.now (map (λ line. line.now) lines.now) rows.items) }
    ensures few { IfOk result (λ rows. length rows.items ≤ length lines.now) }
    ensures refused { IfErr result (λ fault. fault ≢ NoMemory → HasFault names.now (map (λ line. line.now) lines.now) fault) }
{
    let mut rows = Vec::new(alloc);
    for (i, line) in lines.iter().enumerate() {
        let read = read_line(alloc, line, names, i as u32 + 1)?;
        add(&mut rows, read)?;
    }
    Ok(rows)
}

// What the file is.
fn answer(alloc: Global, text: &[u8], names: &[Name]) -> Result<Template, RowFault>
    requires { length text.now ≤ MOST_TEXT_BYTES }
    ensures template { IfOk result (λ template. Answers names.now text.now (Ok template)) }
    ensures width { IfOk result (λ template. width_of template ≡ length names.now) }
    ensures refused { IfErr result (λ fault. fault ≢ NoMemory → Answers names.now text.now (Err fault)) }
{
    let lines = lines_of(alloc, text)?;
    let rows = rows_of(alloc, &lines, names)?;
    match count_fault(rows.as_slice().len() as u32) {
        Some(fault) => Err(fault),
        None => Ok(Template::new(rows)),
    }
}

/// The template of a row file's rows over these variables, of a text of at most 65,536 bytes.
///
/// Each line of the text is a row, as `2*x - y`, or is skipped: a blank one, or one whose first byte that isn't blank is
/// `#`. Where a name stands twice among the variables, the first one has its terms. The first faulty line decides, and
/// in a line `BadRow` comes before `UnknownName` and that before `ZeroRow`; `Count` comes where no line is faulty.
/// `docs/FORMATS.md` has the grammar.
pub fn read_rows(alloc: Global, text: &[u8], names: &[Name]) -> Result<Template, RowFault>
    requires { length text.now ≤ MOST_TEXT_BYTES }

    // What is answered is so.
    ensures template { IfOk result (λ template. Answers names.now text.now (Ok template)) }
    ensures width { IfOk result (λ template. width_of template ≡ length names.now) }
    ensures refused { IfErr result (λ fault. fault ≢ NoMemory → Answers names.now text.now (Err fault)) }

    // What is so is answered, where there is memory.
    ensures exact { (right : Result (List (List ℤ)) RowFault) → Answers names.now text.now right → Gives result right }
{
    answer(alloc, text, names)
}

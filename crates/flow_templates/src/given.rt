//! Templates of given rows, those of a file among them: how many they may be, and rows of zeros.

ghost use Rattle.std.specs.Prelude.{◌≡◌, ◌≢◌, ◌<◌, ◌^◌, ◌∷◌, [], Some, length, slice_get, option_to_list, IfOk, OnOk, IfErr};
ghost use Rattle.flow_templates.specs.Rows.{is_row, width_of};
ghost use Rattle.flow_templates.specs.RowFaults.{row_faults, count_faults, faults_of};
ghost use Rattle.flow_templates.specs.declared.fault.RowFault.TheVariants.{NoMemory};

use crate::fault::RowFault;
use crate::limits::MOST_ROWS;
use crate::template::Template;
use lang_tree::Coeffs;
use std::alloc::{AllocError, Global};

/// Whether some coefficient isn't 0.
pub(crate) fn is_row(coefficients: &[i64]) -> bool
    ensures { result ≡ is_row coefficients.now }
{
    coefficients.iter().any(|c| *c != 0)
}

// What is wrong with the row on this line.
fn row_fault(row: &[i64], vars: u32, line: u32) -> Option<RowFault>
    ensures { option_to_list result ≡ row_faults vars (line, row.now) }
{
    if row.len() != vars as usize {
        Some(RowFault::Length { line })
    } else if is_row(row) {
        None
    } else {
        Some(RowFault::ZeroRow { line })
    }
}

/// What is wrong with this number of rows.
pub(crate) fn count_fault(count: u32) -> Option<RowFault>
    ensures { option_to_list result ≡ count_faults count }
{
    if 1 <= count && count <= MOST_ROWS {
        None
    } else {
        Some(RowFault::Count { count })
    }
}

// The fault that decides, if there is one.
fn first_fault(rows: &[Coeffs], vars: u32) -> Option<RowFault>
    requires { length rows.now < 2 ^ 32 }
    ensures { result ≡ slice_get (faults_of vars rows.now) 0 }
{
    for (i, row) in rows.iter().enumerate() {
        let fault = row_fault(row.as_slice(), vars, i as u32 + 1);
        if fault.is_some() {
            return fault;
        }
    }
    count_fault(rows.len() as u32)
}

// The same rows once more.
fn copies(alloc: Global, rows: &[Coeffs]) -> Result<Vec<Coeffs>, AllocError>
    ensures { IfOk result (λ copies. copies.items ≡ rows.now) }
{
    let mut copies = Vec::with_capacity(alloc, rows.len())?;
    for row in rows {
        copies.push(Coeffs::new(row.as_slice().to_vec(alloc)?))?;
    }
    Ok(copies)
}

/// The template of these rows, which have one coefficient for each of so many variables.
///
/// It refuses rows that are no template by the fault that decides: that of the first faulty row, `Length` before
/// `ZeroRow`, with the row's number from 1 as its line; and `Count` where each row is sound.
pub fn from_rows(alloc: Global, rows: &[Coeffs], vars: u32) -> Result<Template, RowFault>
    requires { length rows.now < 2 ^ 32 }
    ensures rows { IfOk result (λ template. template ≡ rows.now) }
    ensures width { IfOk result (λ template. width_of template ≡ vars) }
    ensures sound { OnOk result (faults_of vars rows.now ≡ []) }
    ensures refused { IfErr result (λ fault. fault ≢ NoMemory → slice_get (faults_of vars rows.now) 0 ≡ Some fault) }
{
    match first_fault(rows, vars) {
        Some(fault) => Err(fault),
        None => Ok(Template::new(copies(alloc, rows)?)),
    }
}

//! The row that terms make.

ghost use Rattle.std.specs.Prelude.{◌≡◌, IfOk};
ghost use Rattle.std.specs.List.{list_all};
ghost use Rattle.flow_templates.specs.Sums.{is_among, row_by};
ghost use Rattle.flow_templates.specs.Kept.{sum_at};

use crate::sums::sum_of;
use crate::term::Term;
use lang_tree::Name;
use std::alloc::{AllocError, Global};
use std::collections::BTreeMap;

// Whether the name is one of these.
fn is_among(names: &[Name], name: &[u8]) -> bool
    ensures { result ≡ is_among names.now name.now }
{
    names.iter().any(|other| other.bytes() == name)
}

/// Whether each term names a variable.
pub(crate) fn are_known(names: &[Name], terms: &[Term]) -> bool
    ensures { result ≡ list_all (λ term. is_among names.now term.name.now) terms.now }
{
    terms.iter().all(|term| is_among(names, term.name))
}

/// The coefficients of the row in which each name has this sum.
pub(crate) fn row_of(
    alloc: Global,
    names: &[Name],
    sums: &BTreeMap<&[u8], i64>,
) -> Result<Vec<i64>, AllocError>
    ensures { IfOk result (λ row. row.items ≡ row_by names.now (sum_at sums.now)) }
{
    let mut row = Vec::new(alloc);
    for (i, name) in names.iter().enumerate() {
        let name = name.bytes();
        let coefficient = if is_among(&names[..i], name) {
            0
        } else {
            sum_of(sums, name)
        };
        row.push(coefficient)?;
    }
    Ok(row)
}

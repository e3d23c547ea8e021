//! Entries that are appended to a list.
ghost use Rattle.std.specs.Prelude.{◌≡◌, OnOk, IfErr};
ghost use Rattle.lp_sparse.specs.Faults.{Pushes, PassesOn};

use crate::row::SparseRow;
use base_fractions::{OrderedField, Wide};
use lp_dictionary::{Entry, PivotFault, push_value};

/// Appends the value that an operation answered, unless it is 0, or passes on that it was wide.
pub fn push_answer<F: OrderedField>(
    entries: &mut Vec<Entry<F>>,
    col: u32,
    answer: Result<F, Wide<F>>,
) -> Result<(), PivotFault<F>>
    ensures pushed { OnOk result (Pushes F.meaning entries.old.items col answer entries.new.items) }
    ensures refused { IfErr result (PassesOn answer) }
{
    match answer {
        Ok(value) => match push_value(entries, col, value) {
            Ok(()) => Ok(()),
            Err(_) => Err(PivotFault::NoMemory),
        },
        Err(wide) => Err(PivotFault::Wide(wide)),
    }
}

/// Gives the row other entries, and takes its own in their place.
pub fn replace<F: OrderedField>(row: &mut SparseRow<F>, entries: &mut Vec<Entry<F>>)
    ensures { row.new.entries.items ≡ entries.old.items }
{
    std::mem::swap(&mut row.entries, entries);
}

//! Entries of rows.
ghost use Rattle.std.specs.Prelude.{◌≡◌, OnOk, OnErr};
ghost use Rattle.lp_dictionary.specs.Entries.{pushed};

use base_fractions::OrderedField;
use std::alloc::AllocError;

/// An entry that is not zero, at a column counted from 0. The constant of a row is its entry after the last column.
#[derive(Clone, Copy)]
pub struct Entry<F> {
    pub col: u32,
    pub value: F,
}

/// Appends an entry, unless its value is 0.
pub fn push_value<F: OrderedField>(
    entries: &mut Vec<Entry<F>>,
    col: u32,
    value: F,
) -> Result<(), AllocError>
    ensures pushed { OnOk result (entries.new.items ≡ pushed F.meaning entries.old.items col value) }
    ensures kept { OnErr result (entries.new.items ≡ entries.old.items) }
{
    if !value.is_zero() {
        entries.push(Entry { col, value })?;
    }
    Ok(())
}

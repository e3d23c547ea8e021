//! Rows of a template.

ghost use Rattle.std.specs.Prelude.{◌≡◌, IfOk, IsTrue, Some, true};
ghost use Rattle.std.specs.List.{list_all};
ghost use Rattle.serde_json.specs.View.{view};
ghost use Rattle.cert_written.specs.Bare.{bare_entries};
ghost use Rattle.cert_written.specs.Shaped.{are_whole, is_whole, is_whole_pair};
ghost use Rattle.cert_text.specs.Certificates.{if_row, row_in};
ghost use Rattle.cert_text.specs.Pairs.{are_entries, entries_data};

use crate::entries::{are_entries, entries_value, read_entries};
use crate::entry::Entry;
use crate::numbering::Numbering;
use crate::setting::Setting;
use base_fractions::Frac;
use cert_written::{Entries, Pair};
use serde_json::Value;
use std::alloc::{AllocError, Global};

// Whether a fraction is a whole number.
fn is_whole(number: &Frac) -> bool
    ensures { result ≡ is_whole number.now }
{
    number.den() == 1
}

// Whether each of the fractions is a whole number.
fn whole_numbers(list: &[Frac]) -> bool
    ensures { result ≡ list_all is_whole list.now }
{
    list.iter().all(|number| is_whole(number))
}

// Whether the value of each pair is a whole number.
fn whole_pairs(list: &[Pair]) -> bool
    ensures { result ≡ list_all is_whole_pair list.now }
{
    list.iter().all(|pair| is_whole(&pair.value))
}

// Whether each entry of the list is a whole number.
fn are_whole(list: &Entries) -> bool
    ensures { result ≡ are_whole list.now }
{
    match list {
        Entries::Dense(list) => whole_numbers(list.as_slice()),
        Entries::Sparse(pairs) => whole_pairs(pairs.as_slice()),
    }
}

// The row that the value is.
fn read_row(alloc: Global, setting: &Setting, value: &Value) -> Result<Option<Entries>, AllocError>
    ensures { IfOk result (λ row. row ≡ row_in setting.now.sparse (view value.now)) }
{
    match read_entries(alloc, setting, value)? {
        Some(list) => {
            if are_whole(&list) {
                Ok(Some(list))
            } else {
                Ok(None)
            }
        }
        None => Ok(None),
    }
}

// The row as a value.
#[tactic(auto, using(crate::proofs::rows::RowNumbers::row_bare))]
fn row_value(alloc: Global, names: &Numbering, row: &Entries) -> Result<Value, AllocError>
    requires { IsTrue (are_whole row.now) }
    ensures value { IfOk result (λ v. view v ≡ entries_data row.now) }
    ensures shape { IfOk result (λ _. are_entries true (entries_data row.now) ≡ true) }
    ensures back { IfOk result (λ _. row_in true (entries_data row.now) ≡ Some (bare_entries row.now)) }
{
    entries_value(alloc, names, row)
}

impl Entry for Entries {
    ghost use Rattle.cert_written.specs.Bare.{bare_entries};
    ghost use Rattle.cert_written.specs.Shaped.{are_whole};
    ghost use Rattle.cert_text.specs.Certificates.{row_in};
    ghost use Rattle.cert_text.specs.Pairs.{are_entries, entries_data};

    ghost shaped = { λ setting d. are_entries setting.sparse d };

    ghost element_in = { λ setting d. row_in setting.sparse d };

    ghost element_data = { λ _ _ row. entries_data row };

    ghost bare = { bare_entries };

    ghost writable = { λ _ _ row. are_whole row };

    fn has_shape(setting: &Setting, value: &Value) -> bool {
        are_entries(setting, value)
    }

    fn read(
        alloc: Global,
        setting: &Setting,
        value: &Value,
    ) -> Result<Option<Entries>, AllocError> {
        read_row(alloc, setting, value)
    }

    fn write(&self, alloc: Global, _rows: usize, names: &Numbering) -> Result<Value, AllocError> {
        row_value(alloc, names, self)
    }
}

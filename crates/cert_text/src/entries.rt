//! Lists of fractions, with all their entries or without zeros.

ghost use Rattle.std.specs.Prelude.{◌≡◌, IfOk, Some, option_map, true};
ghost use Rattle.serde_json.specs.View.{view};
ghost use Rattle.cert_written.specs.Bare.{bare_entries};
ghost use Rattle.cert_written.specs.declared.entries.Entries.TheVariants.{Dense, Sparse};
ghost use Rattle.cert_text.specs.Keys.{passes_at};
ghost use Rattle.cert_text.specs.Pairs.{are_entries, entries_at, entries_data, entries_in, fracs_in, pairs_in};

use crate::entry::{is_list, read_list};
use crate::numbering::Numbering;
use crate::pairs::{are_pairs, pairs_value, read_pairs};
use crate::setting::Setting;
use base_fractions::Frac;
use cert_written::Entries;
use flow_systems::Fracs;
use serde_json::Value;
use std::alloc::{AllocError, Global};

/// Whether the value is a list of texts, or of pairs where lists are without zeros.
pub(crate) fn are_entries(setting: &Setting, value: &Value) -> bool
    ensures { result ≡ are_entries setting.now.sparse (view value.now) }
{
    if setting.sparse {
        are_pairs(setting, value)
    } else {
        is_list::<Frac>(setting, value)
    }
}

/// Whether the member of this key is there and such a list.
pub(crate) fn are_entries_at(setting: &Setting, value: &Value, key: &str) -> bool
    ensures { result ≡ passes_at (are_entries setting.now.sparse) key.now (view value.now) }
{
    match value.get(key) {
        Some(list) => are_entries(setting, list),
        None => false,
    }
}

// The fractions that the value is.
fn read_dense(
    alloc: Global,
    setting: &Setting,
    value: &Value,
) -> Result<Option<Entries>, AllocError>
    ensures { IfOk result (λ list. list ≡ option_map (λ qs. Dense qs) (fracs_in (view value.now))) }
{
    match read_list::<Frac>(alloc, setting, value)? {
        Some(list) => Ok(Some(Entries::Dense(Fracs::new(list)))),
        None => Ok(None),
    }
}

// The pairs that the value is.
fn read_sparse(
    alloc: Global,
    setting: &Setting,
    value: &Value,
) -> Result<Option<Entries>, AllocError>
    ensures { IfOk result (λ list. list ≡ option_map (λ ps. Sparse ps) (pairs_in (view value.now))) }
{
    match read_pairs(alloc, setting, value)? {
        Some(pairs) => Ok(Some(Entries::Sparse(pairs))),
        None => Ok(None),
    }
}

/// The list that the value is.
pub(crate) fn read_entries(
    alloc: Global,
    setting: &Setting,
    value: &Value,
) -> Result<Option<Entries>, AllocError>
    ensures { IfOk result (λ list. list ≡ entries_in setting.now.sparse (view value.now)) }
{
    if setting.sparse {
        read_sparse(alloc, setting, value)
    } else {
        read_dense(alloc, setting, value)
    }
}

/// The list that the member of this key is.
pub(crate) fn entries_at(
    alloc: Global,
    setting: &Setting,
    value: &Value,
    key: &str,
) -> Result<Option<Entries>, AllocError>
    ensures { IfOk result (λ list. list ≡ entries_at setting.now.sparse key.now (view value.now)) }
{
    match value.get(key) {
        Some(member) => read_entries(alloc, setting, member),
        None => Ok(None),
    }
}

/// The list as a value, without its zeros.
pub(crate) fn entries_value(
    alloc: Global,
    names: &Numbering,
    list: &Entries,
) -> Result<Value, AllocError>
    ensures value { IfOk result (λ v. view v ≡ entries_data list.now) }
    ensures shape { IfOk result (λ _. are_entries true (entries_data list.now) ≡ true) }
    ensures back { IfOk result (λ _. entries_in true (entries_data list.now) ≡ Some (bare_entries list.now)) }
{
    let pairs = list.without_zeros(alloc)?;
    pairs_value(alloc, names, &pairs)
}

//! Evidence of upper bounds.

ghost use Rattle.std.specs.Prelude.{◌≡◌, IfOk, Some, codes, option_map, true};
ghost use Rattle.serde_json.specs.View.{view};
ghost use Rattle.cert_text.specs.Evidence.{is_unreached, is_upper, is_weighted, unreached_data, upper_data, upper_in, weights_data};
ghost use Rattle.cert_text.specs.Evidence.{weights_in, weights_object};
ghost use Rattle.cert_written.specs.Bare.{bare_entries, bare_upper};
ghost use Rattle.cert_text.specs.Pairs.{are_entries, entries_data, entries_in};

use crate::entries::{are_entries_at, entries_at, entries_value};
use crate::entry::Entry;
use crate::keys::{index_at, is_index_at, is_kind, member_count};
use crate::members::with;
use crate::numbering::Numbering;
use crate::setting::Setting;
use cert_written::{Entries, Upper};
use serde_json::{Map, Value};
use std::alloc::{AllocError, Global};

// Whether the value has the shape of evidence by a row at `-inf`.
fn is_unreached(value: &Value) -> bool
    ensures { result ≡ is_unreached (view value.now) }
{
    member_count(value) == 2 && is_kind(value, "unreached") && is_index_at(value, "row")
}

// Whether the value has the shape of evidence of this kind by multipliers.
fn is_weighted(setting: &Setting, value: &Value, kind: &str) -> bool
    ensures { result ≡ is_weighted setting.now.sparse kind.now (view value.now) }
{
    member_count(value) == 3
        && is_kind(value, kind)
        && are_entries_at(setting, value, "guards")
        && are_entries_at(setting, value, "rows")
}

// Whether the value has the shape of evidence.
fn is_upper(setting: &Setting, value: &Value) -> bool
    ensures { result ≡ is_upper setting.now.sparse (view value.now) }
{
    is_unreached(value)
        || is_weighted(setting, value, "bound")
        || is_weighted(setting, value, "empty")
}

// Multipliers of rows and of guards.
#[derive(Drop)]
struct Weights {
    rows: Entries,
    guards: Entries,
}

// The multipliers that the value has.
fn read_weights(
    alloc: Global,
    setting: &Setting,
    value: &Value,
) -> Result<Option<Weights>, AllocError>
    ensures { IfOk result (λ found. option_map (λ w. (w.rows, w.guards)) found ≡ weights_in setting.now.sparse (view value.now)) }
{
    let Some(guards) = entries_at(alloc, setting, value, "guards")? else {
        return Ok(None);
    };
    let Some(rows) = entries_at(alloc, setting, value, "rows")? else {
        return Ok(None);
    };
    Ok(Some(Weights { rows, guards }))
}

// The evidence that the value is.
fn read_upper(alloc: Global, setting: &Setting, value: &Value) -> Result<Option<Upper>, AllocError>
    ensures { IfOk result (λ upper. upper ≡ upper_in setting.now.sparse (view value.now)) }
{
    if is_kind(value, "unreached") {
        return Ok(index_at(value, "row").map(|row| Upper::Unreached { row }));
    }
    if is_kind(value, "bound") {
        let Some(Weights { rows, guards }) = read_weights(alloc, setting, value)? else {
            return Ok(None);
        };
        return Ok(Some(Upper::Bound { rows, guards }));
    }
    if is_kind(value, "empty") {
        let Some(Weights { rows, guards }) = read_weights(alloc, setting, value)? else {
            return Ok(None);
        };
        return Ok(Some(Upper::Empty { rows, guards }));
    }
    Ok(None)
}

// Evidence by a row as a value.
fn unreached_value(alloc: Global, row: u32) -> Result<Value, AllocError>
    ensures { IfOk result (λ v. view v ≡ unreached_data row) }
{
    let kind = Value::try_from_str(alloc, "unreached")?;
    let members = with(alloc, Map::new(alloc), "row", Value::from(row))?;
    let members = with(alloc, members, "kind", kind)?;
    Ok(Value::Object(members))
}

// The members of evidence by multipliers as a value.
fn weights_object(
    alloc: Global,
    guards: Value,
    kind: &str,
    rows: Value,
) -> Result<Value, AllocError>
    ensures { IfOk result (λ v. view v ≡ weights_object (view guards) kind.now (view rows)) }
{
    let kind = Value::try_from_str(alloc, kind)?;
    let members = with(alloc, Map::new(alloc), "rows", rows)?;
    let members = with(alloc, members, "kind", kind)?;
    let members = with(alloc, members, "guards", guards)?;
    Ok(Value::Object(members))
}

// Evidence of this kind by multipliers as a value.
fn weights_value(
    alloc: Global,
    names: &Numbering,
    kind: &str,
    rows: &Entries,
    guards: &Entries,
) -> Result<Value, AllocError>
    ensures value { IfOk result (λ v. view v ≡ weights_data kind.now rows.now guards.now) }
    ensures rows_shape { IfOk result (λ _. are_entries true (entries_data rows.now) ≡ true) }
    ensures guards_shape { IfOk result (λ _. are_entries true (entries_data guards.now) ≡ true) }
    ensures rows_back { IfOk result (λ _. entries_in true (entries_data rows.now) ≡ Some (bare_entries rows.now)) }
    ensures guards_back { IfOk result (λ _. entries_in true (entries_data guards.now) ≡ Some (bare_entries guards.now)) }
{
    let guards = entries_value(alloc, names, guards)?;
    let rows = entries_value(alloc, names, rows)?;
    weights_object(alloc, guards, kind, rows)
}

// The evidence as a value.
fn upper_value(alloc: Global, names: &Numbering, upper: &Upper) -> Result<Value, AllocError>
    ensures value { IfOk result (λ v. view v ≡ upper_data upper.now) }
    ensures shape { IfOk result (λ _. is_upper true (upper_data upper.now) ≡ true) }
    ensures back { IfOk result (λ _. upper_in true (upper_data upper.now) ≡ Some (bare_upper upper.now)) }
{
    match upper {
        Upper::Unreached { row } => unreached_value(alloc, *row),
        Upper::Empty { rows, guards } => weights_value(alloc, names, "empty", rows, guards),
        Upper::Bound { rows, guards } => weights_value(alloc, names, "bound", rows, guards),
    }
}

impl Entry for Upper {
    ghost use Rattle.std.specs.Prelude.{true};
    ghost use Rattle.cert_written.specs.Bare.{bare_upper};
    ghost use Rattle.cert_text.specs.Evidence.{is_upper, upper_data, upper_in};

    ghost shaped = { λ setting d. is_upper setting.sparse d };

    ghost element_in = { λ setting d. upper_in setting.sparse d };

    ghost element_data = { λ _ _ upper. upper_data upper };

    ghost bare = { bare_upper };

    ghost writable = { λ _ _ _. true };

    fn has_shape(setting: &Setting, value: &Value) -> bool {
        is_upper(setting, value)
    }

    fn read(alloc: Global, setting: &Setting, value: &Value) -> Result<Option<Upper>, AllocError> {
        read_upper(alloc, setting, value)
    }

    fn write(&self, alloc: Global, _rows: usize, names: &Numbering) -> Result<Value, AllocError> {
        upper_value(alloc, names, self)
    }
}

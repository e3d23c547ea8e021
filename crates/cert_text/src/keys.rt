//! Members of objects, indexes and unknowns.

ghost use Rattle.std.specs.Prelude.{◌≡◌, ◌<◌, IfOk, Some, codes, option_and_then};
ghost use Rattle.serde_json.specs.Find.{at};
ghost use Rattle.serde_json.specs.View.{view};
ghost use Rattle.cert_text.specs.Keys.{index_at, index_in, is_index, is_kind, is_unknown, item_count, member_count, numbered, passes_at};
ghost use Rattle.cert_text.specs.Keys.{unknown_at, unknown_in};
ghost use Rattle.cert_text.specs.StepItems.{unknown_data};

use serde_json::{Value, json};
use std::alloc::{AllocError, Global};

/// How many members an object has, and 0 for any other value.
pub(crate) fn member_count(value: &Value) -> usize
    ensures { result ≡ member_count (view value.now) }
{
    match value.as_object() {
        Some(members) => members.len(),
        None => 0,
    }
}

/// How many values a list has, and 0 for any other value.
pub(crate) fn item_count(value: &Value) -> usize
    ensures { result ≡ item_count (view value.now) }
{
    match value.as_array() {
        Some(items) => items.len(),
        None => 0,
    }
}

/// Whether the member `kind` is this text.
pub(crate) fn is_kind(value: &Value, kind: &str) -> bool
    ensures { result ≡ is_kind kind.now (view value.now) }
{
    match value.get("kind") {
        Some(member) => match member.as_str() {
            Some(found) => found == kind,
            None => false,
        },
        None => false,
    }
}

// The index that the value is.
fn index(value: &Value) -> Option<u32>
    ensures { result ≡ index_in (view value.now) }
{
    match value.as_u64() {
        Some(n) if n <= 4_294_967_295 => Some(n as u32),
        _ => None,
    }
}

/// The index that the member of this key is.
pub(crate) fn index_at(value: &Value, key: &str) -> Option<u32>
    ensures { result ≡ index_at key.now (view value.now) }
{
    match value.get(key) {
        Some(member) => index(member),
        None => None,
    }
}

/// Whether the member of this key is there and an index.
pub(crate) fn is_index_at(value: &Value, key: &str) -> bool
    ensures { result ≡ passes_at is_index key.now (view value.now) }
{
    match value.get(key) {
        Some(member) => index(member).is_some(),
        None => false,
    }
}

// The number of the unknown of this point and row, if it has one.
fn numbered(rows: usize, point: u32, row: u32) -> Option<u32>
    ensures { result ≡ numbered rows point row }
{
    let number = point as u128 * rows as u128 + row as u128;
    if (row as usize) < rows && number < 4_294_967_296 {
        Some(number as u32)
    } else {
        None
    }
}

/// The index at this place of a list.
pub(crate) fn index_in_list(value: &Value, place: usize) -> Option<u32>
    ensures { result ≡ option_and_then index_in (at place (view value.now)) }
{
    match value.get(place) {
        Some(item) => index(item),
        None => None,
    }
}

// The number of the unknown that the value is.
fn unknown(rows: usize, value: &Value) -> Option<u32>
    ensures { result ≡ unknown_in rows (view value.now) }
{
    if item_count(value) != 2 {
        return None;
    }
    let point = index_in_list(value, 0)?;
    let row = index_in_list(value, 1)?;
    numbered(rows, point, row)
}

/// The number of the unknown that the member `unknown` is.
pub(crate) fn unknown_at(rows: usize, value: &Value) -> Option<u32>
    ensures { result ≡ unknown_at rows (codes "unknown") (view value.now) }
{
    match value.get("unknown") {
        Some(member) => unknown(rows, member),
        None => None,
    }
}

/// Whether the member `unknown` is there and an unknown.
pub(crate) fn is_unknown_at(rows: usize, value: &Value) -> bool
    ensures { result ≡ passes_at (is_unknown rows) (codes "unknown") (view value.now) }
{
    match value.get("unknown") {
        Some(member) => unknown(rows, member).is_some(),
        None => false,
    }
}

/// The unknown as its point and its row.
pub(crate) fn unknown_value(alloc: Global, rows: usize, unknown: u32) -> Result<Value, AllocError>
    requires { 0 < rows }
    ensures value { IfOk result (λ v. view v ≡ unknown_data rows unknown) }
    ensures back { unknown_in rows (unknown_data rows unknown) ≡ Some unknown }
{
    let unknown = unknown as usize;
    json!(in alloc; [unknown / rows, unknown % rows])
}

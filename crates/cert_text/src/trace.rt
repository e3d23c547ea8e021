//! Traces: where they stand, or by their numbers.

ghost use Rattle.std.specs.Prelude.{◌≡◌, ◌+◌, IfOk, Some, codes, option_map, true};
ghost use Rattle.serde_json.specs.Data.{member, no_members, object};
ghost use Rattle.serde_json.specs.View.{view};
ghost use Rattle.cert_text.specs.Keys.{passes_at};
ghost use Rattle.cert_written.specs.Bare.{bare_trace};
ghost use Rattle.cert_text.specs.Traces.{is_trace, is_trace_by};
ghost use Rattle.cert_text.specs.Traces.{numbered_trace, trace_at, trace_by, trace_data, trace_in};
ghost use Rattle.cert_text.specs.Naming.{capped, entry_count};

use crate::entries::{are_entries_at, entries_at, entries_value};
use crate::entry::Entry;
use crate::keys::member_count;
use crate::limits::MOST_VALUES;
use crate::members::with;
use crate::numbering::Numbering;
use crate::setting::Setting;
use cert_written::{Entries, Trace, copied};
use serde_json::{Map, Value};
use std::alloc::{AllocError, Global};

// Whether the value has the shape of a trace.
fn is_trace(setting: &Setting, value: &Value) -> bool
    ensures { result ≡ is_trace setting.now.sparse (view value.now) }
{
    member_count(value) == 2
        && are_entries_at(setting, value, "free")
        && are_entries_at(setting, value, "start")
}

// The trace that the value is.
fn trace(alloc: Global, setting: &Setting, value: &Value) -> Result<Option<Trace>, AllocError>
    ensures { IfOk result (λ trace. trace ≡ trace_in setting.now.sparse (view value.now)) }
{
    let Some(free) = entries_at(alloc, setting, value, "free")? else {
        return Ok(None);
    };
    let Some(start) = entries_at(alloc, setting, value, "start")? else {
        return Ok(None);
    };
    Ok(Some(Trace { start, free }))
}

// The two lists as a value.
fn trace_object(alloc: Global, free: Value, start: Value) -> Result<Value, AllocError>
    ensures { IfOk result (λ v. view v ≡ object (member (codes "free") (view free) (member (codes "start") (view start) no_members))) }
{
    let members = with(alloc, Map::new(alloc), "start", start)?;
    let members = with(alloc, members, "free", free)?;
    Ok(Value::Object(members))
}

/// The trace as a value.
pub(crate) fn trace_value(
    alloc: Global,
    names: &Numbering,
    trace: &Trace,
) -> Result<Value, AllocError>
    ensures value { IfOk result (λ v. view v ≡ trace_data trace.now) }
    ensures shape { IfOk result (λ _. is_trace true (trace_data trace.now) ≡ true) }
    ensures back { IfOk result (λ _. trace_in true (trace_data trace.now) ≡ Some (bare_trace trace.now)) }
{
    let free = entries_value(alloc, names, &trace.free)?;
    let start = entries_value(alloc, names, &trace.start)?;
    trace_object(alloc, free, start)
}

impl Entry for Trace {
    ghost use Rattle.std.specs.Prelude.{true};
    ghost use Rattle.cert_written.specs.Bare.{bare_trace};
    ghost use Rattle.cert_text.specs.Traces.{is_trace, trace_data, trace_in};

    ghost shaped = { λ setting d. is_trace setting.sparse d };

    ghost element_in = { λ setting d. trace_in setting.sparse d };

    ghost element_data = { λ _ _ t. trace_data t };

    ghost bare = { bare_trace };

    ghost writable = { λ _ _ _. true };

    fn has_shape(setting: &Setting, value: &Value) -> bool {
        is_trace(setting, value)
    }

    fn read(alloc: Global, setting: &Setting, value: &Value) -> Result<Option<Trace>, AllocError> {
        trace(alloc, setting, value)
    }

    fn write(&self, alloc: Global, _rows: usize, names: &Numbering) -> Result<Value, AllocError> {
        trace_value(alloc, names, self)
    }
}

// How many values a list has, counted up to `MOST_VALUES + 1`.
fn entry_count(list: &Entries) -> usize
    ensures { result ≡ capped (entry_count list.now) }
{
    match list {
        Entries::Dense(list) => list.as_slice().len().min(MOST_VALUES + 1),
        Entries::Sparse(pairs) => pairs.as_slice().len().min(MOST_VALUES + 1),
    }
}

/// How many values a trace holds, counted up to `MOST_VALUES + 1`.
pub(crate) fn trace_values(trace: &Trace) -> usize
    ensures { result ≡ capped (entry_count trace.now.start + entry_count trace.now.free) }
{
    (entry_count(&trace.start) + entry_count(&trace.free)).min(MOST_VALUES + 1)
}

// The trace that the value names among these by its number, counted from 0.
fn numbered_trace<'a>(traces: &'a [Trace], value: &Value) -> Option<&'a Trace>
    ensures { option_map (λ t. t.now) result ≡ numbered_trace traces.now (view value.now) }
{
    match value.as_u64() {
        Some(number) => traces.get(number as usize),
        None => None,
    }
}

/// The trace that the member of this key names among these.
pub(crate) fn named_at<'a>(traces: &'a [Trace], value: &Value, key: &str) -> Option<&'a Trace>
    ensures { option_map (λ t. t.now) result ≡ trace_at true (Some traces.now) key.now (view value.now) }
{
    match value.get(key) {
        Some(member) => numbered_trace(traces, member),
        None => None,
    }
}

// Whether the value has the shape of a trace, or names one, where traces are listed.
fn is_trace_by(setting: &Setting, value: &Value) -> bool
    ensures { result ≡ is_trace_by setting.now.sparse setting.now.traces (view value.now) }
{
    match &setting.traces {
        Some(traces) => numbered_trace(traces.as_slice(), value).is_some(),
        None => is_trace(setting, value),
    }
}

/// Whether the member of this key is there and a trace, or names one, where traces are listed.
pub(crate) fn is_trace_at(setting: &Setting, value: &Value, key: &str) -> bool
    ensures { result ≡ passes_at (is_trace_by setting.now.sparse setting.now.traces) key.now (view value.now) }
{
    match value.get(key) {
        Some(member) => is_trace_by(setting, member),
        None => false,
    }
}

// A copy of the trace that the value names among these.
fn copy_numbered(
    alloc: Global,
    traces: &[Trace],
    value: &Value,
) -> Result<Option<Trace>, AllocError>
    ensures { IfOk result (λ trace. trace ≡ numbered_trace traces.now (view value.now)) }
{
    match numbered_trace(traces, value) {
        Some(trace) => Ok(Some(copied(alloc, trace)?)),
        None => Ok(None),
    }
}

// The trace that the value is, or a copy of the one that it names, where traces are listed.
fn trace_by(alloc: Global, setting: &Setting, value: &Value) -> Result<Option<Trace>, AllocError>
    ensures { IfOk result (λ trace. trace ≡ trace_by setting.now.sparse setting.now.traces (view value.now)) }
{
    match &setting.traces {
        Some(traces) => copy_numbered(alloc, traces.as_slice(), value),
        None => trace(alloc, setting, value),
    }
}

/// The trace that the member of this key is, or a copy of the one that it names, where traces are listed.
pub(crate) fn trace_at(
    alloc: Global,
    setting: &Setting,
    value: &Value,
    key: &str,
) -> Result<Option<Trace>, AllocError>
    ensures { IfOk result (λ trace. trace ≡ trace_at setting.now.sparse setting.now.traces key.now (view value.now)) }
{
    match value.get(key) {
        Some(member) => trace_by(alloc, setting, member),
        None => Ok(None),
    }
}

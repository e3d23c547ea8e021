//! Reading a certificate.

ghost use Rattle.std.specs.Prelude.{◌≡◌, ◌≢◌, Err, IfErr, IfOk, IsErrOf, List, MatchResult, None, Ok, Some, codes, option_and_then};
ghost use Rattle.serde_json.specs.Data.{Data};
ghost use Rattle.serde_json.specs.Find.{as_i64, as_number, as_u64, get};
ghost use Rattle.serde_json.specs.View.{view};
ghost use Rattle.base_values.specs.Documents.{value_of};
ghost use Rattle.base_values.specs.Outline.{outline_of};
ghost use Rattle.base_fractions.specs.declared.ext.Ext.{Ext};
ghost use Rattle.cert_text.specs.BoundLines.{joined};
ghost use Rattle.cert_text.specs.Naming.{capped, named_traces, values_of};
ghost use Rattle.cert_text.specs.Traces.{listing};
ghost use Rattle.cert_text.specs.Certificates.{IsWritable, Spells, SpellsCert, and_then, bounds_in, cert_in, fields_in, format_in};
ghost use Rattle.cert_text.specs.Certificates.{has_key, has_keys, has_traces, is_sparse_form, is_top, list_from, natural_format, rest_in};
ghost use Rattle.cert_text.specs.Certificates.{step_setting, steps_in, top_in, traces_in};

use crate::bounds::{Line, joined};
use crate::entry::Entry;
use crate::fault::{Field, FormFault};
use crate::keys::member_count;
use crate::limits::MOST_VALUES;
use crate::listed::{count_elements, read_elements};
use crate::setting::{Setting, Traces};
use base_fractions::Ext;
use base_values::{Document, Fault};
use cert_written::{Cert, Entries, Rows, Step, Steps, Trace, Upper, Uppers};
use flow_systems::Bounds;
use json::Scratch;
use serde_json::Value;
use std::alloc::Global;

// Whether the value has a member of this key.
fn has_key(value: &Value, key: &str) -> bool
    ensures { result ≡ has_key key.now (view value.now) }
{
    value.get(key).is_some()
}

// Whether there is a sixth key, the list of traces.
fn has_traces(value: &Value) -> bool
    ensures { result ≡ has_traces (view value.now) }
{
    member_count(value) == 6 && has_key(value, "traces")
}

// Whether the value is an object with exactly the five keys of format 1, or these and `traces`.
fn is_top(value: &Value) -> bool
    ensures { result ≡ is_top (view value.now) }
{
    (member_count(value) == 5 || has_traces(value))
        && has_key(value, "bounds")
        && has_key(value, "format")
        && has_key(value, "rows")
        && has_key(value, "steps")
        && has_key(value, "uppers")
}

// The format as a whole number without a sign.
fn natural_format(value: &Value) -> Option<u64>
    ensures { result ≡ natural_format (view value.now) }
{
    match value.get("format") {
        Some(format) => format.as_u64(),
        None => None,
    }
}

// The format as a whole number with a sign.
fn signed_format(value: &Value) -> Option<i64>
    ensures { result ≡ option_and_then as_i64 (option_and_then as_number (get (codes "format") (view value.now))) }
{
    match value.get("format") {
        Some(format) => format.as_i64(),
        None => None,
    }
}

// Whether a format has the keys of this value.
fn has_keys(value: &Value, natural: Option<u64>) -> bool
    ensures { result ≡ has_keys (has_traces (view value.now)) natural }
{
    if has_traces(value) {
        natural == Some(2) || natural == Some(3)
    } else {
        natural == Some(1)
    }
}

// Refuses any format but that of the keys.
fn test_format(value: &Value) -> Result<(), FormFault>
    ensures { result ≡ format_in (view value.now) }
{
    let natural = natural_format(value);
    if has_keys(value, natural) {
        return Ok(());
    }
    if natural == Some(1) || natural == Some(2) || natural == Some(3) {
        return Err(FormFault::Shape(Field::Format));
    }
    if natural.is_some() || signed_format(value).is_some() {
        return Err(FormFault::Version);
    }
    Err(FormFault::Shape(Field::Format))
}

// The elements of a field that is a list.
fn read_field<T: Entry>(
    alloc: Global,
    setting: &Setting,
    document: &Document<'_>,
    key: &str,
    field: Field,
) -> Result<Vec<T>, FormFault>
    ensures { MatchResult result
        (λ list. list_from field (T.shaped setting.now) (T.element_in setting.now) (get key.now (value_of document.now)) ≡ Ok list.items)
        (λ fault. fault ≢ FormFault.NoMemory → list_from field (T.shaped setting.now) (T.element_in setting.now)
        (get key.now (value_of document.now)) ≡ Err fault) }
{
    let mut scratch = Scratch::new(alloc);
    let Some(found) = document.elements(&mut scratch, key)? else {
        return Err(FormFault::Shape(field));
    };
    let mut elements = found;
    read_elements(alloc, setting, &mut elements, field)
}

// The bounds of all points, one after another.
fn read_bounds(
    alloc: Global,
    lists: &Setting,
    document: &Document<'_>,
) -> Result<Vec<Ext>, FormFault>
    ensures { MatchResult result
        (λ bounds. (lines : List (List Ext)) × (bounds_in lists.now.rows (value_of document.now) ≡ Ok lines)
        × (bounds.items ≡ joined lines))
        (λ fault. fault ≢ FormFault.NoMemory → bounds_in lists.now.rows (value_of document.now) ≡ Err fault) }
{
    let lines = read_field::<Line>(alloc, lists, document, "bounds", Field::Bounds)?;
    Ok(joined(alloc, lists.rows, lines.as_slice())?)
}

// The traces, if they stand in a list of their own.
fn read_traces(
    alloc: Global,
    lists: &Setting,
    document: &Document<'_>,
    listed: bool,
) -> Result<Option<Traces>, FormFault>
    requires { listed ≡ has_traces (value_of document.now) }
    ensures { MatchResult result (λ traces. traces_in lists.now.sparse (value_of document.now) ≡ Ok traces)
        (λ fault. fault ≢ FormFault.NoMemory → traces_in lists.now.sparse (value_of document.now) ≡ Err fault) }
{
    if !listed {
        return Ok(None);
    }
    let traces = read_field::<Trace>(alloc, lists, document, "traces", Field::Traces)?;
    Ok(Some(Traces::new(traces)))
}

// The steps and the evidence of a certificate.
#[derive(Drop)]
struct Rest {
    steps: Vec<Step>,
    uppers: Vec<Upper>,
}

// How many values the traces hold that the steps name, counted up to `MOST_VALUES + 1`. Nothing is copied.
fn count_values(
    alloc: Global,
    setting: &Setting,
    traces: &[Trace],
    document: &Document<'_>,
) -> Result<usize, FormFault>
    requires { setting.now ≡ listing setting.now.rows traces.now }
    ensures { MatchResult result
        (λ n. and_then (steps_in setting.now (value_of document.now)) (λ steps. Ok (capped (values_of (named_traces steps)))) ≡ Ok n)
        (λ fault. fault ≢ FormFault.NoMemory
        → and_then (steps_in setting.now (value_of document.now)) (λ steps. Ok (capped (values_of (named_traces steps)))) ≡ Err fault) }
{
    let mut scratch = Scratch::new(alloc);
    let Some(found) = document.elements(&mut scratch, "steps")? else {
        return Err(FormFault::Shape(Field::Steps));
    };
    let mut elements = found;
    count_elements::<Step>(alloc, setting, traces, &mut elements, Field::Steps)
}

// The steps and the evidence where traces are listed. A step is read only once all steps are known not to expand too far.
fn read_listed(
    alloc: Global,
    lists: &Setting,
    setting: &Setting,
    traces: &[Trace],
    document: &Document<'_>,
) -> Result<Rest, FormFault>
    requires { setting.now ≡ listing setting.now.rows traces.now }
    ensures { MatchResult result
        (λ rest. rest_in lists.now.sparse setting.now (value_of document.now) ≡ Ok (rest.steps.items, rest.uppers.items))
        (λ fault. fault ≢ FormFault.NoMemory → rest_in lists.now.sparse setting.now (value_of document.now) ≡ Err fault) }
{
    let values = count_values(alloc, setting, traces, document)?;
    let uppers = read_field::<Upper>(alloc, lists, document, "uppers", Field::Uppers)?;
    if values > MOST_VALUES {
        return Err(FormFault::Expanded);
    }
    let steps = read_field::<Step>(alloc, setting, document, "steps", Field::Steps)?;
    Ok(Rest { steps, uppers })
}

// The steps and the evidence where traces stand in their places.
fn read_placed(
    alloc: Global,
    lists: &Setting,
    setting: &Setting,
    document: &Document<'_>,
) -> Result<Rest, FormFault>
    requires { setting.now.traces ≡ None }
    ensures { MatchResult result
        (λ rest. rest_in lists.now.sparse setting.now (value_of document.now) ≡ Ok (rest.steps.items, rest.uppers.items))
        (λ fault. fault ≢ FormFault.NoMemory → rest_in lists.now.sparse setting.now (value_of document.now) ≡ Err fault) }
{
    let steps = read_field::<Step>(alloc, setting, document, "steps", Field::Steps)?;
    let uppers = read_field::<Upper>(alloc, lists, document, "uppers", Field::Uppers)?;
    Ok(Rest { steps, uppers })
}

// The steps and the evidence.
fn read_rest(
    alloc: Global,
    lists: &Setting,
    setting: &Setting,
    document: &Document<'_>,
) -> Result<Rest, FormFault>
    requires { setting.now ≡ step_setting setting.now.rows setting.now.traces }
    ensures { MatchResult result
        (λ rest. rest_in lists.now.sparse setting.now (value_of document.now) ≡ Ok (rest.steps.items, rest.uppers.items))
        (λ fault. fault ≢ FormFault.NoMemory → rest_in lists.now.sparse setting.now (value_of document.now) ≡ Err fault) }
{
    match &setting.traces {
        Some(traces) => read_listed(alloc, lists, setting, traces.as_slice(), document),
        None => read_placed(alloc, lists, setting, document),
    }
}

// Whether lists of fractions are without zeros.
fn is_sparse_form(value: &Value) -> bool
    ensures { result ≡ is_sparse_form (view value.now) }
{
    natural_format(value) == Some(3)
}

// The setting of steps of a certificate of so many rows with these traces.
fn step_setting(rows: usize, traces: Option<Traces>) -> Setting
    ensures { result ≡ step_setting rows traces }
{
    let sparse = traces.is_some();
    Setting {
        rows,
        traces,
        sparse,
    }
}

// The fields one after another.
fn read_fields(
    alloc: Global,
    sparse: bool,
    listed: bool,
    document: &Document<'_>,
) -> Result<Cert, FormFault>
    requires { listed ≡ has_traces (value_of document.now) }
    ensures { MatchResult result (λ c. fields_in sparse (value_of document.now) ≡ Ok c)
        (λ fault. fault ≢ FormFault.NoMemory → fields_in sparse (value_of document.now) ≡ Err fault) }
{
    let start = Setting {
        rows: 0,
        traces: None,
        sparse,
    };
    let rows = read_field::<Entries>(alloc, &start, document, "rows", Field::Rows)?;
    let count = rows.len();
    let lists = Setting {
        rows: count,
        traces: None,
        sparse,
    };
    let bounds = read_bounds(alloc, &lists, document)?;
    let traces = read_traces(alloc, &lists, document, listed)?;
    let setting = step_setting(count, traces);
    let Rest { steps, uppers } = read_rest(alloc, &lists, &setting, document)?;
    Ok(Cert {
        rows: Rows::new(rows),
        bounds: Bounds::new(bounds),
        steps: Steps::new(steps),
        uppers: Uppers::new(uppers),
    })
}

// Refuses all but the keys and the format of a certificate.
fn test_top(outline: &Value) -> Result<(), FormFault>
    ensures { result ≡ and_then (top_in (view outline.now)) (λ _. format_in (view outline.now)) }
{
    if !is_top(outline) {
        return Err(FormFault::Shape(Field::Top));
    }
    test_format(outline)
}

// The certificate that the text is whose value has this outline.
fn read_cert(alloc: Global, document: &Document<'_>, outline: &Value) -> Result<Cert, FormFault>
    requires { view outline.now ≡ outline_of (value_of document.now) }
    ensures { MatchResult result (λ c. cert_in (value_of document.now) ≡ Ok c)
        (λ fault. fault ≢ FormFault.NoMemory → cert_in (value_of document.now) ≡ Err fault) }
{
    test_top(outline)?;
    read_fields(
        alloc,
        is_sparse_form(outline),
        has_traces(outline),
        document,
    )
}

/// The certificate that the bytes are, in format 1, 2 or 3. It has the traces in their places, in each.
///
/// It refuses all other bytes, by the first field that is refused in the order of `Field`, all shapes of a field before
/// its numbers: `NotJson` exactly where the bytes are no JSON, and every other fault but `NoMemory` exactly where
/// `specs/Certificates.antt` names it. `Expanded` comes after all fields, in formats 2 and 3 alone. The formats are written out in
/// `docs/FORMATS.md`.
pub fn read(alloc: Global, bytes: &[u8]) -> Result<Cert, FormFault>
    ensures ok { IfOk result (λ c. SpellsCert bytes.now c) }
    ensures writable { IfOk result IsWritable }
    ensures not_json { IsErrOf result FormFault.NotJson → (d : Data) → Spells bytes.now d → ⊥ }
    ensures refused { IfErr result (λ fault. fault ≢ FormFault.NotJson → fault ≢ FormFault.NoMemory →
        (d : Data) × Spells bytes.now d × (cert_in d ≡ Err fault)) }
{
    match Document::new(alloc, bytes) {
        Ok(both) => {
            let (document, outline) = both;
            read_cert(alloc, &document, &outline)
        }
        Err(Fault::NotJson) => Err(FormFault::NotJson),
        Err(Fault::NoMemory) => Err(FormFault::NoMemory),
    }
}

//! Writing a certificate.

ghost use Rattle.std.specs.Prelude.{◌≡◌, ◌&&◌, [], IfOk, IsTrue, Some, codes, map, nat_lt, true};
ghost use Rattle.std.specs.List.{list_all};
ghost use Rattle.serde_json.specs.Data.{member, no_members, object, put};
ghost use Rattle.serde_json.specs.View.{members_view, view};
ghost use Rattle.serde_json.specs.Written.{compact_text};
ghost use Rattle.cert_written.specs.Bare.{bare_cert, bare_step, bare_trace, bare_upper};
ghost use Rattle.cert_written.specs.Shaped.{has_item};
ghost use Rattle.cert_text.specs.Keys.{index_data};
ghost use Rattle.cert_text.specs.Lists.{is_list, list_data, list_in};
ghost use Rattle.cert_text.specs.Traces.{is_trace, relisting, trace_data, trace_in};
ghost use Rattle.cert_text.specs.Naming.{is_listed, named_traces, step_traces, with_traces};
ghost use Rattle.cert_text.specs.StepForms.{is_step, step_data, step_in};
ghost use Rattle.cert_text.specs.Evidence.{is_upper, upper_data, upper_in};
ghost use Rattle.cert_text.specs.Certificates.{IsBeyond, IsWithin, IsWritable, SpellsCert, SpellsTooMany, cert_data};
ghost use Rattle.cert_text.specs.Certificates.{cert_in, last_data, listed_traces, read_again};

use crate::bounds::bounds_value;
use crate::entry::write_list;
use crate::members::with;
use crate::naming::number_all;
use crate::numbering::Numbering;
use cert_written::{Cert, Step, Trace, Upper};
use serde_json::{Map, Value};
use std::alloc::{AllocError, Global};

// The last fields as members.
fn last_fields(
    alloc: Global,
    steps: Value,
    traces: Value,
    uppers: Value,
) -> Result<Map<String, Value>, AllocError>
    ensures { IfOk result (λ m. members_view m.entries ≡ member (codes "steps") (view steps) (member (codes "traces") (view traces)
        (member (codes "uppers") (view uppers) no_members))) }
{
    let members = with(alloc, Map::new(alloc), "uppers", uppers)?;
    let members = with(alloc, members, "traces", traces)?;
    with(alloc, members, "steps", steps)
}

// Steps, the traces that they name and evidence as the last fields of a certificate of `count` rows.
fn last_members(
    alloc: Global,
    count: usize,
    names: &Numbering,
    steps: &[Step],
    traces: &[Trace],
    uppers: &[Upper],
) -> Result<Map<String, Value>, AllocError>
    requires { IsTrue (list_all (λ s. nat_lt 0 count && has_item s && list_all (is_listed names.now) (step_traces s)) steps.now) }
    ensures members { IfOk result (λ m. members_view m.entries ≡ last_data count names.now steps.now traces.now uppers.now) }
    ensures steps_shape { IfOk result (λ _. is_list (is_step (relisting count names.now)) (list_data (step_data count names.now) steps.now)
        ≡ true) }
    ensures steps_back { IfOk result (λ _. list_in (step_in (relisting count names.now)) (list_data (step_data count names.now) steps.now)
        ≡ Some (map bare_step steps.now)) }
    ensures traces_shape { IfOk result (λ _. is_list (is_trace true) (list_data trace_data traces.now) ≡ true) }
    ensures traces_back { IfOk result (λ _. list_in (trace_in true) (list_data trace_data traces.now) ≡ Some (map bare_trace traces.now)) }
    ensures uppers_shape { IfOk result (λ _. is_list (is_upper true) (list_data upper_data uppers.now) ≡ true) }
    ensures uppers_back { IfOk result (λ _. list_in (upper_in true) (list_data upper_data uppers.now) ≡ Some (map bare_upper uppers.now)) }
{
    let steps = write_list(alloc, count, names, steps)?;
    let traces = write_list(alloc, count, names, traces)?;
    let uppers = write_list(alloc, count, names, uppers)?;
    last_fields(alloc, steps, traces, uppers)
}

// The last fields with the others and the format as a value.
fn cert_object(
    alloc: Global,
    bounds: Value,
    rows: Value,
    last: Map<String, Value>,
) -> Result<Value, AllocError>
    ensures { IfOk result (λ v. view v ≡ object (put (codes "bounds") (view bounds) (put (codes "format") (index_data 3)
        (put (codes "rows") (view rows) (members_view last.entries))))) }
{
    let members = with(alloc, last, "rows", rows)?;
    let members = with(alloc, members, "format", Value::from(3u32))?;
    let members = with(alloc, members, "bounds", bounds)?;
    Ok(Value::Object(members))
}

// The numbers of the traces that the steps name.
fn numbering_of(alloc: Global, steps: &[Step]) -> Result<Numbering, AllocError>
    ensures { IfOk result (λ names. names ≡ with_traces [] (named_traces steps.now)) }
{
    let mut names = Numbering::new(alloc);
    number_all(&mut names, steps)?;
    Ok(names)
}

// The certificate as a value, where these are the numbers of its traces.
fn named_value(alloc: Global, cert: &Cert, names: &Numbering) -> Result<Value, AllocError>
    requires writable { IsWritable cert.now }
    requires names { names.now ≡ listed_traces cert.now }
    ensures value { IfOk result (λ v. view v ≡ cert_data cert.now) }
    ensures back { IfOk result (λ _. cert_in (cert_data cert.now) ≡ read_again cert.now) }
{
    let count = cert.rows.as_slice().len();
    let bounds = bounds_value(alloc, count, names, &cert.bounds)?;
    let rows = write_list(alloc, count, names, cert.rows.as_slice())?;
    let last = last_members(
        alloc,
        count,
        names,
        cert.steps.as_slice(),
        names.as_slice(),
        cert.uppers.as_slice(),
    )?;
    cert_object(alloc, bounds, rows, last)
}

// The certificate as a value.
fn cert_value(alloc: Global, cert: &Cert) -> Result<Value, AllocError>
    requires { IsWritable cert.now }
    ensures value { IfOk result (λ v. view v ≡ cert_data cert.now) }
    ensures back { IfOk result (λ _. cert_in (cert_data cert.now) ≡ read_again cert.now) }
{
    let names = numbering_of(alloc, cert.steps.as_slice())?;
    named_value(alloc, cert, &names)
}

/// The certificate in format 3: JSON with no space, the keys of each object in the order of their bytes. Zeros of lists of
/// fractions aren't written. Each trace is written once, in the order in which the items name them first.
///
/// The certificate has a row, whole points of bounds, and an item in each step; or it has neither rows nor bounds nor
/// steps, and then its bounds are written as an empty list. The format is written out in `docs/FORMATS.md`. What is
/// written reads back as the certificate without the zeros of its lists where its traces then hold at most `MOST_VALUES`
/// values, and else is refused as `Expanded`.
pub fn write(alloc: Global, cert: &Cert) -> Result<Vec<u8>, AllocError>
    requires { IsWritable cert.now }
    ensures text { IfOk result (λ bytes. bytes.items ≡ compact_text (cert_data cert.now)) }
    ensures reads_back { IfOk result (λ bytes. IsWithin cert.now → SpellsCert bytes.items (bare_cert cert.now)) }
    ensures expands { IfOk result (λ bytes. IsBeyond cert.now → SpellsTooMany bytes.items) }
{
    let value = cert_value(alloc, cert)?;
    value.to_vec(alloc)
}

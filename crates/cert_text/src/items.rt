//! The items of steps.

ghost use Rattle.std.specs.Prelude.{◌≡◌, ◌≤◌, ◌+◌, [], ◌∷◌, IfOk, IfSome, OnOk, codes, option_and_then, option_map};
ghost use Rattle.serde_json.specs.Data.{member, no_members, object, put};
ghost use Rattle.serde_json.specs.Find.{get};
ghost use Rattle.serde_json.specs.View.{members_view, view};
ghost use Rattle.cert_text.specs.Keys.{index_data, passes_at};
ghost use Rattle.cert_text.specs.Numbers.{frac_in, is_text};
ghost use Rattle.cert_text.specs.Naming.{capped, values_of, with_traces};
ghost use Rattle.cert_text.specs.StepItems.{has_start, has_two_traces, two_traces_in};
ghost use Rattle.cert_text.specs.Traces.{listing};

use crate::entry::Entry;
use crate::keys::{index_at, is_index_at, is_unknown_at, member_count, unknown_at, unknown_value};
use crate::limits::MOST_VALUES;
use crate::members::with;
use crate::naming::Naming;
use crate::numbering::Numbering;
use crate::numbers::{is_text, number_value, read_number};
use crate::setting::Setting;
use crate::trace::{is_trace_at, named_at, trace_at, trace_values};
use base_fractions::Frac;
use cert_written::{Item, JumpItem, RayItem, Trace};
use serde_json::{Map, Value};
use std::alloc::{AllocError, Global};

// Whether the member of this key is there and a text.
fn is_text_at(value: &Value, key: &str) -> bool
    ensures { result ≡ passes_at is_text key.now (view value.now) }
{
    match value.get(key) {
        Some(member) => is_text(member),
        None => false,
    }
}

// The fraction that the member of this key is.
fn frac_at(value: &Value, key: &str) -> Option<Frac>
    ensures { result ≡ option_and_then frac_in (get key.now (view value.now)) }
{
    match value.get(key) {
        Some(member) => read_number(member),
        None => None,
    }
}

// Whether `edge`, `low` and `unknown` are there and have their shapes.
fn has_start(setting: &Setting, value: &Value) -> bool
    ensures { result ≡ has_start setting.now (view value.now) }
{
    is_index_at(value, "edge")
        && is_trace_at(setting, value, "low")
        && is_unknown_at(setting.rows, value)
}

// What an item of a jump or of a ray has: a second trace and a number besides `edge`, `low` and `unknown`.
#[derive(Drop)]
struct TwoTraces {
    unknown: u32,
    edge: u32,
    low: Trace,
    second: Trace,
    number: Frac,
}

// Whether the value has the shape of an item with a second trace and a number at these keys.
fn has_two_traces(setting: &Setting, value: &Value, second: &str, number: &str) -> bool
    ensures { result ≡ has_two_traces second.now number.now setting.now (view value.now) }
{
    member_count(value) == 5
        && has_start(setting, value)
        && is_trace_at(setting, value, second)
        && is_text_at(value, number)
}

// The parts of an item whose edge and traces are known, where its number and its unknown are there.
fn two_traces_of(
    edge: u32,
    low: Trace,
    second: Trace,
    number: Option<Frac>,
    unknown: Option<u32>,
) -> Option<TwoTraces>
    ensures { result ≡ option_and_then (λ amount. option_map (λ place. record {
      unknown = place;
      edge = edge;
      low = low;
      second = second;
      number = amount;
    }) unknown) number }
{
    let number = number?;
    let unknown = unknown?;
    Some(TwoTraces {
        unknown,
        edge,
        low,
        second,
        number,
    })
}

// The parts of an item with a second trace and a number at these keys.
fn read_two_traces(
    alloc: Global,
    setting: &Setting,
    value: &Value,
    second: &str,
    number: &str,
) -> Result<Option<TwoTraces>, AllocError>
    ensures { IfOk result (λ parts. parts ≡ two_traces_in second.now number.now setting.now (view value.now)) }
{
    let Some(edge) = index_at(value, "edge") else {
        return Ok(None);
    };
    let Some(low) = trace_at(alloc, setting, value, "low")? else {
        return Ok(None);
    };
    let Some(second) = trace_at(alloc, setting, value, second)? else {
        return Ok(None);
    };
    let number = frac_at(value, number);
    let unknown = unknown_at(setting.rows, value);
    Ok(two_traces_of(edge, low, second, number, unknown))
}

// The last members of an item with a number at this key, which stands between `low` and `unknown`.
fn ending(
    alloc: Global,
    low: usize,
    key: &str,
    number: Value,
    unknown: Value,
) -> Result<Map<String, Value>, AllocError>
    ensures { IfOk result (λ m. members_view m.entries ≡ put (codes "low") (index_data low) (put key.now (view number)
        (member (codes "unknown") (view unknown) no_members))) }
{
    let members = with(alloc, Map::new(alloc), "unknown", unknown)?;
    let members = with(alloc, members, key, number)?;
    with(alloc, members, "low", Value::from(low))
}

// The members of an item of a plain step as a value.
fn plain_item_object(
    alloc: Global,
    edge: u32,
    low: usize,
    to: Value,
    unknown: Value,
) -> Result<Value, AllocError>
    ensures { IfOk result (λ v. view v ≡ object (member (codes "edge") (index_data edge)
        (member (codes "low") (index_data low) (member (codes "to") (view to)
        (member (codes "unknown") (view unknown) no_members))))) }
{
    let members = ending(alloc, low, "to", to, unknown)?;
    let members = with(alloc, members, "edge", Value::from(edge))?;
    Ok(Value::Object(members))
}

// The members of an item of a jump as a value.
fn jump_item_object(
    alloc: Global,
    edge: u32,
    high: usize,
    low: usize,
    to: Value,
    unknown: Value,
) -> Result<Value, AllocError>
    ensures { IfOk result (λ v. view v ≡ object (member (codes "edge") (index_data edge)
        (member (codes "high") (index_data high) (member (codes "low")
        (index_data low) (member (codes "to") (view to) (member (codes "unknown") (view unknown) no_members)))))) }
{
    let members = ending(alloc, low, "to", to, unknown)?;
    let members = with(alloc, members, "high", Value::from(high))?;
    let members = with(alloc, members, "edge", Value::from(edge))?;
    Ok(Value::Object(members))
}

// The members of an item of a ray as a value.
fn ray_item_object(
    alloc: Global,
    direction: usize,
    edge: u32,
    low: usize,
    rate: Value,
    unknown: Value,
) -> Result<Value, AllocError>
    ensures { IfOk result (λ v. view v ≡ object (member (codes "direction") (index_data direction) (member (codes "edge") (index_data edge)
        (member (codes "low") (index_data low) (member (codes "rate") (view rate)
        (member (codes "unknown") (view unknown) no_members)))))) }
{
    let members = ending(alloc, low, "rate", rate, unknown)?;
    let members = with(alloc, members, "edge", Value::from(edge))?;
    let members = with(alloc, members, "direction", Value::from(direction))?;
    Ok(Value::Object(members))
}

impl Entry for Item {
    ghost use Rattle.std.specs.Prelude.{◌&&◌, nat_lt};
    ghost use Rattle.std.specs.List.{list_all};
    ghost use Rattle.cert_text.specs.Naming.{is_listed, plain_traces};
    ghost use Rattle.cert_written.specs.Bare.{bare_item};
    ghost use Rattle.cert_text.specs.StepItems.{is_plain_item, plain_item_data, plain_item_in};

    ghost shaped = { is_plain_item };

    ghost element_in = { plain_item_in };

    ghost element_data = { plain_item_data };

    ghost bare = { bare_item };

    ghost writable = { λ rows names item. nat_lt 0 rows && list_all (is_listed names) (plain_traces item) };

    fn has_shape(setting: &Setting, value: &Value) -> bool {
        member_count(value) == 4 && has_start(setting, value) && is_text_at(value, "to")
    }

    fn read(alloc: Global, setting: &Setting, value: &Value) -> Result<Option<Item>, AllocError> {
        let Some(edge) = index_at(value, "edge") else {
            return Ok(None);
        };
        let Some(low) = trace_at(alloc, setting, value, "low")? else {
            return Ok(None);
        };
        let Some(to) = frac_at(value, "to") else {
            return Ok(None);
        };
        let Some(unknown) = unknown_at(setting.rows, value) else {
            return Ok(None);
        };
        Ok(Some(Item {
            unknown,
            edge,
            low,
            to,
        }))
    }

    fn write(&self, alloc: Global, rows: usize, names: &Numbering) -> Result<Value, AllocError> {
        let low = names.number(&self.low)?;
        let to = number_value(alloc, self.to)?;
        let unknown = unknown_value(alloc, rows, self.unknown)?;
        plain_item_object(alloc, self.edge, low, to, unknown)
    }
}

impl Entry for JumpItem {
    ghost use Rattle.std.specs.Prelude.{◌&&◌, nat_lt};
    ghost use Rattle.std.specs.List.{list_all};
    ghost use Rattle.cert_text.specs.Naming.{is_listed, jump_traces};
    ghost use Rattle.cert_written.specs.Bare.{bare_jump_item};
    ghost use Rattle.cert_text.specs.StepItems.{is_jump_item, jump_item_data, jump_item_in};

    ghost shaped = { is_jump_item };

    ghost element_in = { jump_item_in };

    ghost element_data = { jump_item_data };

    ghost bare = { bare_jump_item };

    ghost writable = { λ rows names item. nat_lt 0 rows && list_all (is_listed names) (jump_traces item) };

    fn has_shape(setting: &Setting, value: &Value) -> bool {
        has_two_traces(setting, value, "high", "to")
    }

    fn read(
        alloc: Global,
        setting: &Setting,
        value: &Value,
    ) -> Result<Option<JumpItem>, AllocError> {
        let Some(parts) = read_two_traces(alloc, setting, value, "high", "to")? else {
            return Ok(None);
        };
        let TwoTraces {
            unknown,
            edge,
            low,
            second: high,
            number: to,
        } = parts;
        Ok(Some(JumpItem {
            unknown,
            edge,
            low,
            high,
            to,
        }))
    }

    fn write(&self, alloc: Global, rows: usize, names: &Numbering) -> Result<Value, AllocError> {
        let high = names.number(&self.high)?;
        let low = names.number(&self.low)?;
        let to = number_value(alloc, self.to)?;
        let unknown = unknown_value(alloc, rows, self.unknown)?;
        jump_item_object(alloc, self.edge, high, low, to, unknown)
    }
}

impl Entry for RayItem {
    ghost use Rattle.std.specs.Prelude.{◌&&◌, nat_lt};
    ghost use Rattle.std.specs.List.{list_all};
    ghost use Rattle.cert_text.specs.Naming.{is_listed, ray_traces};
    ghost use Rattle.cert_written.specs.Bare.{bare_ray_item};
    ghost use Rattle.cert_text.specs.StepItems.{is_ray_item, ray_item_data, ray_item_in};

    ghost shaped = { is_ray_item };

    ghost element_in = { ray_item_in };

    ghost element_data = { ray_item_data };

    ghost bare = { bare_ray_item };

    ghost writable = { λ rows names item. nat_lt 0 rows && list_all (is_listed names) (ray_traces item) };

    fn has_shape(setting: &Setting, value: &Value) -> bool {
        has_two_traces(setting, value, "direction", "rate")
    }

    fn read(
        alloc: Global,
        setting: &Setting,
        value: &Value,
    ) -> Result<Option<RayItem>, AllocError> {
        let Some(parts) = read_two_traces(alloc, setting, value, "direction", "rate")? else {
            return Ok(None);
        };
        let TwoTraces {
            unknown,
            edge,
            low,
            second: direction,
            number: rate,
        } = parts;
        Ok(Some(RayItem {
            unknown,
            edge,
            low,
            direction,
            rate,
        }))
    }

    fn write(&self, alloc: Global, rows: usize, names: &Numbering) -> Result<Value, AllocError> {
        let direction = names.number(&self.direction)?;
        let low = names.number(&self.low)?;
        let rate = number_value(alloc, self.rate)?;
        let unknown = unknown_value(alloc, rows, self.unknown)?;
        ray_item_object(alloc, direction, self.edge, low, rate, unknown)
    }
}

impl Naming for Item {
    ghost use Rattle.cert_text.specs.Naming.{plain_traces};

    ghost traces_of = { plain_traces };

    fn values(rows: usize, traces: &[Trace], value: &Value) -> Option<usize> {
        let _edge = index_at(value, "edge")?;
        let low = named_at(traces, value, "low")?;
        let _to = frac_at(value, "to")?;
        let _unknown = unknown_at(rows, value)?;
        Some(trace_values(low))
    }

    fn number(&self, names: &mut Numbering) -> Result<(), AllocError> {
        names.add(&self.low)
    }
}

// How many values the two traces hold that an item with a second trace and a number at these keys names.
fn two_traces_values(
    rows: usize,
    traces: &[Trace],
    value: &Value,
    second: &str,
    number: &str,
) -> Option<usize>
    ensures count { result ≡ option_map (λ parts. capped (values_of (parts.low ∷ parts.second ∷ [])))
        (two_traces_in second.now number.now (listing rows traces.now) (view value.now)) }
    ensures few { IfSome result (λ n. n ≤ MOST_VALUES + 1) }
{
    let _edge = index_at(value, "edge")?;
    let low = named_at(traces, value, "low")?;
    let second = named_at(traces, value, second)?;
    let _number = frac_at(value, number)?;
    let _unknown = unknown_at(rows, value)?;
    Some((trace_values(low) + trace_values(second)).min(MOST_VALUES + 1))
}

// Gives two traces their numbers.
fn add_two(names: &mut Numbering, low: &Trace, second: &Trace) -> Result<(), AllocError>
    ensures { OnOk result (names.new ≡ with_traces names.old (low.now ∷ second.now ∷ [])) }
{
    names.add(low)?;
    names.add(second)
}

impl Naming for JumpItem {
    ghost use Rattle.cert_text.specs.Naming.{jump_traces};

    ghost traces_of = { jump_traces };

    fn values(rows: usize, traces: &[Trace], value: &Value) -> Option<usize> {
        two_traces_values(rows, traces, value, "high", "to")
    }

    fn number(&self, names: &mut Numbering) -> Result<(), AllocError> {
        add_two(names, &self.low, &self.high)
    }
}

impl Naming for RayItem {
    ghost use Rattle.cert_text.specs.Naming.{ray_traces};

    ghost traces_of = { ray_traces };

    fn values(rows: usize, traces: &[Trace], value: &Value) -> Option<usize> {
        two_traces_values(rows, traces, value, "direction", "rate")
    }

    fn number(&self, names: &mut Numbering) -> Result<(), AllocError> {
        add_two(names, &self.low, &self.direction)
    }
}

//! Steps.

ghost use Rattle.std.specs.Prelude.{◌≡◌, ◌<◌, ◌≤◌, ◌+◌, IfOk, IfSome, IsTrue, OnOk, Some, codes, option_map, true, vec_items};
ghost use Rattle.std.specs.List.{flat_map, list_all};
ghost use Rattle.serde_json.specs.View.{view};
ghost use Rattle.cert_written.specs.Shaped.{has_item};
ghost use Rattle.cert_written.specs.declared.step.Step.TheVariants.{Jump, Plain, Ray};
ghost use Rattle.cert_text.specs.Naming.{capped, is_listed, step_traces, values_of, with_traces};
ghost use Rattle.cert_text.specs.StepItems.{jump_item_in, plain_item_in, ray_item_in};
ghost use Rattle.cert_text.specs.StepForms.{has_items, is_step, items_at, step_data, step_in, step_object};
ghost use Rattle.cert_text.specs.Traces.{listing, relisting};
ghost use Rattle.cert_written.specs.Bare.{bare_step};

use crate::entry::{Entry, is_list, read_list, write_list};
use crate::keys::{is_kind, item_count, member_count};
use crate::limits::MOST_VALUES;
use crate::members::with;
use crate::naming::{Naming, list_values, number_all};
use crate::numbering::Numbering;
use crate::setting::Setting;
use cert_written::{Item, Items, JumpItem, JumpItems, RayItem, RayItems, Step, Trace};
use serde_json::{Map, Value};
use std::alloc::{AllocError, Global};

// Whether the value has this kind, and the member `items` is a list of one item or more of the shape of such items.
fn has_items<T: Entry>(setting: &Setting, value: &Value, kind: &str) -> bool
    ensures { result ≡ has_items kind.now (T.shaped setting.now) (view value.now) }
{
    match value.get("items") {
        Some(list) => is_kind(value, kind) && item_count(list) > 0 && is_list::<T>(setting, list),
        None => false,
    }
}

// Whether the value has the shape of a step.
fn is_step(setting: &Setting, value: &Value) -> bool
    ensures { result ≡ is_step setting.now (view value.now) }
{
    member_count(value) == 2
        && (has_items::<Item>(setting, value, "plain")
            || has_items::<JumpItem>(setting, value, "jump")
            || has_items::<RayItem>(setting, value, "ray"))
}

// The items that the member `items` is.
fn items_at<T: Entry>(
    alloc: Global,
    setting: &Setting,
    value: &Value,
) -> Result<Option<Vec<T>>, AllocError>
    ensures { IfOk result (λ items. option_map vec_items items ≡ items_at (T.element_in setting.now) (view value.now)) }
{
    match value.get("items") {
        Some(list) => read_list(alloc, setting, list),
        None => Ok(None),
    }
}

// The plain step of these items.
fn read_plain(alloc: Global, setting: &Setting, value: &Value) -> Result<Option<Step>, AllocError>
    ensures { IfOk result (λ step. step ≡ option_map (λ items. Plain items) (items_at (plain_item_in setting.now) (view value.now))) }
{
    match items_at::<Item>(alloc, setting, value)? {
        Some(items) => Ok(Some(Step::Plain(Items::new(items)))),
        None => Ok(None),
    }
}

// The jump of these items.
fn read_jump(alloc: Global, setting: &Setting, value: &Value) -> Result<Option<Step>, AllocError>
    ensures { IfOk result (λ step. step ≡ option_map (λ items. Jump items) (items_at (jump_item_in setting.now) (view value.now))) }
{
    match items_at::<JumpItem>(alloc, setting, value)? {
        Some(items) => Ok(Some(Step::Jump(JumpItems::new(items)))),
        None => Ok(None),
    }
}

// The ray of these items.
fn read_ray(alloc: Global, setting: &Setting, value: &Value) -> Result<Option<Step>, AllocError>
    ensures { IfOk result (λ step. step ≡ option_map (λ items. Ray items) (items_at (ray_item_in setting.now) (view value.now))) }
{
    match items_at::<RayItem>(alloc, setting, value)? {
        Some(items) => Ok(Some(Step::Ray(RayItems::new(items)))),
        None => Ok(None),
    }
}

// The step that the value is.
fn read_step(alloc: Global, setting: &Setting, value: &Value) -> Result<Option<Step>, AllocError>
    ensures { IfOk result (λ step. step ≡ step_in setting.now (view value.now)) }
{
    if is_kind(value, "plain") {
        read_plain(alloc, setting, value)
    } else if is_kind(value, "jump") {
        read_jump(alloc, setting, value)
    } else if is_kind(value, "ray") {
        read_ray(alloc, setting, value)
    } else {
        Ok(None)
    }
}

// The items and the kind as a value.
fn step_object(alloc: Global, items: Value, kind: &str) -> Result<Value, AllocError>
    ensures { IfOk result (λ v. view v ≡ step_object (view items) kind.now) }
{
    let kind = Value::try_from_str(alloc, kind)?;
    let members = with(alloc, Map::new(alloc), "kind", kind)?;
    let members = with(alloc, members, "items", items)?;
    Ok(Value::Object(members))
}

// The step as a value.
fn step_value(
    alloc: Global,
    rows: usize,
    names: &Numbering,
    step: &Step,
) -> Result<Value, AllocError>
    requires some { 0 < rows }
    requires item { IsTrue (has_item step.now) }
    requires listed { IsTrue (list_all (is_listed names.now) (step_traces step.now)) }
    ensures value { IfOk result (λ v. view v ≡ step_data rows names.now step.now) }
    ensures shape { IfOk result (λ _. is_step (relisting rows names.now) (step_data rows names.now step.now) ≡ true) }
    ensures back { IfOk result (λ _. step_in (relisting rows names.now) (step_data rows names.now step.now) ≡ Some (bare_step step.now)) }
{
    match step {
        Step::Plain(items) => {
            let items = write_list(alloc, rows, names, items.as_slice())?;
            step_object(alloc, items, "plain")
        }
        Step::Jump(items) => {
            let items = write_list(alloc, rows, names, items.as_slice())?;
            step_object(alloc, items, "jump")
        }
        Step::Ray(items) => {
            let items = write_list(alloc, rows, names, items.as_slice())?;
            step_object(alloc, items, "ray")
        }
    }
}

impl Entry for Step {
    ghost use Rattle.std.specs.Prelude.{◌&&◌, nat_lt};
    ghost use Rattle.std.specs.List.{list_all};
    ghost use Rattle.cert_written.specs.Shaped.{has_item};
    ghost use Rattle.cert_text.specs.Naming.{is_listed, step_traces};
    ghost use Rattle.cert_written.specs.Bare.{bare_step};
    ghost use Rattle.cert_text.specs.StepForms.{is_step, step_data, step_in};

    ghost shaped = { is_step };

    ghost element_in = { step_in };

    ghost element_data = { step_data };

    ghost bare = { bare_step };

    ghost writable = { λ rows names step. nat_lt 0 rows && has_item step && list_all (is_listed names) (step_traces step) };

    fn has_shape(setting: &Setting, value: &Value) -> bool {
        is_step(setting, value)
    }

    fn read(alloc: Global, setting: &Setting, value: &Value) -> Result<Option<Step>, AllocError> {
        read_step(alloc, setting, value)
    }

    fn write(&self, alloc: Global, rows: usize, names: &Numbering) -> Result<Value, AllocError> {
        step_value(alloc, rows, names, self)
    }
}

// How many values the traces hold that the items name which the member `items` has.
fn values_at<T: Naming>(rows: usize, traces: &[Trace], value: &Value) -> Option<usize>
    ensures count { result ≡ option_map (λ xs. capped (values_of (flat_map T.traces_of xs)))
        (items_at (T.element_in (listing rows traces.now)) (view value.now)) }
    ensures few { IfSome result (λ n. n ≤ MOST_VALUES + 1) }
{
    match value.get("items") {
        Some(list) => list_values::<T>(rows, traces, list),
        None => None,
    }
}

// How many values the traces hold that the items of the step at this value name.
fn step_values(rows: usize, traces: &[Trace], value: &Value) -> Option<usize>
    ensures count { result ≡ option_map (λ step. capped (values_of (step_traces step)))
        (step_in (listing rows traces.now) (view value.now)) }
    ensures few { IfSome result (λ n. n ≤ MOST_VALUES + 1) }
{
    if is_kind(value, "plain") {
        values_at::<Item>(rows, traces, value)
    } else if is_kind(value, "jump") {
        values_at::<JumpItem>(rows, traces, value)
    } else if is_kind(value, "ray") {
        values_at::<RayItem>(rows, traces, value)
    } else {
        None
    }
}

// Gives the traces that the items of a step name their numbers.
fn number_step(step: &Step, names: &mut Numbering) -> Result<(), AllocError>
    ensures { OnOk result (names.new ≡ with_traces names.old (step_traces step.now)) }
{
    match step {
        Step::Plain(items) => number_all(names, items.as_slice()),
        Step::Jump(items) => number_all(names, items.as_slice()),
        Step::Ray(items) => number_all(names, items.as_slice()),
    }
}

impl Naming for Step {
    ghost use Rattle.cert_text.specs.Naming.{step_traces};

    ghost traces_of = { step_traces };

    fn values(rows: usize, traces: &[Trace], value: &Value) -> Option<usize> {
        step_values(rows, traces, value)
    }

    fn number(&self, names: &mut Numbering) -> Result<(), AllocError> {
        number_step(self, names)
    }
}

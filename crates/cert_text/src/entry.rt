//! What stands in the lists of a certificate.

ghost use Rattle.std.specs.Prelude.{◌≡◌, IfOk, IsTrue, true, Some, map, option_map, vec_items};
ghost use Rattle.std.specs.List.{list_all};
ghost use Rattle.serde_json.specs.View.{items_view, view};
ghost use Rattle.cert_text.specs.Lists.{all_items, is_list, items_in, list_data, list_in};
ghost use Rattle.cert_text.specs.Traces.{relisting};

use crate::numbering::Numbering;
use crate::setting::Setting;
use serde_json::Value;
use std::alloc::{AllocError, Global};

/// An element of a list: its shape as JSON and what it is read as, under a setting; and what it is written as, where the
/// template has `rows` rows and traces are named by their numbers in `names`. Lists of fractions are written without zeros.
pub(crate) trait Entry: Drop {
    ghost use Rattle.std.specs.Prelude.{ℕ, Bool, List, Option};
    ghost use Rattle.serde_json.specs.Data.{Data};
    ghost use Rattle.cert_written.specs.declared.trace.Trace.{Trace};
    ghost use Rattle.cert_text.specs.declared.setting.Setting.{Setting};

    // Whether a value has the shape of such an element.
    ghost shaped: { Setting → Data → Bool };

    // The element that a value is read as.
    ghost element_in: { Setting → Data → Option Self };

    // The value that an element is written as.
    ghost element_data: { ℕ → List Trace → Self → Data };

    // An element without the zeros of its lists.
    ghost bare: { Self → Self };

    // Whether an element can be written.
    ghost writable: { ℕ → List Trace → Self → Bool };

    /// Whether the value has the shape of such an element.
    fn has_shape(setting: &Setting, value: &Value) -> bool
        ensures { result ≡ shaped setting.now (view value.now) };

    /// The element that the value is, or `None` where a number in it is not canonical.
    fn read(alloc: Global, setting: &Setting, value: &Value) -> Result<Option<Self>, AllocError>
        ensures { IfOk result (λ element. element ≡ element_in setting.now (view value.now)) };

    /// The element as a value.
    fn write(&self, alloc: Global, rows: usize, names: &Numbering) -> Result<Value, AllocError>
        requires { IsTrue (writable rows names.now self.now) }
        ensures value { IfOk result (λ v. view v ≡ element_data rows names.now self.now) }
        ensures shape { IfOk result (λ _. shaped (relisting rows names.now) (element_data rows names.now self.now) ≡ true) }
        ensures back { IfOk result (λ _. element_in (relisting rows names.now) (element_data rows names.now self.now)
            ≡ Some (bare self.now)) };
}

// Whether each of the values has its shape.
fn are_shaped<T: Entry>(setting: &Setting, values: &[Value]) -> bool
    ensures { result ≡ all_items (T.shaped setting.now) (items_view values.now) }
{
    for value in values {
        if !T::has_shape(setting, value) {
            return false;
        }
    }
    true
}

/// Whether the value is a list of values of such a shape.
pub(crate) fn is_list<T: Entry>(setting: &Setting, value: &Value) -> bool
    ensures { result ≡ is_list (T.shaped setting.now) (view value.now) }
{
    match value.as_array() {
        Some(values) => are_shaped::<T>(setting, values),
        None => false,
    }
}

// The elements that the values are, or `None` where one is not read.
fn read_each<T: Entry>(
    alloc: Global,
    setting: &Setting,
    values: &[Value],
) -> Result<Option<Vec<T>>, AllocError>
    ensures { IfOk result (λ list. option_map vec_items list ≡ items_in (T.element_in setting.now) (items_view values.now)) }
{
    let mut list = Vec::with_capacity(alloc, values.len())?;
    for value in values {
        match T::read(alloc, setting, value)? {
            Some(element) => list.push(element)?,
            None => return Ok(None),
        }
    }
    Ok(Some(list))
}

/// The list that the value is, or `None` where an element is not read.
pub(crate) fn read_list<T: Entry>(
    alloc: Global,
    setting: &Setting,
    value: &Value,
) -> Result<Option<Vec<T>>, AllocError>
    ensures { IfOk result (λ list. option_map vec_items list ≡ list_in (T.element_in setting.now) (view value.now)) }
{
    match value.as_array() {
        Some(values) => read_each(alloc, setting, values),
        None => Ok(None),
    }
}

/// The list as a value.
pub(crate) fn write_list<T: Entry>(
    alloc: Global,
    rows: usize,
    names: &Numbering,
    list: &[T],
) -> Result<Value, AllocError>
    requires { IsTrue (list_all (T.writable rows names.now) list.now) }
    ensures value { IfOk result (λ v. view v ≡ list_data (T.element_data rows names.now) list.now) }
    ensures shape { IfOk result (λ _. is_list (T.shaped (relisting rows names.now)) (list_data (T.element_data rows names.now) list.now)
        ≡ true) }
    ensures back { IfOk result (λ _. list_in (T.element_in (relisting rows names.now)) (list_data (T.element_data rows names.now) list.now)
        ≡ Some (map T.bare list.now)) }
{
    let mut values = Vec::with_capacity(alloc, list.len())?;
    for element in list {
        values.push(element.write(alloc, rows, names)?)?;
    }
    Ok(Value::Array(values))
}

//! Lists of a text, read an element at a time.

ghost use Rattle.std.specs.Prelude.{◌≡◌, ◌≢◌, Err, IfOk, MatchResult, Ok, if◌then◌else◌};
ghost use Rattle.base_values.specs.Elements.{left_of};
ghost use Rattle.cert_text.specs.Certificates.{and_then, read_from};
ghost use Rattle.cert_text.specs.Lists.{all_items};
ghost use Rattle.cert_text.specs.Naming.{capped, values_of};
ghost use Rattle.cert_text.specs.Traces.{listing};
ghost use Rattle.std.specs.List.{flat_map};

use crate::entry::Entry;
use crate::fault::{Field, FormFault};
use crate::limits::MOST_VALUES;
use crate::naming::Naming;
use crate::setting::Setting;
use base_values::Elements;
use cert_written::Trace;
use std::alloc::{AllocError, Global};

// Whether each of the elements that are left has its shape.
fn are_left_shaped<T: Entry>(
    alloc: Global,
    setting: &Setting,
    elements: &mut Elements<'_>,
) -> Result<bool, AllocError>
    ensures { IfOk result (λ all. all ≡ all_items (T.shaped setting.now) (left_of elements.old)) }
{
    'elements: while let Some(value) = elements.next(alloc)? {
        if !T::has_shape(setting, &value) {
            return Ok(false);
        }
    }
    Ok(true)
}

// The refusal of a list with an element that has its shape and isn't read, where these elements follow it.
fn unread<T: Entry>(
    alloc: Global,
    setting: &Setting,
    elements: &mut Elements<'_>,
    field: Field,
) -> Result<FormFault, AllocError>
    ensures { IfOk result (λ fault. fault ≡ (if all_items (T.shaped setting.now) (left_of elements.old) then FormFault.Number field
        else FormFault.Shape field)) }
{
    if are_left_shaped::<T>(alloc, setting, elements)? {
        Ok(FormFault::Number(field))
    } else {
        Ok(FormFault::Shape(field))
    }
}

/// The list of a field, of which these elements are left.
pub(crate) fn read_elements<T: Entry>(
    alloc: Global,
    setting: &Setting,
    elements: &mut Elements<'_>,
    field: Field,
) -> Result<Vec<T>, FormFault>
    ensures { MatchResult result
        (λ list. read_from field (T.shaped setting.now) (T.element_in setting.now) (left_of elements.old) ≡ Ok list.items)
        (λ fault. fault ≢ FormFault.NoMemory
        → read_from field (T.shaped setting.now) (T.element_in setting.now) (left_of elements.old) ≡ Err fault) }
{
    let mut list = Vec::new(alloc);
    'elements: while let Some(value) = elements.next(alloc)? {
        if !T::has_shape(setting, &value) {
            return Err(FormFault::Shape(field));
        }
        match T::read(alloc, setting, &value)? {
            Some(element) => list.push(element)?,
            None => return Err(unread::<T>(alloc, setting, elements, field)?),
        }
    }
    list.shrink_to_fit();
    Ok(list)
}

/// How many values the traces hold that the elements of a field name which are left, counted up to `MOST_VALUES + 1`. Nothing
/// is copied.
pub(crate) fn count_elements<T: Naming>(
    alloc: Global,
    setting: &Setting,
    traces: &[Trace],
    elements: &mut Elements<'_>,
    field: Field,
) -> Result<usize, FormFault>
    requires { setting.now ≡ listing setting.now.rows traces.now }
    ensures { MatchResult result
        (λ n. and_then (read_from field (T.shaped setting.now) (T.element_in setting.now) (left_of elements.old))
        (λ xs. Ok (capped (values_of (flat_map T.traces_of xs)))) ≡ Ok n)
        (λ fault. fault ≢ FormFault.NoMemory
        → and_then (read_from field (T.shaped setting.now) (T.element_in setting.now) (left_of elements.old))
        (λ xs. Ok (capped (values_of (flat_map T.traces_of xs)))) ≡ Err fault) }
{
    let mut total = 0;
    'elements: while let Some(value) = elements.next(alloc)? {
        if !T::has_shape(setting, &value) {
            return Err(FormFault::Shape(field));
        }
        match T::values(setting.rows, traces, &value) {
            Some(more) => total = (total + more).min(MOST_VALUES + 1),
            None => return Err(unread::<T>(alloc, setting, elements, field)?),
        }
    }
    Ok(total)
}

//! The traces that elements name: how many values they hold, and how they get their numbers.

ghost use Rattle.std.specs.Prelude.{◌≡◌, ◌≤◌, ◌+◌, IfSome, OnOk, option_map};
ghost use Rattle.std.specs.List.{flat_map};
ghost use Rattle.serde_json.specs.View.{items_view, view};
ghost use Rattle.cert_text.specs.Lists.{items_in, list_in};
ghost use Rattle.cert_text.specs.Naming.{capped, values_of, with_traces};
ghost use Rattle.cert_text.specs.Traces.{listing};

use crate::entry::Entry;
use crate::limits::MOST_VALUES;
use crate::numbering::Numbering;
use cert_written::Trace;
use serde_json::Value;
use std::alloc::AllocError;

/// An element that names traces, whose numbers are their places in a list.
pub(crate) trait Naming: Entry {
    ghost use Rattle.std.specs.Prelude.{List};
    ghost use Rattle.cert_written.specs.declared.trace.Trace.{Trace};

    // The traces that an element names, in order.
    ghost traces_of: { Self → List Trace };

    /// How many values the traces hold that the element at this value names, counted up to `MOST_VALUES + 1`; `None` where
    /// it is not read. Nothing is copied.
    fn values(rows: usize, traces: &[Trace], value: &Value) -> Option<usize>
        ensures count { result ≡ option_map (λ x. capped (values_of (traces_of x)))
            (Self.element_in (listing rows traces.now) (view value.now)) }
        ensures few { IfSome result (λ n. n ≤ MOST_VALUES + 1) };

    /// Gives the traces that the element names their numbers.
    fn number(&self, names: &mut Numbering) -> Result<(), AllocError>
        ensures { OnOk result (names.new ≡ with_traces names.old (traces_of self.now)) };
}

// How many values the traces hold that the elements at these values name.
fn values_in<T: Naming>(rows: usize, traces: &[Trace], values: &[Value]) -> Option<usize>
    ensures count { result ≡ option_map (λ xs. capped (values_of (flat_map T.traces_of xs)))
        (items_in (T.element_in (listing rows traces.now)) (items_view values.now)) }
    ensures few { IfSome result (λ n. n ≤ MOST_VALUES + 1) }
{
    let mut total = 0;
    for value in values {
        match T::values(rows, traces, value) {
            Some(more) => total = (total + more).min(MOST_VALUES + 1),
            None => return None,
        }
    }
    Some(total)
}

/// How many values the traces hold that the elements of the list at this value name, counted up to `MOST_VALUES + 1`;
/// `None` where an element is not read.
pub(crate) fn list_values<T: Naming>(rows: usize, traces: &[Trace], value: &Value) -> Option<usize>
    ensures count { result ≡ option_map (λ xs. capped (values_of (flat_map T.traces_of xs)))
        (list_in (T.element_in (listing rows traces.now)) (view value.now)) }
    ensures few { IfSome result (λ n. n ≤ MOST_VALUES + 1) }
{
    match value.as_array() {
        Some(values) => values_in::<T>(rows, traces, values),
        None => None,
    }
}

/// Gives the traces that the elements name their numbers.
pub(crate) fn number_all<T: Naming>(names: &mut Numbering, list: &[T]) -> Result<(), AllocError>
    ensures { OnOk result (names.new ≡ with_traces names.old (flat_map T.traces_of list.now)) }
{
    for element in list {
        element.number(names)?;
    }
    Ok(())
}

//! Lists of fractions without zeros, as lists of pairs.

ghost use Rattle.std.specs.Prelude.{◌≡◌, IfOk, IsTrue, Some, codes, not, option_and_then, option_map, true, vec_items};
ghost use Rattle.serde_json.specs.Find.{as_array, at};
ghost use Rattle.serde_json.specs.Data.{array, item, no_items};
ghost use Rattle.serde_json.specs.View.{items_view, view};
ghost use Rattle.cert_written.specs.Pairs.{is_nil};
ghost use Rattle.cert_text.specs.Keys.{index_data};
ghost use Rattle.cert_text.specs.Numbers.{frac_in};
ghost use Rattle.cert_text.specs.Pairs.{are_pairs, ascend, do_ascend, is_pair, is_value, pair_data, pair_in, pairs_data};
ghost use Rattle.cert_text.specs.Pairs.{pairs_in, place_in};

use crate::entry::{Entry, is_list, read_list, write_list};
use crate::keys::{index_in_list, item_count};
use crate::numbering::Numbering;
use crate::numbers::{number_value, read_number};
use crate::setting::Setting;
use base_fractions::Frac;
use cert_written::{Pair, Pairs};
use serde_json::{Value, json};
use std::alloc::{AllocError, Global};

// Whether the value is a text other than 0.
fn is_value(value: &Value) -> bool
    ensures { result ≡ is_value (view value.now) }
{
    match value.as_str() {
        Some(text) => text != "0",
        None => false,
    }
}

// Whether the value is a list of two values, the second one a text other than 0.
fn is_pair(value: &Value) -> bool
    ensures { result ≡ is_pair (view value.now) }
{
    if item_count(value) != 2 {
        return false;
    }
    match value.get(1) {
        Some(second) => is_value(second),
        None => false,
    }
}

// The place of a pair.
fn place(value: &Value) -> Option<u32>
    ensures { result ≡ place_in (view value.now) }
{
    index_in_list(value, 0)
}

// The fraction of a pair.
fn pair_number(value: &Value) -> Option<Frac>
    ensures { result ≡ option_and_then frac_in (at 1 (view value.now)) }
{
    match value.get(1) {
        Some(second) => read_number(second),
        None => None,
    }
}

// The pair that the value is.
fn read_pair(value: &Value) -> Option<Pair>
    ensures { result ≡ pair_in (view value.now) }
{
    let place = place(value)?;
    let value = pair_number(value)?;
    Some(Pair { place, value })
}

// A place and a value as a value.
fn pair_object(alloc: Global, place: u32, number: Value) -> Result<Value, AllocError>
    ensures { IfOk result (λ v. view v ≡ array (item (index_data place) (item (view number) no_items))) }
{
    json!(in alloc; [place, number])
}

// The pair as a value.
#[tactic(auto, using(crate::proofs::pairs::PairTexts::pair_shape))]
fn pair_value(alloc: Global, pair: &Pair) -> Result<Value, AllocError>
    requires { IsTrue (not (is_nil pair.now.value)) }
    ensures value { IfOk result (λ v. view v ≡ pair_data pair.now) }
    ensures shape { IfOk result (λ _. is_pair (pair_data pair.now) ≡ true) }
    ensures back { IfOk result (λ _. pair_in (pair_data pair.now) ≡ Some pair.now) }
{
    let number = number_value(alloc, pair.value)?;
    pair_object(alloc, pair.place, number)
}

impl Entry for Pair {
    ghost use Rattle.std.specs.Prelude.{not};
    ghost use Rattle.cert_written.specs.Pairs.{is_nil};
    ghost use Rattle.cert_text.specs.Pairs.{is_pair, pair_data, pair_in};

    ghost shaped = { λ _ d. is_pair d };

    ghost element_in = { λ _ d. pair_in d };

    ghost element_data = { λ _ _ pair. pair_data pair };

    ghost bare = { λ pair. pair };

    ghost writable = { λ _ _ pair. not (is_nil pair.value) };

    fn has_shape(_setting: &Setting, value: &Value) -> bool {
        is_pair(value)
    }

    fn read(_alloc: Global, _setting: &Setting, value: &Value) -> Result<Option<Pair>, AllocError> {
        Ok(read_pair(value))
    }

    fn write(&self, alloc: Global, _rows: usize, _names: &Numbering) -> Result<Value, AllocError> {
        pair_value(alloc, self)
    }
}

// Whether the places of the values ascend.
#[tactic(auto, using(crate::proofs::pairs::Ascending::too_low, crate::proofs::pairs::Ascending::no_place, crate::proofs::pairs::Ascending::on, crate::proofs::pairs::Ascending::ended))]
fn ascend(values: &[Value]) -> bool
    ensures { result ≡ ascend 0 (items_view values.now) }
{
    let mut least: u64 = 0;
    for value in values {
        match place(value) {
            Some(found) => {
                if (found as u64) < least {
                    return false;
                }
                least = found as u64 + 1;
            }
            None => return false,
        }
    }
    true
}

// Whether the value is a list of values whose places ascend.
fn do_ascend(value: &Value) -> bool
    ensures { result ≡ do_ascend (as_array (view value.now)) }
{
    match value.as_array() {
        Some(values) => ascend(values),
        None => false,
    }
}

/// Whether the value is a list of pairs whose places ascend.
pub(crate) fn are_pairs(setting: &Setting, value: &Value) -> bool
    ensures { result ≡ are_pairs (view value.now) }
{
    is_list::<Pair>(setting, value) && do_ascend(value)
}

/// The pairs that the value is.
pub(crate) fn read_pairs(
    alloc: Global,
    setting: &Setting,
    value: &Value,
) -> Result<Option<Pairs>, AllocError>
    ensures { IfOk result (λ pairs. pairs ≡ pairs_in (view value.now)) }
{
    match read_list::<Pair>(alloc, setting, value)? {
        Some(list) => Ok(Pairs::new(list)),
        None => Ok(None),
    }
}

#[tactic(auto, using(crate::proofs::pairs::Ascending::none_nil, crate::proofs::pairs::Ascending::places_ascend))]
/// The pairs as a value.
pub(crate) fn pairs_value(
    alloc: Global,
    names: &Numbering,
    pairs: &Pairs,
) -> Result<Value, AllocError>
    ensures value { IfOk result (λ v. view v ≡ pairs_data pairs.now) }
    ensures shape { IfOk result (λ _. are_pairs (pairs_data pairs.now) ≡ true) }
    ensures back { IfOk result (λ _. pairs_in (pairs_data pairs.now) ≡ Some pairs.now) }
{
    write_list(alloc, 0, names, pairs.as_slice())
}

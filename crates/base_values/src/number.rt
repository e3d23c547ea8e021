//! Numbers.

ghost use Rattle.std.specs.Prelude.{◌≡◌, ◌==◌, ◌<◌, IsTrue, is_some, length, option_map, slice_index, true, false};
ghost use Rattle.serde_json.specs.Read.{float_of, number_from, number_of};
ghost use Rattle.serde_json.specs.View.{number_view};

use fast_float::Numeral;
use serde_json::Number;

// Whether there is a minus at the front.
fn has_minus(bytes: &[u8]) -> bool
    ensures value { result ≡ (slice_index bytes.now 0 == 45) }
    ensures some { IsTrue result → 0 < length bytes.now }
{
    !bytes.is_empty() && bytes[0] == b'-'
}

// The float next to a numeral, where it is finite.
fn nearest(negative: bool, numeral: &Numeral<'_>) -> Option<Number>
    ensures { option_map number_view result ≡ float_of negative numeral.now }
{
    Number::from_f64(numeral.to_float::<f64>(negative))
}

// The number of a numeral without a sign.
fn unsigned(numeral: &Numeral<'_>) -> Option<Number>
    ensures { option_map number_view result ≡ number_from false numeral.now }
{
    match numeral.to_u64() {
        Some(n) => Some(Number::from(n)),
        None => nearest(false, numeral),
    }
}

// The number of a numeral behind a minus.
fn negative(numeral: &Numeral<'_>) -> Option<Number>
    ensures { option_map number_view result ≡ number_from true numeral.now }
{
    if let Some(n) = numeral.to_i64(true) {
        if n < 0 {
            return Some(Number::from(n));
        }
    }
    nearest(true, numeral)
}

/// The number that a token of JSON writes, where it is in range.
pub(crate) fn number(text: &str) -> Option<Number>
    ensures { option_map number_view result ≡ number_of text.now }
{
    let bytes = text.as_bytes();
    if has_minus(bytes) {
        negative(&Numeral::scan(&bytes[1..]))
    } else {
        unsigned(&Numeral::scan(bytes))
    }
}

/// Whether the number that a token of JSON writes is in range.
pub(crate) fn is_number(text: &str) -> bool
    ensures { result ≡ is_some (number_of text.now) }
{
    number(text).is_some()
}

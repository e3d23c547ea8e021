//! Numbers as texts.

ghost use Rattle.std.specs.Prelude.{◌≡◌, IfOk, IsTrue, Some, option_and_then};
ghost use Rattle.std.specs.Str.{IsAscii};
ghost use Rattle.serde_json.specs.Data.{string};
ghost use Rattle.serde_json.specs.Find.{as_str};
ghost use Rattle.serde_json.specs.View.{view};
ghost use Rattle.cert_text.specs.Numbers.{is_text};

use crate::entry::Entry;
use crate::numbering::Numbering;
use crate::setting::Setting;
use base_fractions::{Ext, Frac, Text};
use serde_json::Value;
use std::alloc::{AllocError, Global};

/// A number with a canonical text.
pub(crate) trait Numeral: Copy + Drop {
    ghost use Rattle.std.specs.Prelude.{ℕ, Bool, List, Option};

    // The number whose canonical text this is.
    ghost number_of: { List ℕ → Option Self };

    // The canonical text of a number.
    ghost text_of: { Self → List ℕ };

    // Whether the number has a text.
    ghost has_text: { Self → Bool };

    /// The number whose canonical text this is.
    fn number(text: &[u8]) -> Option<Self>
        ensures { result ≡ number_of text.now };

    /// The canonical text.
    fn canonical(self) -> Text
        requires { IsTrue (has_text self) }
        ensures value { result ≡ text_of self }
        ensures ascii { IsAscii (text_of self) }
        ensures back { number_of (text_of self) ≡ Some self };
}

impl Numeral for Frac {
    ghost use Rattle.std.specs.Prelude.{true};
    ghost use Rattle.base_fractions.specs.Texts.{frac_text};
    ghost use Rattle.cert_text.specs.Numbers.{frac_of};

    ghost number_of = { frac_of };

    ghost text_of = { frac_text };

    ghost has_text = { λ _. true };

    fn number(text: &[u8]) -> Option<Frac> {
        Frac::read(text)
    }

    // That it fits, as every fraction of the code does, is the contract of its numerator.
    fn canonical(self) -> Text {
        let _num = self.num();
        self.text()
    }
}

impl Numeral for Ext {
    ghost use Rattle.std.specs.Prelude.{true};
    ghost use Rattle.base_fractions.specs.Extended.{extended};
    ghost use Rattle.flow_systems.specs.Report.{bound_text};
    ghost use Rattle.cert_text.specs.Numbers.{ext_of};

    ghost number_of = { ext_of };

    ghost text_of = { λ number. bound_text (extended number) };

    ghost has_text = { λ _. true };

    fn number(text: &[u8]) -> Option<Ext> {
        if text == b"-inf".as_slice() {
            return Some(Ext::NegInf);
        }
        if text == b"+inf".as_slice() {
            return Some(Ext::PosInf);
        }
        match Frac::number(text) {
            Some(number) => Some(Ext::Fin(number)),
            None => None,
        }
    }

    fn canonical(self) -> Text {
        match self {
            Ext::NegInf => Ext::NegInf.text(),
            Ext::Fin(number) => number.canonical(),
            Ext::PosInf => Ext::PosInf.text(),
        }
    }
}

/// Whether the value is a text.
pub(crate) fn is_text(value: &Value) -> bool
    ensures { result ≡ is_text (view value.now) }
{
    value.is_string()
}

/// The number that the value is.
pub(crate) fn read_number<T: Numeral>(value: &Value) -> Option<T>
    ensures { result ≡ option_and_then T.number_of (as_str (view value.now)) }
{
    match value.as_str() {
        Some(text) => T::number(text.as_bytes()),
        None => None,
    }
}

// The text as a value. ASCII is UTF-8, so the last line is never reached.
fn text_value(alloc: Global, text: &[u8]) -> Result<Value, AllocError>
    requires { IsAscii text.now }
    ensures { IfOk result (λ v. view v ≡ string text.now) }
{
    match std::str::from_utf8(text) {
        Ok(text) => Value::try_from_str(alloc, text),
        Err(_) => Ok(Value::Null),
    }
}

/// The number as a value.
pub(crate) fn number_value<T: Numeral>(alloc: Global, number: T) -> Result<Value, AllocError>
    requires { IsTrue (T.has_text number) }
    ensures value { IfOk result (λ v. view v ≡ string (T.text_of number)) }
    ensures back { T.number_of (T.text_of number) ≡ Some number }
{
    text_value(alloc, number.canonical().bytes())
}

// Numbers of each kind are elements of lists as their texts.
impl<T: Numeral> Entry for T {
    ghost use Rattle.std.specs.Prelude.{option_and_then};
    ghost use Rattle.serde_json.specs.Data.{string};
    ghost use Rattle.serde_json.specs.Find.{as_str};
    ghost use Rattle.cert_text.specs.Numbers.{is_text};

    ghost shaped = { λ _ d. is_text d };

    ghost element_in = { λ _ d. option_and_then T.number_of (as_str d) };

    ghost element_data = { λ _ _ number. string (T.text_of number) };

    ghost bare = { λ number. number };

    ghost writable = { λ _ _ number. T.has_text number };

    fn has_shape(_setting: &Setting, value: &Value) -> bool {
        is_text(value)
    }

    fn read(_alloc: Global, _setting: &Setting, value: &Value) -> Result<Option<T>, AllocError> {
        Ok(read_number(value))
    }

    fn write(&self, alloc: Global, _rows: usize, _names: &Numbering) -> Result<Value, AllocError> {
        number_value(alloc, *self)
    }
}

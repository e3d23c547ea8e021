//! Numbers.

ghost use Rattle.std.specs.Prelude.{◌≡◌, ◌≤◌, ◌<◌, length, slice_index, pos, IsTrue, MatchOption, Some};
ghost use Rattle.std.specs.List.{prefix_len, list_all};
ghost use Rattle.std.specs.Str.Parse.{digits_value};
ghost use Rattle.lang_tokens.specs.declared.lexicon.Lexicon.TheVariants.{Own};
ghost use Rattle.lang_tokens.specs.Bytes.{is_digit};
ghost use Rattle.lang_tokens.specs.Lexemes.{is_numeral, is_padded, is_any_number, starts_number, goes_on, greatest_literal};
ghost use Rattle.lang_tokens.specs.Steps.{FindsOutside, LexemeFirst, IsOfCode, going_on};

use crate::before::Before;
use crate::byte::{is_digit, is_exponent, is_word_byte};
use crate::directive::starts_with_letter;
use crate::fault::LexFault;
use crate::found::Found;
use crate::lexeme::Lexeme;
use crate::token::{Foreign, Kind};

/// The greatest value of a literal.
const GREATEST_LITERAL: u64 = 9223372036854775807;

// How many digits stand first.
fn digits_len(rest: &[u8]) -> usize
    ensures { result ≡ prefix_len is_digit rest.now }
{
    rest.iter().take_while(|byte| is_digit(**byte)).count()
}

// Whether there is more than one digit, and the first is 0.
fn is_padded(digits: &[u8]) -> bool
    ensures { result ≡ is_padded digits.now }
{
    digits.len() > 1 && digits[0] == b'0'
}

// The value of digits, if it is that of a literal.
fn literal_value(digits: &[u8]) -> Option<i64>
    requires { IsTrue (list_all is_digit digits.now) }
    ensures { MatchOption result (greatest_literal < digits_value 10 digits.now)
        (λ value. (value ≡ pos (digits_value 10 digits.now)) × (digits_value 10 digits.now ≤ greatest_literal)) }
{
    let mut value = 0;
    for byte in digits {
        let digit = u64::from(*byte - b'0');
        if value > (GREATEST_LITERAL - digit) / 10 {
            return None;
        }
        value = value * 10 + digit;
    }
    Some(value as i64)
}

/// The number of the tool's own formats that starts with the digit that stands first; `at` is its
/// place.
pub fn number(rest: &[u8], at: u32) -> Result<Found, LexFault>
    requires some { 1 ≤ length rest.now }
    requires digit { IsTrue (is_digit (slice_index rest.now 0)) }
    ensures { FindsOutside Own rest.now at result }
{
    let len = digits_len(rest);
    let digits = &rest[..len];
    if is_padded(digits) || starts_with_letter(&rest[len..]) {
        return Err(LexFault::BadNumber { at });
    }
    match literal_value(digits) {
        Some(value) => Ok(Found {
            kind: Some(Kind::Number(value)),
            len,
            behind: Before::Others,
        }),
        None => Err(LexFault::LongNumber { at }),
    }
}

// Whether a number of C goes on with the second byte behind the first.
fn goes_on(last: u8, byte: u8) -> bool
    ensures { result ≡ goes_on last byte }
{
    is_word_byte(byte) || byte == b'.' || is_exponent(last) && (byte == b'+' || byte == b'-')
}

// How many of the bytes a number of C goes on with behind this byte.
fn going_on(last: u8, rest: &[u8]) -> usize
    ensures len { result ≡ going_on last rest.now }
    ensures within { result ≤ length rest.now }
{
    let mut last = last;
    for (index, byte) in rest.iter().enumerate() {
        if !goes_on(last, *byte) {
            return index;
        }
        last = *byte;
    }
    rest.len()
}

// Whether there are digits alone.
fn is_numeral(bytes: &[u8]) -> bool
    ensures { result ≡ is_numeral bytes.now }
{
    !bytes.is_empty() && digits_len(bytes) == bytes.len()
}

// The kind of a number of C.
fn number_kind(bytes: &[u8]) -> Kind
    requires { IsTrue (is_any_number bytes.now) }
    ensures { IsOfCode (Some result) bytes.now }
{
    if !is_numeral(bytes) || is_padded(bytes) {
        return Kind::Foreign(Foreign::Number);
    }
    match literal_value(bytes) {
        Some(value) => Kind::Number(value),
        None => Kind::Foreign(Foreign::LongNumber),
    }
}

/// The number of C that starts with the digit that stands first, or with the `.` before it.
pub fn number_lexeme(rest: &[u8]) -> Lexeme
    requires { IsTrue (starts_number rest.now) }
    ensures { LexemeFirst rest.now result }
{
    let len = 1 + going_on(rest[0], &rest[1..]);
    Lexeme {
        kind: Some(number_kind(&rest[..len])),
        len,
    }
}

//! Which sign stands first.

ghost use Rattle.std.specs.Prelude.{◌≡◌, ◌≤◌, length, slice_index, IsTrue, IsFalse};
ghost use Rattle.lang_tokens.specs.declared.before.Before.{Before};
ghost use Rattle.lang_tokens.specs.declared.lexicon.Lexicon.TheVariants.{Own};
ghost use Rattle.lang_tokens.specs.Bytes.{is_blank, is_letter, is_digit, is_quote};
ghost use Rattle.lang_tokens.specs.Directives.{starts_comment};
ghost use Rattle.lang_tokens.specs.Lexemes.{starts_number};
ghost use Rattle.lang_tokens.specs.Reading.{is_blank_at, is_outside};
ghost use Rattle.lang_tokens.specs.Signs.{sign_bytes, foreign_bytes};
ghost use Rattle.lang_tokens.specs.Steps.{IsLongestSign, IsLongestForeign, IsSpelled, IsLonger, Finds, LexemeFirst};

use crate::before::Before;
use crate::fault::LexFault;
use crate::foreign::ForeignSign;
use crate::found::Found;
use crate::lexeme::Lexeme;
use crate::sign::Sign;
use crate::token::{Foreign, Kind};

// The longest sign that starts with a byte and the one after it, if there is one.
fn longest_sign(first: u8, second: Option<u8>) -> Option<Sign>
    ensures { IsLongestSign first second result }
{
    match (first, second) {
        (b'(', _) => Some(Sign::LeftParen),
        (b')', _) => Some(Sign::RightParen),
        (b'{', _) => Some(Sign::LeftBrace),
        (b'}', _) => Some(Sign::RightBrace),
        (b'[', _) => Some(Sign::LeftBracket),
        (b']', _) => Some(Sign::RightBracket),
        (b',', _) => Some(Sign::Comma),
        (b';', _) => Some(Sign::Semicolon),
        (b':', _) => Some(Sign::Colon),
        (b'=', Some(b'=')) => Some(Sign::EqualEqual),
        (b'=', _) => Some(Sign::Assign),
        (b'+', Some(b'=')) => Some(Sign::PlusAssign),
        (b'+', Some(b'+')) => Some(Sign::Increment),
        (b'+', _) => Some(Sign::Plus),
        (b'-', Some(b'=')) => Some(Sign::MinusAssign),
        (b'-', Some(b'-')) => Some(Sign::Decrement),
        (b'-', _) => Some(Sign::Minus),
        (b'*', Some(b'=')) => Some(Sign::StarAssign),
        (b'*', _) => Some(Sign::Star),
        (b'/', Some(b'=')) => Some(Sign::SlashAssign),
        (b'/', _) => Some(Sign::Slash),
        (b'%', Some(b'=')) => Some(Sign::PercentAssign),
        (b'%', _) => Some(Sign::Percent),
        (b'?', _) => Some(Sign::Question),
        (b'!', Some(b'=')) => Some(Sign::BangEqual),
        (b'!', _) => Some(Sign::Bang),
        (b'<', Some(b'=')) => Some(Sign::LessEqual),
        (b'<', _) => Some(Sign::Less),
        (b'>', Some(b'=')) => Some(Sign::GreaterEqual),
        (b'>', _) => Some(Sign::Greater),
        (b'&', Some(b'&')) => Some(Sign::AndAnd),
        (b'|', Some(b'|')) => Some(Sign::OrOr),
        _ => None,
    }
}

/// The sign of the tool's own formats that starts with the byte that stands first, which starts
/// nothing else; `at` is its place.
pub fn sign(rest: &[u8], at: u32) -> Result<Found, LexFault>
    requires some { 1 ≤ length rest.now }
    requires no_comment { IsFalse (starts_comment rest.now) }
    requires no_digit { IsFalse (is_digit (slice_index rest.now 0)) }
    requires no_letter { IsFalse (is_letter (slice_index rest.now 0)) }
    ensures { (before : Before) → IsTrue (is_outside before) → IsFalse (is_blank_at Own before rest.now)
        → Finds Own before rest.now at result }
{
    match longest_sign(rest[0], rest.get(1).copied()) {
        Some(sign) => Ok(Found {
            kind: Some(Kind::Sign(sign)),
            len: sign.width(),
            behind: Before::Others,
        }),
        None => Err(LexFault::BadByte { at }),
    }
}

// The longest sign that only C has and that starts with a byte and the two after it, if there are any.
fn longest_foreign_sign(first: u8, second: Option<u8>, third: Option<u8>) -> Option<ForeignSign>
    ensures { IsLongestForeign first second third result }
{
    match (first, second, third) {
        (b'.', Some(b'.'), Some(b'.')) => Some(ForeignSign::Ellipsis),
        (b'.', _, _) => Some(ForeignSign::Dot),
        (b'-', Some(b'>'), _) => Some(ForeignSign::Arrow),
        (b'&', Some(b'='), _) => Some(ForeignSign::AndAssign),
        (b'&', _, _) => Some(ForeignSign::And),
        (b'|', Some(b'='), _) => Some(ForeignSign::OrAssign),
        (b'|', _, _) => Some(ForeignSign::Or),
        (b'^', Some(b'='), _) => Some(ForeignSign::CaretAssign),
        (b'^', _, _) => Some(ForeignSign::Caret),
        (b'~', _, _) => Some(ForeignSign::Tilde),
        (b'<', Some(b'<'), Some(b'=')) => Some(ForeignSign::ShiftLeftAssign),
        (b'<', Some(b'<'), _) => Some(ForeignSign::ShiftLeft),
        (b'<', Some(b':'), _) => Some(ForeignSign::LessColon),
        (b'<', Some(b'%'), _) => Some(ForeignSign::LessPercent),
        (b'>', Some(b'>'), Some(b'=')) => Some(ForeignSign::ShiftRightAssign),
        (b'>', Some(b'>'), _) => Some(ForeignSign::ShiftRight),
        (b':', Some(b'>'), _) => Some(ForeignSign::ColonGreater),
        (b'%', Some(b'>'), _) => Some(ForeignSign::PercentGreater),
        (b'%', Some(b':'), _) => Some(ForeignSign::PercentColon),
        _ => None,
    }
}

// The lexeme of a sign of the language.
fn own_lexeme(sign: Sign) -> Lexeme
    ensures { IsSpelled (sign_bytes sign) result }
{
    Lexeme {
        kind: Some(Kind::Sign(sign)),
        len: sign.width(),
    }
}

// The lexeme of a sign that only C has.
fn foreign_lexeme(sign: ForeignSign) -> Lexeme
    ensures { IsSpelled (foreign_bytes sign) result }
{
    let len = sign.width();
    if sign.is_second_spelling() {
        return Lexeme { kind: None, len };
    }
    Lexeme {
        kind: Some(Kind::Foreign(Foreign::Byte)),
        len,
    }
}

// The lexeme of the longer of two signs.
fn longer_lexeme(own: Sign, foreign: ForeignSign) -> Lexeme
    ensures { IsLonger own foreign result }
{
    if own.width() < foreign.width() {
        foreign_lexeme(foreign)
    } else {
        own_lexeme(own)
    }
}

/// The sign of C that starts with the byte that stands first, which starts nothing else; or that
/// byte alone.
pub fn sign_lexeme(rest: &[u8]) -> Lexeme
    requires some { 1 ≤ length rest.now }
    requires no_blank { IsFalse (is_blank (slice_index rest.now 0)) }
    requires no_letter { IsFalse (is_letter (slice_index rest.now 0)) }
    requires no_quote { IsFalse (is_quote (slice_index rest.now 0)) }
    requires no_number { IsFalse (starts_number rest.now) }
    ensures { LexemeFirst rest.now result }
{
    let second = rest.get(1).copied();
    let own = longest_sign(rest[0], second);
    let foreign = longest_foreign_sign(rest[0], second, rest.get(2).copied());
    match (own, foreign) {
        (None, None) => Lexeme { kind: None, len: 1 },
        (None, Some(foreign)) => foreign_lexeme(foreign),
        (Some(own), None) => own_lexeme(own),
        (Some(own), Some(foreign)) => longer_lexeme(own, foreign),
    }
}

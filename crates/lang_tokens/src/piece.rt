//! Pieces of a text.

ghost use Rattle.std.specs.Prelude.{◌≡◌, ◌≤◌, ◌+◌, ◌&&◌, length, IsTrue, IsFalse};
ghost use Rattle.base_limits.specs.declared.limits.TheConstants.{MOST_PROGRAM_BYTES};
ghost use Rattle.lang_tokens.specs.declared.lexicon.Lexicon.TheVariants.{Own, C};
ghost use Rattle.lang_tokens.specs.Directives.{starts_comment, is_directive};
ghost use Rattle.lang_tokens.specs.declared.before.Before.TheVariants.{Directive};
ghost use Rattle.lang_tokens.specs.Reading.{is_blanks, is_outside, is_blank_at};
ghost use Rattle.lang_tokens.specs.Steps.{IsBare, LexemeFirst, Finds, aside_of};

use crate::before::Before;
use crate::byte::{is_digit, is_letter};
use crate::comment::comment;
use crate::directive::{is_blank_at, is_directive, starts_comment};
use crate::fault::LexFault;
use crate::found::Found;
use crate::joint::is_joint;
use crate::lexeme::{Lexeme, first_lexeme};
use crate::lexicon::Lexicon;
use crate::number::number;
use crate::signs::sign;
use crate::token::{Aside, Kind};
use crate::words::word;

// The token of the tool's own formats that stands first, where neither a blank nor a comment does.
fn own_token(rest: &[u8], at: u32, before: Before) -> Result<Found, LexFault>
    requires some { 1 ≤ length rest.now }
    requires no_blank { IsFalse (is_blank_at Own before rest.now) }
    requires no_comment { IsFalse (starts_comment rest.now) }
    ensures { Finds Own before rest.now at result }
{
    if before == Before::Directive {
        return Err(LexFault::BadByte { at });
    }
    match rest[0] {
        first if is_digit(first) => number(rest, at),
        first if is_letter(first) => word(rest, at),
        _ => sign(rest, at),
    }
}

// What a lexeme is in a directive, by the kind of the token that it is outside, if it is one.
fn aside_of(kind: Option<Kind>) -> Aside
    ensures { result ≡ aside_of kind }
{
    match kind {
        Some(Kind::Word(word)) => Aside::Word(word),
        Some(Kind::Name) => Aside::Name,
        Some(Kind::Number(value)) => Aside::Number(value),
        Some(Kind::Sign(sign)) => Aside::Sign(sign),
        _ => Aside::Foreign,
    }
}

// Whether a directive of a C file starts with what stands first.
fn starts_directive(rest: &[u8], before: Before) -> bool
    ensures { result ≡ (is_blanks before && is_directive C rest.now) }
{
    before == Before::Blanks && is_directive(Lexicon::C, rest)
}

// What a lexeme of C is in a directive, where it stands first and no comment does.
fn aside_token(rest: &[u8], at: u32, lexeme: Lexeme) -> Result<Found, LexFault>
    requires bare { IsBare Directive rest.now }
    requires first { LexemeFirst rest.now lexeme }
    ensures { Finds C Directive rest.now at result }
{
    if is_joint(rest) {
        return Err(LexFault::BadByte { at });
    }
    Ok(Found {
        kind: Some(Kind::Aside(aside_of(lexeme.kind))),
        len: lexeme.len,
        behind: Before::Directive,
    })
}

// What it is outside of directives, where it begins none.
fn code_token(rest: &[u8], at: u32, before: Before, lexeme: Lexeme) -> Result<Found, LexFault>
    requires bare { IsBare before rest.now }
    requires outside { IsTrue (is_outside before) }
    requires no_directive { IsFalse (is_blanks before && is_directive C rest.now) }
    requires first { LexemeFirst rest.now lexeme }
    ensures { Finds C before rest.now at result }
{
    match lexeme.kind {
        Some(kind) => Ok(Found {
            kind: Some(kind),
            len: lexeme.len,
            behind: Before::Others,
        }),
        None => Err(LexFault::BadByte { at }),
    }
}

// The token of a C file that stands first, where neither a blank nor a comment does.
fn c_token(rest: &[u8], at: u32, before: Before) -> Result<Found, LexFault>
    requires { IsBare before rest.now }
    ensures { Finds C before rest.now at result }
{
    if starts_directive(rest, before) {
        return Ok(Found {
            kind: Some(Kind::Aside(Aside::Hash)),
            len: 1,
            behind: Before::Directive,
        });
    }
    match first_lexeme(rest) {
        Some(lexeme) => match before {
            Before::Directive => aside_token(rest, at, lexeme),
            _ => code_token(rest, at, before, lexeme),
        },
        None => Err(LexFault::BadByte { at }),
    }
}

/// The piece that stands first, behind what stands before it in its line; `at` is its place.
pub fn piece(rest: &[u8], at: u32, lexicon: Lexicon, before: Before) -> Result<Found, LexFault>
    requires some { 1 ≤ length rest.now }
    requires within { at + length rest.now ≤ MOST_PROGRAM_BYTES }
    ensures { Finds lexicon before rest.now at result }
{
    if starts_comment(rest) {
        return comment(rest, at, before);
    }
    if is_blank_at(lexicon, before, rest) {
        return Ok(Found {
            kind: None,
            len: 1,
            behind: before.behind_blank(rest[0]),
        });
    }
    match lexicon {
        Lexicon::Own => own_token(rest, at, before),
        Lexicon::C => c_token(rest, at, before),
    }
}

//! Directives.

ghost use Rattle.std.specs.Prelude.{◌≡◌, ◌≤◌, length};
ghost use Rattle.std.specs.List.{prefix_len};
ghost use Rattle.lang_tokens.specs.Bytes.{is_space};
ghost use Rattle.lang_tokens.specs.Directives.{is_joint, starts_comment, is_directive_word, starts_with_digit, starts_with_letter};
ghost use Rattle.lang_tokens.specs.Directives.{behind_spaces, names_definition, names_directive, is_directive};
ghost use Rattle.lang_tokens.specs.Reading.{is_own_blank, is_blank_at};

use crate::before::Before;
use crate::byte::{is_blank, is_digit, is_letter, is_space};
use crate::joint::is_joint;
use crate::lexicon::Lexicon;
use crate::words::word_len;

/// Whether a comment starts with the `/` that stands first.
pub fn starts_comment(rest: &[u8]) -> bool
    ensures { result ≡ starts_comment rest.now }
{
    matches!(rest, [b'/', b'/' | b'*', ..])
}

// Whether the bytes are the word of a directive.
fn is_directive_word(word: &[u8]) -> bool
    ensures { result ≡ is_directive_word word.now }
{
    word == b"include".as_slice() || word == b"pragma".as_slice() || word == b"line".as_slice()
}

/// Whether a digit stands first.
pub fn starts_with_digit(rest: &[u8]) -> bool
    ensures { result ≡ starts_with_digit rest.now }
{
    !rest.is_empty() && is_digit(rest[0])
}

/// Whether a letter or `_` stands first.
pub fn starts_with_letter(rest: &[u8]) -> bool
    ensures { result ≡ starts_with_letter rest.now }
{
    !rest.is_empty() && is_letter(rest[0])
}

// How many spaces, tabs and carriage returns stand first.
fn spaces_len(rest: &[u8]) -> usize
    ensures len { result ≡ prefix_len is_space rest.now }
    ensures within { result ≤ length rest.now }
{
    rest.iter().take_while(|byte| is_space(**byte)).count()
}

// Whether `define` stands first, and a word behind it and spaces, tabs and carriage returns, in a C
// file.
fn names_definition(lexicon: Lexicon, rest: &[u8]) -> bool
    ensures { result ≡ names_definition lexicon rest.now }
{
    let len = word_len(rest);
    let behind = &rest[len..];
    lexicon == Lexicon::C
        && &rest[..len] == b"define".as_slice()
        && starts_with_letter(&behind[spaces_len(behind)..])
}

// Whether a digit or the word of a directive stands first.
fn names_directive(lexicon: Lexicon, rest: &[u8]) -> bool
    ensures { result ≡ names_directive lexicon rest.now }
{
    starts_with_digit(rest)
        || is_directive_word(&rest[..word_len(rest)])
        || names_definition(lexicon, rest)
}

/// Whether a directive starts with what stands first, as far as what follows it tells.
pub fn is_directive(lexicon: Lexicon, rest: &[u8]) -> bool
    ensures { result ≡ is_directive lexicon rest.now }
{
    if rest.is_empty() || rest[0] != b'#' {
        return false;
    }
    let behind = &rest[1..];
    names_directive(lexicon, &behind[spaces_len(behind)..])
}

// Whether the byte that stands first is a blank of the tool's own formats, behind what stands before
// it in its line.
fn is_own_blank(before: Before, rest: &[u8]) -> bool
    ensures { result ≡ is_own_blank before rest.now }
{
    if rest.is_empty() {
        return false;
    }
    match before {
        Before::Blanks => is_blank(rest[0]) || is_directive(Lexicon::Own, rest),
        Before::Others => is_blank(rest[0]),
        Before::Directive => !(starts_comment(rest) || is_joint(rest)),
    }
}

/// Whether the byte that stands first is a blank, behind what stands before it in its line.
pub fn is_blank_at(lexicon: Lexicon, before: Before, rest: &[u8]) -> bool
    ensures { result ≡ is_blank_at lexicon before rest.now }
{
    match lexicon {
        Lexicon::Own => is_own_blank(before, rest),
        Lexicon::C => !rest.is_empty() && is_blank(rest[0]),
    }
}

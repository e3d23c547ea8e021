//! Comments.

ghost use Rattle.std.specs.Prelude.{◌≡◌, ◌≤◌, ◌<◌, ◌+◌, ◌∷◌, length, slice_index, IfSome, IsTrue};
ghost use Rattle.std.specs.List.{prefix_len};
ghost use Rattle.base_limits.specs.declared.limits.TheConstants.{MOST_PROGRAM_BYTES};
ghost use Rattle.lang_tokens.specs.declared.lexicon.Lexicon.{Lexicon};
ghost use Rattle.lang_tokens.specs.Bytes.{is_on_line};
ghost use Rattle.lang_tokens.specs.Directives.{starts_comment};
ghost use Rattle.lang_tokens.specs.Steps.{IsFirstClose, IsLastBackslash, Finds};

use crate::before::Before;
use crate::byte::is_line_blank;
use crate::fault::LexFault;
use crate::found::Found;
use crate::joint::first_joint;

// How many bytes stand before the first line feed, or before the end.
fn line_len(rest: &[u8]) -> usize
    ensures len { result ≡ prefix_len is_on_line rest.now }
    ensures within { result ≤ length rest.now }
{
    rest.iter().take_while(|byte| **byte != b'\n').count()
}

// Where the backslash stands that a line ends in, with blanks at most behind it.
fn last_backslash(line: &[u8]) -> Option<usize>
    ensures place { IsLastBackslash line.now result }
    ensures within { IfSome result (λ place. place < length line.now) }
{
    for place in (0..line.len()).rev() {
        if line[place] == b'\\' {
            return Some(place);
        }
        if !is_line_blank(line[place]) {
            return None;
        }
    }
    None
}

// The line comment of this body, with what follows it; `at` is the place of its `//`.
fn line_comment(body: &[u8], at: u32, before: Before) -> Result<Found, LexFault>
    requires { at + 2 + length body.now ≤ MOST_PROGRAM_BYTES }
    ensures { (lexicon : Lexicon) → Finds lexicon before (47 ∷ 47 ∷ body.now) at result }
{
    let len = line_len(body);
    if len == body.len() {
        return Ok(Found {
            kind: None,
            len: 2 + len,
            behind: before.behind_comment(),
        });
    }
    match last_backslash(&body[..len]) {
        Some(place) => Err(LexFault::BadByte {
            at: at + 2 + place as u32,
        }),
        None => Ok(Found {
            kind: None,
            len: 2 + len,
            behind: before.behind_comment(),
        }),
    }
}

// Where the first `*/` stands.
fn first_close(body: &[u8]) -> Option<usize>
    ensures place { IsFirstClose body.now result }
    ensures within { IfSome result (λ place. place + 2 ≤ length body.now) }
{
    for place in 1..body.len() {
        if body[place - 1] == b'*' && body[place] == b'/' {
            return Some(place - 1);
        }
    }
    None
}

// The comment of the `/*` that stands first; `at` is its place.
fn block_comment(rest: &[u8], at: u32, before: Before) -> Result<Found, LexFault>
    requires some { 2 ≤ length rest.now }
    requires slash { slice_index rest.now 0 ≡ 47 }
    requires star { slice_index rest.now 1 ≡ 42 }
    requires within { at + length rest.now ≤ MOST_PROGRAM_BYTES }
    ensures { (lexicon : Lexicon) → Finds lexicon before rest.now at result }
{
    match first_close(&rest[2..]) {
        Some(close) => match first_joint(&rest[1..close + 2]) {
            Some(star) => Err(LexFault::BadByte {
                at: at + 2 + star as u32,
            }),
            None => Ok(Found {
                kind: None,
                len: close + 4,
                behind: before.behind_comment(),
            }),
        },
        None => match first_joint(&rest[1..]) {
            Some(star) => Err(LexFault::BadByte {
                at: at + 2 + star as u32,
            }),
            None => Err(LexFault::OpenComment { at }),
        },
    }
}

/// The comment that starts with the `/` that stands first; `at` is its place.
pub fn comment(rest: &[u8], at: u32, before: Before) -> Result<Found, LexFault>
    requires starts { IsTrue (starts_comment rest.now) }
    requires within { at + length rest.now ≤ MOST_PROGRAM_BYTES }
    ensures { (lexicon : Lexicon) → Finds lexicon before rest.now at result }
{
    if rest[1] == b'/' {
        line_comment(&rest[2..], at, before)
    } else {
        block_comment(rest, at, before)
    }
}

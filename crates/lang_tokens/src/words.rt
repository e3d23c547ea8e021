//! Names and reserved words.

ghost use Rattle.std.specs.Prelude.{◌≡◌, ◌≤◌, length, slice_index, IsTrue};
ghost use Rattle.std.specs.List.{prefix_len};
ghost use Rattle.lang_tokens.specs.Bytes.{is_letter, is_word_byte};
ghost use Rattle.lang_tokens.specs.declared.lexicon.Lexicon.TheVariants.{Own};
ghost use Rattle.lang_tokens.specs.Steps.{FindsOutside, LexemeFirst};

use crate::before::Before;
use crate::byte::is_word_byte;
use crate::fault::LexFault;
use crate::found::Found;
use crate::lexeme::Lexeme;
use crate::reserved::reserved;
use crate::token::{Foreign, Kind};

/// The most bytes that a word has.
const LONGEST_WORD: usize = 32;

/// How many letters and digits stand first.
pub fn word_len(rest: &[u8]) -> usize
    ensures len { result ≡ prefix_len is_word_byte rest.now }
    ensures within { result ≤ length rest.now }
{
    rest.iter().take_while(|byte| is_word_byte(**byte)).count()
}

/// The word of the tool's own formats that starts with the letter that stands first; `at` is its place.
pub fn word(rest: &[u8], at: u32) -> Result<Found, LexFault>
    requires some { 1 ≤ length rest.now }
    requires letter { IsTrue (is_letter (slice_index rest.now 0)) }
    ensures { FindsOutside Own rest.now at result }
{
    let len = word_len(rest);
    if len > LONGEST_WORD {
        return Err(LexFault::LongName { at });
    }
    let kind = match reserved(&rest[..len]) {
        Some(word) => Kind::Word(word),
        None => Kind::Name,
    };
    Ok(Found {
        kind: Some(kind),
        len,
        behind: Before::Others,
    })
}

/// The word of C that starts with the letter that stands first.
pub fn word_lexeme(rest: &[u8]) -> Lexeme
    requires some { 1 ≤ length rest.now }
    requires letter { IsTrue (is_letter (slice_index rest.now 0)) }
    ensures { LexemeFirst rest.now result }
{
    let len = word_len(rest);
    if len > LONGEST_WORD {
        return Lexeme {
            kind: Some(Kind::Foreign(Foreign::LongName)),
            len,
        };
    }
    let kind = match reserved(&rest[..len]) {
        Some(word) => Kind::Word(word),
        None => Kind::Name,
    };
    Lexeme {
        kind: Some(kind),
        len,
    }
}

//! Texts that were tested.

ghost use Rattle.std.specs.Prelude.{◌≡◌, ◌<◌, Err, IfOk, IsTrue, IsUtf8, None, Some, is_some, option_and_then, option_map};
ghost use Rattle.std.specs.Bool.{MatchBool};
ghost use Rattle.json.specs.Json.{value};
ghost use Rattle.json.specs.Lex.{tokens};
ghost use Rattle.serde_json.specs.Find.{as_array, get};
ghost use Rattle.serde_json.specs.Read.{read};
ghost use Rattle.serde_json.specs.View.{view};
ghost use Rattle.base_values.specs.Elements.{left_of};
ghost use Rattle.base_values.specs.Outline.{outline_of};
ghost use Rattle.base_values.specs.Documents.{after_begin_array, after_begin_object, count_in, last_in, read_at, value_of};
ghost use Rattle.base_values.specs.Places.{member_depth};

use crate::elements::Elements;
use crate::fault::Fault;
use crate::members::{count, find_last};
use crate::outline::read_outline;
use json::{Reader, Scratch, Token};
use serde_json::Value;
use std::alloc::{AllocError, Global};
use std::marker::Model;

/// A text that `serde_json` reads. Contracts see its bytes; `value_of` is the value that they spell.
#[derive(Drop)]
pub struct Document<'a> {
    text: &'a str,
}

impl<'a> Model for Document<'a> {
    ghost use Rattle.std.specs.Prelude.{ℕ, List, IsTrue, is_some};
    ghost use Rattle.serde_json.specs.Read.{read};

    ghost Value = { List ℕ };

    ghost view = { λ d. d.text.now };

    ghost invariant = { λ d. IsTrue (is_some (read d.text.now)) };
}

// The outline of a whole text.
fn outline_text(alloc: Global, text: &str) -> Result<Value, Fault>
    ensures ok { IfOk result (λ v. (read text.now ≡ Some (value_of text.now)) × (view v ≡ outline_of (value_of text.now))) }
    ensures err { result ≡ Err Fault.NotJson → read text.now ≡ None }
{
    let mut scratch = Scratch::new(alloc);
    let mut reader = Reader::new(text, &mut scratch)?;
    let outline = read_outline(alloc, &mut reader, 127)?;
    if reader.next().is_some() {
        return Err(Fault::NotJson);
    }
    Ok(outline)
}

// Takes the brace that opens an object, if it is next.
fn takes_object(reader: &mut Reader<'_>) -> bool
    ensures { MatchBool result (after_begin_object reader.old ≡ Some reader.new) (after_begin_object reader.old ≡ None) }
{
    matches!(reader.next(), Some(Token::BeginObject))
}

// Takes the bracket that opens a list, if it is next.
fn takes_array(reader: &mut Reader<'_>) -> bool
    ensures { MatchBool result (after_begin_array reader.old ≡ Some reader.new) (after_begin_array reader.old ≡ None) }
{
    matches!(reader.next(), Some(Token::BeginArray))
}

// How many members of this key the object has that the text is, and 0 where it is none.
fn occurrences(text: &str, scratch: &mut Scratch<Global>, key: &str) -> Result<usize, AllocError>
    requires { IsTrue (is_some (read text.now)) }
    ensures none { IfOk result (λ n. n ≡ 0 → get key.now (value_of text.now) ≡ None) }
    ensures some { IfOk result (λ n. 0 < n → count_in key.now (tokens text.now) ≡ Some n) }
{
    let mut reader = Reader::new(text, scratch)?;
    if !takes_object(&mut reader) {
        return Ok(0);
    }
    match count(&mut reader, key) {
        Ok(count) => Ok(count),
        Err(_) => Err(AllocError),
    }
}

// The reader at the value of the last member of this key in a text with so many of them.
fn reader_at<'b>(
    text: &'b str,
    scratch: &'b mut Scratch<Global>,
    key: &str,
    count: usize,
) -> Result<Reader<'b>, AllocError>
    requires some { 0 < count }
    requires count { count_in key.now (tokens text.now) ≡ Some count }
    ensures { IfOk result (λ reader. option_map (λ p. p.0) (value member_depth reader) ≡ last_in key.now (tokens text.now)) }
{
    let mut reader = Reader::new(text, scratch)?;
    if !takes_object(&mut reader) {
        return Err(AllocError);
    }
    match find_last(&mut reader, key, count) {
        Ok(()) => Ok(reader),
        Err(_) => Err(AllocError),
    }
}

// The elements of the list that the value is before which the reader stands.
fn opened<'b>(mut reader: Reader<'b>) -> Option<Elements<'b>>
    requires { IsTrue (is_some (read_at reader)) }
    ensures { option_map left_of result ≡ option_and_then as_array (read_at reader.entry) }
{
    if takes_array(&mut reader) {
        Some(Elements {
            reader,
            over: false,
        })
    } else {
        None
    }
}

// The elements of the list that the last member of this key is.
fn elements_in<'b>(
    text: &'b str,
    scratch: &'b mut Scratch<Global>,
    key: &str,
) -> Result<Option<Elements<'b>>, AllocError>
    requires { IsTrue (is_some (read text.now)) }
    ensures { IfOk result (λ found. option_map left_of found ≡ option_and_then as_array (get key.now (value_of text.now))) }
{
    let count = occurrences(text, scratch, key)?;
    if count == 0 {
        return Ok(None);
    }
    let reader = reader_at(text, scratch, key, count)?;
    Ok(opened(reader))
}

impl<'a> Document<'a> {
    /// The text with the outline of its value, in which null stands for all that is no number at a key of its object.
    ///
    /// # Errors
    ///
    /// `NotJson` exactly where `serde_json` doesn't read the text; or want of memory.
    pub fn new(alloc: Global, bytes: &'a [u8]) -> Result<(Document<'a>, Value), Fault>
        ensures text { IfOk result (λ both. both.0 ≡ bytes.now) }
        ensures read { IfOk result (λ _. IsUtf8 bytes.now × (read bytes.now ≡ Some (value_of bytes.now))) }
        ensures outline { IfOk result (λ both. view both.1 ≡ outline_of (value_of bytes.now)) }
        ensures not_json { result ≡ Err Fault.NotJson → IsUtf8 bytes.now → read bytes.now ≡ None }
    {
        match std::str::from_utf8(bytes) {
            Ok(text) => {
                let outline = outline_text(alloc, text)?;
                Ok((Document { text }, outline))
            }
            Err(_) => Err(Fault::NotJson),
        }
    }

    /// The elements of the list that the member of this key is, the last one where a key is repeated.
    pub fn elements<'b>(
        &'b self,
        scratch: &'b mut Scratch<Global>,
        key: &str,
    ) -> Result<Option<Elements<'b>>, AllocError>
        ensures { IfOk result (λ found. option_map left_of found ≡ option_and_then as_array (get key.now (value_of self.now))) }
    {
        elements_in(self.text, scratch, key)
    }
}

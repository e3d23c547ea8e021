//! Names of variables and labels.

ghost use Rattle.std.specs.Prelude.{◌≡◌, ◌↔◌, IsTrue, IsSome, IfOk, IfSome};
ghost use Rattle.std.specs.List.{list_all};
ghost use Rattle.lang_tree.specs.Word.{begins_word, is_letter, is_word, is_word_byte};

use std::alloc::{AllocError, Global};
use std::marker::Model;

/// A word of 1 to 32 bytes: a letter or `_`, and then letters, digits and `_`.
#[derive(Drop)]
pub struct Name {
    bytes: [u8; 32],
    len: usize,
}

impl Model for Name {
    ghost use Rattle.std.specs.Prelude.{List, ℕ, ◌≤◌, take, IsTrue};
    ghost use Rattle.lang_tree.specs.Word.{is_word};

    ghost Value = { List ℕ };

    ghost view = { λ n. take n.len n.bytes };

    ghost invariant = { λ n. (n.len ≤ 32) × IsTrue (is_word (take n.len n.bytes)) };
}

impl Name {
    /// The name with these bytes, reserved or not; `None` where they aren't a word of at most 32 bytes.
    pub fn new(bytes: &[u8]) -> Option<Name>
        ensures some { IsSome result ↔ IsTrue (is_word bytes.now) }
        ensures value { IfSome result (λ n. n ≡ bytes.now) }
    {
        if !is_word(bytes) {
            return None;
        }
        let mut kept = [0; 32];
        kept[..bytes.len()].copy_from_slice(bytes);
        Some(Name {
            bytes: kept,
            len: bytes.len(),
        })
    }

    /// The name's bytes.
    pub fn bytes(&self) -> &[u8]
        ensures bytes { result.now ≡ self.now }
        ensures word { IsTrue (is_word self.now) }
    {
        &self.bytes[..self.len]
    }

    /// The same name once more.
    pub fn again(&self) -> Name
        ensures { result ≡ self.now }
    {
        Name {
            bytes: self.bytes,
            len: self.len,
        }
    }
}

/// Names in order.
#[derive(Drop)]
pub struct Names {
    list: Vec<Name>,
}

impl Model for Names {
    ghost use Rattle.std.specs.Prelude.{List, ℕ};

    ghost Value = { List (List ℕ) };

    ghost view = { λ n. n.list.items };
}

impl Names {
    /// The list as names.
    pub fn new(list: Vec<Name>) -> Names
        ensures { result ≡ list.items }
    {
        Names { list }
    }

    /// The list itself.
    pub fn as_slice(&self) -> &[Name]
        ensures { result.now ≡ self.now }
    {
        self.list.as_slice()
    }

    /// The same names once more.
    pub fn again(&self, alloc: Global) -> Result<Names, AllocError>
        ensures { IfOk result (λ copy. copy ≡ self.now) }
    {
        let mut list = Vec::new(alloc);
        for name in self.as_slice() {
            list.push(name.again())?;
        }
        Ok(Names { list })
    }
}

fn is_letter(byte: u8) -> bool
    ensures { result ≡ is_letter byte }
{
    byte.is_ascii_alphabetic() || byte == b'_'
}

fn begins_word(bytes: &[u8]) -> bool
    ensures { result ≡ begins_word bytes.now }
{
    match bytes {
        [] => false,
        [first, ..] => is_letter(*first),
    }
}

fn has_word_bytes(bytes: &[u8]) -> bool
    ensures { result ≡ list_all is_word_byte bytes.now }
{
    bytes
        .iter()
        .all(|byte| is_letter(*byte) || byte.is_ascii_digit())
}

fn is_word(bytes: &[u8]) -> bool
    ensures { result ≡ is_word bytes.now }
{
    bytes.len() <= 32 && begins_word(bytes) && has_word_bytes(bytes)
}

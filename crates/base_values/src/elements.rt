//! The elements of a list in a text, one after another.

ghost use Rattle.std.specs.Prelude.{◌≡◌, IfOk, MatchOption};
ghost use Rattle.serde_json.specs.Data.{item, no_items};
ghost use Rattle.serde_json.specs.View.{view};
ghost use Rattle.base_values.specs.Elements.{left_of};

use crate::tree::read_value;
use json::Reader;
use serde_json::Value;
use std::alloc::{AllocError, Global};
use std::marker::Model;

/// The elements of a list that are still to come. Contracts see the tokens from the next element on, or `None` at the end;
/// `left_of` is the elements that they spell.
#[derive(Drop)]
pub struct Elements<'a> {
    pub(crate) reader: Reader<'a>,
    pub(crate) over: bool,
}

impl<'a> Model for Elements<'a> {
    ghost use Rattle.std.specs.Prelude.{List, Option, IsTrue, ◌||◌};
    ghost use Rattle.std.specs.Coded.{coded_option};
    ghost use Rattle.json.specs.Token.{Token, tokens_code};
    ghost use Rattle.base_values.specs.Elements.{are_elements, unless_over};

    ghost Value = { Option (List Token) };

    ghost coded = { coded_option tokens_code };

    ghost view = { λ e. unless_over e.over e.reader };

    ghost invariant = { λ e. IsTrue (e.over || are_elements e.reader) };
}

impl<'a> Elements<'a> {
    /// The next element, as a tree of its own.
    pub fn next(&mut self, alloc: Global) -> Result<Option<Value>, AllocError>
        ensures { IfOk result (λ next. MatchOption next ((left_of self.old ≡ no_items) × (left_of self.new ≡ no_items))
            (λ v. left_of self.old ≡ item (view v) (left_of self.new))) }
    {
        if self.over {
            return Ok(None);
        }
        if self.reader.take_end_array() {
            self.over = true;
            return Ok(None);
        }
        match read_value(alloc, &mut self.reader, 125) {
            Ok(value) => Ok(Some(value)),
            Err(_) => {
                self.over = true;
                Err(AllocError)
            }
        }
    }
}

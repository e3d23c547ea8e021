//! The division of a file into items.

ghost use Rattle.std.specs.Prelude.{◌≡◌, ◌<◌, ◌^◌, IfOk, OnOk, length, suc};
ghost use Rattle.source_items.specs.Divisions.{Finds, Outcome, outcome_of};
ghost use Rattle.source_items.specs.Elements.{AllMatch, Element, Elements, Matches, all_spelled};
ghost use Rattle.source_items.specs.Items.{with_last};
ghost use Rattle.source_items.specs.Machine.{State, close, last_of, put, same, step};
ghost use Rattle.source_items.specs.Standing.{IsMet, IsNext, Meets, Stands, Takes};

use crate::item::{Begun, Item};
use crate::mark::{Bracket, Mark};
use std::alloc::{AllocError, Global};

/// What becomes of the tokens of a file.
#[derive(Debug, Drop)]
pub enum Division {
    /// They are these items.
    Divided(Vec<Item>),
    /// The token `index`, counted from 0, is the first that doesn't fit; one as large as the number of tokens is the end of the file.
    Unexpected { index: usize },
}

/// What has been met of a file.
#[derive(Drop)]
pub(crate) struct Reading {
    /// The brackets that are open, the innermost last.
    pub brackets: Vec<Bracket>,
    pub items: Vec<Item>,
    /// The first token of the item that has begun.
    pub first: usize,
    pub begun: Begun,
}

// Takes the token `index`, the last one of an element outside of all brackets.
fn take_element(reading: &mut Reading, last: Mark, index: usize) -> Result<(), AllocError>
    requires { index < 2 ^ 63 }
    ensures meets { OnOk result ((base : Elements) (e : Element) → last_of e ≡ last → AllMatch base → Matches e
        → length (all_spelled (with_last base e)) ≡ suc index
        → Meets base reading.old → Meets (with_last base e) reading.new) }
    ensures brackets { reading.new.brackets.items ≡ reading.old.brackets.items }
{
    let begun = reading.begun.with(last, index);
    if reading.begun.ends_with(last) {
        reading.items.push(Item {
            first: reading.first,
            end: index + 1,
            name: begun.name(),
        })?;
        reading.first = index + 1;
        reading.begun = Begun::none();
    } else {
        reading.begun = begun;
    }
    Ok(())
}

// Puts an element whose last token is `index` into the innermost bracket that is open.
fn put(reading: &mut Reading, last: Mark, index: usize) -> Result<(), AllocError>
    requires { index < 2 ^ 63 }
    ensures { OnOk result ((st : State) (e : Element) → IsMet st reading.old → IsNext st e last index
        → Stands (put st.base st.brackets e) reading.new (suc index)) }
{
    if reading.brackets.as_slice().is_empty() {
        take_element(reading, last, index)?;
    }
    Ok(())
}

// Whether two brackets are of a kind.
fn same(one: Bracket, other: Bracket) -> bool
    ensures { result ≡ same one other }
{
    match (one, other) {
        (Bracket::Round, Bracket::Round) => true,
        (Bracket::Square, Bracket::Square) => true,
        (Bracket::Curly, Bracket::Curly) => true,
        _ => false,
    }
}

// Closes a bracket with the token `index`, and answers whether the innermost one that is open is of its kind.
fn close(reading: &mut Reading, bracket: Bracket, index: usize) -> Result<bool, AllocError>
    requires { index < 2 ^ 63 }
    ensures { IfOk result (λ fits. (st : State) → Stands st reading.old index
        → Takes fits (close bracket st.base st.brackets) reading.new (suc index)) }
{
    match reading.brackets.pop() {
        Some(top) => {
            if !same(top, bracket) {
                return Ok(false);
            }
            put(reading, Mark::Closes(bracket), index)?;
            Ok(true)
        }
        None => Ok(false),
    }
}

// Takes the token `index`, and answers whether it fits.
fn take(reading: &mut Reading, mark: Mark, index: usize) -> Result<bool, AllocError>
    requires { index < 2 ^ 63 }
    ensures { IfOk result (λ fits. (st : State) → Stands st reading.old index → Takes fits (step st mark) reading.new (suc index)) }
{
    match mark {
        Mark::Opens(bracket) => {
            reading.brackets.push(bracket)?;
            Ok(true)
        }
        Mark::Closes(bracket) => close(reading, bracket, index),
        _ => {
            put(reading, mark, index)?;
            Ok(true)
        }
    }
}

/// The items of a file (docs/MEANING.md, "Functions of C"), by what its tokens are to the division.
pub fn divide(alloc: Global, marks: &[Mark]) -> Result<Division, AllocError>
    // What is answered is so.
    ensures found { IfOk result (λ d. Finds (outcome_of d) marks.now) }
    // What is so is answered.
    ensures exact { IfOk result (λ d. (wanted : Outcome) → Finds wanted marks.now → outcome_of d ≡ wanted) }
{
    let mut reading = Reading {
        brackets: Vec::new(alloc),
        items: Vec::new(alloc),
        first: 0,
        begun: Begun::none(),
    };
    for (index, mark) in marks.iter().enumerate() {
        if !take(&mut reading, *mark, index)? {
            return Ok(Division::Unexpected { index });
        }
    }
    if reading.brackets.as_slice().is_empty() && reading.first == marks.len() {
        Ok(Division::Divided(reading.items))
    } else {
        Ok(Division::Unexpected { index: marks.len() })
    }
}

//! The search for anchors: a stack of what has still to come.

ghost use Rattle.std.specs.Prelude.{◌≡◌, ◌≤◌, ◌<◌, ◌+◌, ◌-◌, ◌^◌, ◌++◌, ◌∷◌, [], IfOk, OnOk, length};
ghost use Rattle.acsl_anchors.specs.Anchors.{declared, number_among};
ghost use Rattle.acsl_anchors.specs.Machine.{after, anchors_with, before, scope_with, start, step};
ghost use Rattle.acsl_anchors.specs.Search.{HasRoom, scope_in, stack_of, state_of};

use crate::anchor::{Anchor, What};
use crate::goal::{Effect, Entry, Goal, Next, Place, enter};
use crate::part::Part;
use base_list::Sequence;
use lang_tree::Name;
use std::alloc::{AllocError, Global};

/// How far a search has come.
#[derive(Drop)]
pub struct Search {
    goals: Vec<Goal>,
    variables: Vec<Name>,
    known: Vec<u32>,
    anchors: Vec<Anchor>,
}

// Puts what has to come next onto the stack.
fn add(goals: &mut Vec<Goal>, next: Next) -> Result<(), AllocError>
    ensures { OnOk result (stack_of goals.new.items ≡ before next (stack_of goals.old.items)) }
{
    match next {
        Next::Zero => {}
        Next::One(first) => goals.push(first)?,
        Next::Two(first, second) => {
            goals.push(second)?;
            goals.push(first)?;
        }
        Next::Three(first, second, third) => {
            goals.push(third)?;
            goals.push(second)?;
            goals.push(first)?;
        }
    }
    Ok(())
}

// Puts the further statements of a place onto the stack.
fn go_on(goals: &mut Vec<Goal>, place: Place) -> Result<(), AllocError>
    ensures { OnOk result (stack_of goals.new.items ≡ after place (stack_of goals.old.items)) }
{
    match place {
        Place::Sub => {}
        Place::Block(_) | Place::Body => goals.push(Goal::Statement(place))?,
    }
    Ok(())
}

// The number of the variable with this name, or of the next one where none has it.
fn number_among(name: &Name, variables: &[Name]) -> usize
    ensures number { result ≡ number_among name.now variables.now }
    ensures within { result ≤ length variables.now }
{
    let mut number = 0;
    for variable in variables {
        if name.bytes() == variable.bytes() {
            return number;
        }
        number += 1;
    }
    number
}

impl Search {
    /// A whole function has to come.
    pub fn new(alloc: Global) -> Result<Search, AllocError>
        ensures state { IfOk result (λ search. state_of search ≡ start) }
        ensures variables { IfOk result (λ search. length search.variables.items ≡ 0) }
    {
        let mut goals = Vec::new(alloc);
        goals.push(Goal::Front)?;
        Ok(Search {
            goals,
            variables: Vec::new(alloc),
            known: Vec::new(alloc),
            anchors: Vec::new(alloc),
        })
    }

    // An anchor at which what is known here is known.
    fn mark(&mut self, what: What, first: u32, place: u32) -> Result<(), AllocError>
        ensures same { OnOk result ((self.new.goals ≡ self.old.goals) × (scope_in self.new ≡ scope_in self.old)) }
        ensures anchor { OnOk result (self.new.anchors.items ≡ self.old.anchors.items
            ++ record { what = what; first = first; place = place; known = self.old.known.items } ∷ []) }
    {
        let known = Sequence::new(self.known.clone()?);
        self.anchors.push(Anchor {
            what,
            first,
            place,
            known,
        })?;
        Ok(())
    }

    // A variable is declared, or declared again.
    fn declare(&mut self, name: Name) -> Result<(), AllocError>
        requires { length self.old.variables.items < 2 ^ 32 - 1 }
        ensures same { OnOk result ((self.new.goals ≡ self.old.goals) × (self.new.anchors.items ≡ self.old.anchors.items)) }
        ensures scope { OnOk result (scope_in self.new ≡ declared name (scope_in self.old)) }
        ensures variables { OnOk result (length self.new.variables.items ≤ length self.old.variables.items + 1) }
    {
        let number = number_among(&name, &self.variables);
        self.known.push(number as u32)?;
        if number == self.variables.len() {
            self.variables.push(name)?;
        }
        Ok(())
    }

    // What a token tells besides what has to come.
    fn tell(&mut self, effect: Effect) -> Result<(), AllocError>
        requires variables { length self.old.variables.items < 2 ^ 32 - 1 }
        requires place { HasRoom effect }
        ensures goals { OnOk result (self.new.goals ≡ self.old.goals) }
        ensures scope { OnOk result (scope_in self.new ≡ scope_with effect (scope_in self.old)) }
        ensures anchors { OnOk result (self.new.anchors.items ≡ anchors_with effect (scope_in self.old) self.old.anchors.items) }
        ensures variables { OnOk result (length self.new.variables.items ≤ length self.old.variables.items + 1) }
    {
        match effect {
            Effect::Nothing => Ok(()),
            Effect::Declares(name) => self.declare(name),
            Effect::Loop(at) => self.mark(What::Loop, at, at),
            Effect::Label(first, colon) => self.mark(What::Label, first, colon + 1),
            Effect::End(at) => self.mark(What::End, at, at),
        }
    }

    /// Takes a token that begins at this byte.
    pub fn take(&mut self, part: &Part, at: u32) -> Result<(), AllocError>
        requires variables { length self.old.variables.items < 2 ^ 32 - 1 }
        requires place { at < 2 ^ 32 - 1 }
        ensures state { OnOk result (state_of self.new ≡ step (stack_of self.old.goals.items) part.now at (scope_in self.old)
            self.old.anchors.items) }
        ensures variables { OnOk result (length self.new.variables.items ≤ length self.old.variables.items + 1) }
    {
        while let Some(goal) = self.goals.pop() {
            match enter(goal, part, at, self.known.len()) {
                Entry::Drops => {}
                Entry::Keeps(known) => self.known.truncate(known),
                Entry::Takes(effect, next, place) => {
                    self.tell(effect)?;
                    go_on(&mut self.goals, place)?;
                    return add(&mut self.goals, next);
                }
            }
        }
        Ok(())
    }

    /// The anchors that have been found, in the order of the text.
    pub fn into_anchors(self) -> Vec<Anchor>
        ensures { result.items ≡ (state_of self).found }
    {
        self.anchors
    }
}

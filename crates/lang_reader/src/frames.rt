//! The stack of what is pending.
#![tactic(auto, using(lang_meaning::proofs::results::Binds::then_ok, lang_meaning::proofs::results::Binds::then_err))]

ghost use Rattle.std.specs.Prelude.{◌≡◌, [], ◌∷◌, OnOk, MatchOption};
ghost use Rattle.lang_grammar.specs.Grammar.{level};
ghost use Rattle.lang_grammar.specs.Symbols.{op_of};
ghost use Rattle.lang_tree.specs.View.{statement_of};
ghost use Rattle.lang_meaning.specs.Walk.{prefix_value, regarded};
ghost use Rattle.lang_meaning.specs.Feed.{complete, join_tighter, pushed, is_body, is_inside, next_mode};
ghost use Rattle.lang_meaning.specs.Gives.{Gives};
ghost use Rattle.lang_reader.specs.Values.{value_of};
ghost use Rattle.lang_reader.specs.Frames.{before_of, frame_of, frames_of};
ghost use Rattle.lang_reader.specs.Modes.{mode_of};

use crate::forms::scaled;
use crate::frame::{Before, Frame, Within};
use crate::mode::Mode;
use crate::nodes::{followed, one};
use crate::value::{Value, as_condition, combined, number_of};
use lang_grammar::{Op, Relation};
use lang_meaning::ParseFault;
use lang_tree::{Cond, Stmt};
use std::alloc::{AllocError, Global};
use std::marker::Model;

/// What is pending. Contracts see the list of it, the top first.
#[derive(Drop)]
pub struct Frames {
    list: Vec<Frame>,
}

impl Model for Frames {
    ghost use Rattle.std.specs.Prelude.{List, reverse};
    ghost use Rattle.lang_reader.specs.declared.frame.Frame.{Frame};

    ghost Value = { List Frame };

    ghost use Rattle.lang_tree.specs.contracts.cond.Cond as cond;
    ghost use Rattle.lang_tree.specs.contracts.stmt.Stmt as stmt;
    ghost use Rattle.lang_tree.specs.Codes.{coded_statements};
    ghost use Rattle.std.specs.Coded.{codes};

    ghost coded = { Prim.hlevel (codes, cond.the_row.coded, stmt.the_row.coded, coded_statements) };

    ghost view = { λ s. reverse s.list.items };
}

// What a sign before a value makes of it.
fn prefixed(alloc: Global, before: Before, at: u32, value: Value) -> Result<Value, ParseFault>
    ensures { Gives value_of result (prefix_value (before_of before) at (value_of value)) }
{
    match before {
        Before::Minus => {
            let form = number_of(at, value)?;
            Ok(Value::Form(scaled(alloc, at, -1, &form)?, at))
        }
        Before::Plus => Ok(Value::Form(number_of(at, value)?, at)),
        Before::Not => {
            let cond = as_condition(value)?;
            Ok(Value::Truth(Cond::Not(Box::new(alloc, cond)?)))
        }
    }
}

/// A value in parentheses, of which the first is at `at`.
pub fn regarded(at: u32, value: Value) -> Value
    ensures { value_of result ≡ regarded at (value_of value) }
{
    match value {
        Value::Form(form, _) => Value::Form(form, at),
        other => other,
    }
}

/// How tightly a sign holds its sides.
pub fn level(op: Op) -> u32
    ensures { result ≡ level (op_of op) }
{
    match op {
        Op::Or => 0,
        Op::And => 1,
        Op::Compare(Relation::Equal) | Op::Compare(Relation::Unequal) => 2,
        Op::Compare(_) => 3,
        Op::Plus | Op::Minus => 4,
        Op::Times => 5,
    }
}

fn is_body(frame: &Frame) -> bool
    ensures { result ≡ is_body (frame_of frame.now) }
{
    matches!(
        frame,
        Frame::Under(Within::Loop(..) | Within::Body(_) | Within::For { .. }, _)
    )
}

impl Frames {
    /// Nothing is pending.
    pub fn new(alloc: Global) -> Self
        ensures { result ≡ [] }
    {
        Frames {
            list: Vec::new(alloc),
        }
    }

    /// Puts a frame on top.
    pub fn push(&mut self, frame: Frame) -> Result<(), AllocError>
        ensures { OnOk result (self.new ≡ frame ∷ self.old) }
    {
        self.list.push(frame)?;
        Ok(())
    }

    /// Takes the top away.
    pub fn pop(&mut self) -> Option<Frame>
        ensures { MatchOption result ((self.old ≡ []) × (self.new ≡ [])) (λ frame. self.old ≡ frame ∷ self.new) }
    {
        self.list.pop()
    }

    /// Applies the signs before a whole operand.
    pub fn complete(&mut self, alloc: Global, value: Value) -> Result<Value, ParseFault>
        ensures { Gives (λ v. (frames_of self.new, value_of v)) result (complete (frames_of self.old) (value_of value)) }
    {
        let mut value = value;
        while let Some(frame) = self.pop() {
            match frame {
                Frame::Before(before, at) => value = prefixed(alloc, before, at, value)?,
                other => {
                    self.push(other)?;
                    return Ok(value);
                }
            }
        }
        Ok(value)
    }

    /// Joins the left sides whose sign holds at least as tightly as `next`.
    pub fn join_tighter(
        &mut self,
        alloc: Global,
        next: u32,
        value: Value,
    ) -> Result<Value, ParseFault>
        ensures { Gives (λ v. (frames_of self.new, value_of v)) result (join_tighter next (frames_of self.old) (value_of value)) }
    {
        let mut value = value;
        while let Some(frame) = self.pop() {
            match frame {
                Frame::Side {
                    left,
                    op,
                    place: at,
                } if level(op) >= next => {
                    value = combined(alloc, op, at, left, value)?;
                }
                other => {
                    self.push(other)?;
                    return Ok(value);
                }
            }
        }
        Ok(value)
    }

    /// Puts a node behind those so far.
    pub fn add(&mut self, alloc: Global, stmt: Stmt) -> Result<(), AllocError>
        ensures { OnOk result (frames_of self.new ≡ pushed (statement_of stmt) (frames_of self.old)) }
    {
        match self.pop() {
            Some(Frame::Under(within, nodes)) => {
                let nodes = followed(nodes, one(alloc, stmt)?)?;
                self.push(Frame::Under(within, nodes))
            }
            Some(
                Frame::Header {
                    known,
                    place: at,
                    before: nodes,
                },
            ) => {
                let nodes = followed(nodes, one(alloc, stmt)?)?;
                self.push(Frame::Header {
                    known,
                    place: at,
                    before: nodes,
                })
            }
            Some(other) => self.push(other),
            None => Ok(()),
        }
    }

    /// Whether this stands in a loop's body.
    pub fn is_inside(&self) -> bool
        ensures { result ≡ is_inside (frames_of self.now) }
    {
        let mut above = self.list.len();
        while above > 0 {
            above -= 1;
            if is_body(&self.list[above]) {
                return true;
            }
        }
        false
    }

    /// What follows a declaration.
    pub fn next_mode(&self) -> Mode
        ensures { mode_of result ≡ next_mode (frames_of self.now) }
    {
        match self.list.last() {
            Some(Frame::Header { .. }) => Mode::TestPart,
            _ => Mode::Stands,
        }
    }
}

//! What has been met of a text, and what is pending.
#![tactic(auto, using(lang_meaning::proofs::results::Binds::then_ok, lang_meaning::proofs::results::Binds::then_err))]

ghost use Rattle.std.specs.Prelude.{◌≡◌, ◌≤◌, [], length, IfOk};
ghost use Rattle.lang_tokens.specs.Lines.{line_at};
ghost use Rattle.lang_tree.specs.View.{statements_of, condition_of};
ghost use Rattle.lang_meaning.specs.Walk.{start_state, always};
ghost use Rattle.lang_meaning.specs.Expressions.{knowing};
ghost use Rattle.lang_meaning.specs.Feed.{settled, headed};
ghost use Rattle.lang_meaning.specs.Gives.{Gives};
ghost use Rattle.lang_reader.specs.Frames.{within_of, frames_of};
ghost use Rattle.lang_reader.specs.Modes.{mode_of, machine_of, pending_of};
ghost use Rattle.lang_reader.specs.Steps.{declared_then, counted_then};
ghost use Rattle.lang_reader.specs.Views.{state_of};

use crate::context::Context;
use crate::forms::zero_form;
use crate::frame::{Frame, Within};
use crate::frames::Frames;
use crate::mode::Mode;
use crate::nodes::{change_in, followed};
use crate::source::Source;
use lang_meaning::ParseFault;
use lang_tree::{Cond, Form, MOST_VARIABLES, Name, Rel, Stmt};
use std::alloc::{AllocError, Global};

/// What has been met of a text, and what is pending.
#[derive(Drop)]
pub struct Reader {
    pub context: Context,
    pub frames: Frames,
}

/// The condition of a `for` without one.
pub fn always(alloc: Global, width: usize) -> Result<Cond, AllocError>
    ensures { IfOk result (λ c. condition_of c ≡ always width) }
{
    Ok(Cond::Cmp(Rel::Le, zero_form(alloc, width)?))
}

impl Reader {
    /// Before the first token of a program.
    pub fn new(alloc: Global) -> Self
        ensures { pending_of result ≡ (start_state, []) }
    {
        Reader {
            context: Context::new(alloc),
            frames: Frames::new(alloc),
        }
    }

    /// Before the first token of an expression over these names; a name's number is its first place.
    pub fn knowing(alloc: Global, names: &[Name]) -> Result<Self, AllocError>
        requires { length names.now ≤ MOST_VARIABLES }
        ensures { IfOk result (λ reader. pending_of reader ≡ (knowing names.now, [])) }
    {
        Ok(Reader {
            context: Context::knowing(alloc, names)?,
            frames: Frames::new(alloc),
        })
    }

    /// A statement without statements in it has ended, or the first part or the change of a `for`.
    pub fn settled(&mut self, alloc: Global, nodes: Vec<Stmt>) -> Result<Mode, AllocError>
        ensures { IfOk result (λ m. settled (state_of self.old.context)
            (frames_of self.old.frames) (statements_of nodes.items) ≡ machine_of self.new m) }
    {
        match self.frames.pop() {
            Some(
                Frame::Header {
                    known,
                    place,
                    before,
                },
            ) => {
                let before = followed(before, nodes)?;
                self.frames.push(Frame::Header {
                    known,
                    place,
                    before,
                })?;
                Ok(Mode::TestPart)
            }
            Some(
                Frame::HeaderTested {
                    known,
                    place,
                    before,
                    cond,
                },
            ) => {
                let within = Within::For {
                    known,
                    place,
                    before,
                    cond,
                    change: change_in(nodes),
                };
                self.frames.push(Frame::Under(within, Vec::new(alloc)))?;
                Ok(Mode::Stands)
            }
            Some(other) => {
                self.frames.push(other)?;
                Ok(Mode::After(nodes))
            }
            None => Ok(Mode::After(nodes)),
        }
    }

    /// The condition of a `for` is there.
    pub fn headed(&mut self, cond: Cond) -> Result<Mode, ParseFault>
        ensures { Gives (machine_of self.new) result (headed (state_of self.old.context) (frames_of self.old.frames) (condition_of cond)) }
    {
        match self.frames.pop() {
            Some(
                Frame::Header {
                    known,
                    place,
                    before,
                },
            ) => {
                self.context.counted(place)?;
                self.frames.push(Frame::HeaderTested {
                    known,
                    place,
                    before,
                    cond,
                })?;
                Ok(Mode::LastPart)
            }
            Some(other) => {
                self.frames.push(other)?;
                Ok(Mode::LastPart)
            }
            None => Ok(Mode::LastPart),
        }
    }

    /// Declares a variable, which takes the value of a form, or any; `next` follows.
    pub fn declared(
        &mut self,
        source: &Source,
        name: &Name,
        place: u32,
        form: Option<Form>,
        next: Mode,
    ) -> Result<Mode, ParseFault>
        ensures { Gives (machine_of self.new) result
            (declared_then (line_at source.now.text.now) name.now place form (state_of self.old.context)
            (frames_of self.old.frames) (mode_of next)) }
    {
        let stmt = self.context.declared(source.text, name, place, form)?;
        self.frames.add(source.alloc, stmt)?;
        Ok(next)
    }

    /// The statement at `place` counts, and what stands within it begins.
    pub fn opened(&mut self, alloc: Global, within: Within, place: u32) -> Result<Mode, ParseFault>
        ensures { Gives (machine_of self.new) result
            (counted_then place (state_of self.old.context) (frames_of self.old.frames) (within_of within)) }
    {
        self.context.counted(place)?;
        self.frames.push(Frame::Under(within, Vec::new(alloc)))?;
        Ok(Mode::Stands)
    }
}

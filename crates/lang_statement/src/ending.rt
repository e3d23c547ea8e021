//! How statements end.
#![tactic(auto, using(lang_meaning::proofs::results::Binds::then_ok, lang_meaning::proofs::results::Binds::then_err))]

ghost use Rattle.std.specs.Prelude.{◌≡◌, OnOk, IfOk};
ghost use Rattle.lang_tokens.specs.Lines.{line_at};
ghost use Rattle.lang_tree.specs.View.{statements_of};
ghost use Rattle.lang_meaning.specs.Feed.{wrapped, close, attach, items_end, while_behind};
ghost use Rattle.lang_reader.specs.Frames.{within_of, frames_of};
ghost use Rattle.lang_reader.specs.Modes.{machine_of, pending_of};
ghost use Rattle.lang_reader.specs.Views.{state_of};
ghost use Rattle.lang_statement.specs.Closing.{GoesOn};

use lang_reader::{Frame, Mode, Reader, Source, Test, Within, followed, one};
use lang_tokens::line_of;
use lang_tree::{Block, Deeds, Stmt};
use std::alloc::AllocError;

// The statement whose last part has these nodes.
fn wrapped(source: &Source, within: Within, nodes: Vec<Stmt>) -> Result<Vec<Stmt>, AllocError>
    ensures { IfOk result (λ all. statements_of all.items
        ≡ wrapped (line_at source.now.text.now) (within_of within) (statements_of nodes.items)) }
{
    match within {
        Within::Items(_) => Ok(nodes),
        Within::Branch(cond, at) => one(
            source.alloc,
            Stmt::If {
                cond,
                first: Block::new(nodes),
                second: Block::new(Vec::new(source.alloc)),
                line: line_of(source.text, at),
            },
        ),
        Within::Other {
            cond,
            first,
            place: at,
        } => one(
            source.alloc,
            Stmt::If {
                cond,
                first,
                second: Block::new(nodes),
                line: line_of(source.text, at),
            },
        ),
        Within::Loop(cond, at) => one(
            source.alloc,
            Stmt::While {
                prelude: Deeds::none(source.alloc),
                cond,
                body: Block::new(nodes),
                line: line_of(source.text, at),
            },
        ),
        Within::Body(_) => Ok(nodes),
        Within::For {
            place: at,
            before,
            cond,
            change,
            ..
        } => {
            let body = Block::new(nodes);
            let line = line_of(source.text, at);
            followed(
                before,
                one(
                    source.alloc,
                    Stmt::For {
                        prelude: Deeds::none(source.alloc),
                        cond,
                        change: Deeds::of_change(source.alloc, change)?,
                        body,
                        line,
                    },
                )?,
            )
        }
    }
}

// One step of `close`.
fn close_one(
    source: &Source,
    reader: &mut Reader,
    nodes: Vec<Stmt>,
) -> Result<Option<Vec<Stmt>>, AllocError>
    ensures { IfOk result (GoesOn (close (line_at source.now.text.now)) (pending_of reader.old) (statements_of nodes.items)
        (pending_of reader.new)) }
{
    match reader.frames.pop() {
        Some(Frame::Under(within, before)) => {
            let all = followed(before, nodes)?;
            match within {
                Within::Items(known) => {
                    reader.frames.push(Frame::Under(Within::Items(known), all))?;
                    Ok(None)
                }
                Within::Body(at) => {
                    reader.frames.push(Frame::Under(Within::Body(at), all))?;
                    Ok(None)
                }
                Within::Branch(cond, at) => {
                    Ok(Some(wrapped(source, Within::Branch(cond, at), all)?))
                }
                Within::Other {
                    cond,
                    first,
                    place: at,
                } => {
                    Ok(Some(wrapped(
                        source,
                        Within::Other {
                            cond,
                            first,
                            place: at,
                        },
                        all,
                    )?))
                }
                Within::Loop(cond, at) => {
                    Ok(Some(wrapped(source, Within::Loop(cond, at), all)?))
                }
                Within::For {
                    known,
                    place: at,
                    before: first,
                    cond,
                    change,
                } => {
                    reader.context.close(known);
                    let within = Within::For {
                        known,
                        place: at,
                        before: first,
                        cond,
                        change,
                    };
                    Ok(Some(wrapped(source, within, all)?))
                }
            }
        }
        Some(_) => Ok(None),
        None => {
            reader.frames.push(Frame::Under(Within::Items(0), nodes))?;
            Ok(None)
        }
    }
}

// A statement with these nodes has ended, and with it all that ends where no `else` follows.
pub(crate) fn close(
    source: &Source,
    reader: &mut Reader,
    nodes: Vec<Stmt>,
) -> Result<(), AllocError>
    ensures { OnOk result (pending_of reader.new
        ≡ close (line_at source.now.text.now) (state_of reader.old.context) (statements_of nodes.items) (frames_of reader.old.frames)) }
{
    let mut left = nodes;
    loop {
        match close_one(source, reader, left)? {
            Some(more) => left = more,
            None => return Ok(()),
        }
    }
}

// One step of `attach`.
fn attach_one(
    source: &Source,
    reader: &mut Reader,
    nodes: Vec<Stmt>,
) -> Result<Option<Vec<Stmt>>, AllocError>
    ensures { IfOk result (GoesOn (attach (line_at source.now.text.now)) (pending_of reader.old) (statements_of nodes.items)
        (pending_of reader.new)) }
{
    match reader.frames.pop() {
        Some(Frame::Under(within, before)) => {
            let all = followed(before, nodes)?;
            match within {
                Within::Items(_) => Ok(None),
                Within::Body(_) => Ok(None),
                Within::Branch(cond, at) => {
                    let within = Within::Other {
                        cond,
                        first: Block::new(all),
                        place: at,
                    };
                    reader
                        .frames
                        .push(Frame::Under(within, Vec::new(source.alloc)))?;
                    Ok(None)
                }
                Within::Other {
                    cond,
                    first,
                    place: at,
                } => {
                    Ok(Some(wrapped(
                        source,
                        Within::Other {
                            cond,
                            first,
                            place: at,
                        },
                        all,
                    )?))
                }
                Within::Loop(cond, at) => {
                    Ok(Some(wrapped(source, Within::Loop(cond, at), all)?))
                }
                Within::For {
                    known,
                    place: at,
                    before: first,
                    cond,
                    change,
                } => {
                    reader.context.close(known);
                    let within = Within::For {
                        known,
                        place: at,
                        before: first,
                        cond,
                        change,
                    };
                    Ok(Some(wrapped(source, within, all)?))
                }
            }
        }
        _ => Ok(None),
    }
}

// A statement with these nodes has ended, and an `else` follows: it belongs to the nearest `if` that has none.
pub(crate) fn attach(
    source: &Source,
    reader: &mut Reader,
    nodes: Vec<Stmt>,
) -> Result<(), AllocError>
    ensures { OnOk result (pending_of reader.new
        ≡ attach (line_at source.now.text.now) (state_of reader.old.context) (statements_of nodes.items) (frames_of reader.old.frames)) }
{
    let mut left = nodes;
    loop {
        match attach_one(source, reader, left)? {
            Some(more) => left = more,
            None => return Ok(()),
        }
    }
}

// The end of items.
pub(crate) fn items_end(reader: &mut Reader) -> Result<Mode, AllocError>
    ensures { IfOk result (λ m. items_end (state_of reader.old.context) (frames_of reader.old.frames) ≡ machine_of reader.new m) }
{
    match reader.frames.pop() {
        Some(Frame::Under(Within::Items(known), nodes)) => {
            reader.context.close(known);
            Ok(Mode::After(nodes))
        }
        Some(other) => {
            reader.frames.push(other)?;
            Ok(Mode::Stands)
        }
        None => Ok(Mode::Stands),
    }
}

// A `while` behind a statement: the end of a `do`, or a loop.
pub(crate) fn while_behind(reader: &mut Reader, place: u32) -> Result<Mode, AllocError>
    ensures { IfOk result (λ m. while_behind (pending_of reader.old) place ≡ machine_of reader.new m) }
{
    match reader.frames.pop() {
        Some(Frame::Under(Within::Body(from), nodes)) => {
            Ok(Mode::Opens(Test::Do(Block::new(nodes)), from))
        }
        Some(other) => {
            reader.frames.push(other)?;
            Ok(Mode::Opens(Test::While, place))
        }
        None => Ok(Mode::Opens(Test::While, place)),
    }
}

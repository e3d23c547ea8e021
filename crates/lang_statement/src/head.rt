//! The heads of `main`, of `for` and of declarations, and the rest of `return`.
#![tactic(auto, using(lang_meaning::proofs::results::Binds::then_ok, lang_meaning::proofs::results::Binds::then_err))]

ghost use Rattle.std.specs.Prelude.{◌≡◌, IfOk};
ghost use Rattle.lang_tokens.specs.Lines.{line_at};
ghost use Rattle.lang_meaning.specs.Feed.{a_declarator, in_heading, in_return, in_first, in_last};
ghost use Rattle.lang_meaning.specs.Gives.{Gives};
ghost use Rattle.lang_reader.specs.Frames.{frames_of};
ghost use Rattle.lang_reader.specs.Modes.{lexeme_kind, mode_of, machine_of};
ghost use Rattle.lang_reader.specs.Views.{state_of};

use crate::beginning::begun;
use crate::ending::items_end;
use crate::next::Next;
use lang_grammar::Symbol;
use lang_reader::{Frame, Frames, Lexeme, Mode, Reader, Source, Within};
use std::alloc::{AllocError, Global};

/// The head of `main`, up to its `{`.
pub fn in_heading(alloc: Global, frames: &mut Frames, lexeme: Lexeme) -> Result<Mode, AllocError>
    ensures { IfOk result (λ m. in_heading (frames_of frames.old) (lexeme_kind lexeme) ≡ (frames_of frames.new, mode_of m)) }
{
    match lexeme {
        Lexeme::Plain(Symbol::LeftBrace) => {
            frames.push(Frame::Under(Within::Items(0), Vec::new(alloc)))?;
            Ok(Mode::Stands)
        }
        _ => Ok(Mode::Heading),
    }
}

/// The rest of `return`, up to the `}` of `main`.
pub fn in_return(reader: &mut Reader, lexeme: Lexeme) -> Result<Mode, AllocError>
    ensures { IfOk result (λ m. in_return (state_of reader.old.context)
        (frames_of reader.old.frames) (lexeme_kind lexeme) ≡ machine_of reader.new m) }
{
    match lexeme {
        Lexeme::Plain(Symbol::RightBrace) => items_end(reader),
        _ => Ok(Mode::Returning),
    }
}

/// The name that a declarator begins with.
pub fn a_declarator(lexeme: Lexeme, place: u32) -> Mode
    ensures { mode_of result ≡ a_declarator (lexeme_kind lexeme) place }
{
    match lexeme {
        Lexeme::Name(name) => Mode::Declared(name, place),
        _ => Mode::Declares,
    }
}

/// The first part of the head of a `for`.
pub fn in_first(source: &Source, reader: &mut Reader, lexeme: Lexeme, place: u32) -> Next
    ensures { Gives (machine_of reader.new) result
        (in_first (line_at source.now.text.now) source.now.width (state_of reader.old.context)
        (frames_of reader.old.frames) (lexeme_kind lexeme) place) }
{
    match lexeme {
        Lexeme::Plain(Symbol::Semicolon) => Ok(Mode::TestPart),
        other => begun(source, reader, other, place),
    }
}

/// Its change.
pub fn in_last(source: &Source, reader: &mut Reader, lexeme: Lexeme, place: u32) -> Next
    ensures { Gives (machine_of reader.new) result
        (in_last (line_at source.now.text.now) source.now.width (state_of reader.old.context)
        (frames_of reader.old.frames) (lexeme_kind lexeme) place) }
{
    match lexeme {
        Lexeme::Plain(Symbol::RightParen) => {
            Ok(reader.settled(source.alloc, Vec::new(source.alloc))?)
        }
        other => begun(source, reader, other, place),
    }
}

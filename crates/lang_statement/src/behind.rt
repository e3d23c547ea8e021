//! What follows a name, a `++`, a statement or a declarator.
#![tactic(auto, using(lang_meaning::proofs::results::Binds::then_ok, lang_meaning::proofs::results::Binds::then_err))]

ghost use Rattle.std.specs.Prelude.{◌≡◌};
ghost use Rattle.lang_grammar.specs.Symbols.{direction_of};
ghost use Rattle.lang_tokens.specs.Lines.{line_at};
ghost use Rattle.lang_tree.specs.View.{statements_of};
ghost use Rattle.lang_meaning.specs.Feed.{behind_name, behind_step, is_else, behind_closed, behind_statement, behind_declarator};
ghost use Rattle.lang_meaning.specs.Gives.{Gives};
ghost use Rattle.lang_reader.specs.Frames.{frames_of};
ghost use Rattle.lang_reader.specs.Modes.{lexeme_kind, machine_of, pending_of};
ghost use Rattle.lang_reader.specs.Views.{state_of};

use crate::beginning::begun;
use crate::ending::{attach, close, while_behind};
use crate::jumps::step_node;
use crate::next::Next;
use lang_grammar::{Direction, Symbol};
use lang_reader::{Frame, Lexeme, Mode, Reader, Source};
use lang_tokens::line_of;
use lang_tree::{Name, Stmt};

/// What follows a name at the beginning of the statement at `from`.
pub fn behind_name(
    source: &Source,
    reader: &mut Reader,
    name: Name,
    from: u32,
    lexeme: Lexeme,
    place: u32,
) -> Next
    ensures { Gives (machine_of reader.new) result
        (behind_name (line_at source.now.text.now) source.now.width (state_of reader.old.context)
        (frames_of reader.old.frames) name from (lexeme_kind lexeme) place) }
{
    match lexeme {
        Lexeme::Plain(Symbol::Colon) => {
            reader.context.labelled(&name, from)?;
            let line = line_of(source.text, from);
            reader.frames.add(source.alloc, Stmt::Label { name, line })?;
            Ok(Mode::Stands)
        }
        Lexeme::Plain(Symbol::Change(change)) => {
            let var = reader.context.known_number(&name, from)?;
            reader.context.counted(from)?;
            reader.frames.push(Frame::Assigns {
                var,
                change,
                sign: place,
                place: from,
            })?;
            Ok(Mode::Wants)
        }
        Lexeme::Plain(Symbol::Step(direction)) => {
            let var = reader.context.known_number(&name, from)?;
            reader.context.counted(from)?;
            Ok(Mode::Ends(step_node(source, direction, var, from)?))
        }
        _ => Ok(Mode::Stands),
    }
}

/// The name behind the `++` or `--` at `from`.
pub fn behind_step(
    source: &Source,
    reader: &mut Reader,
    direction: Direction,
    from: u32,
    lexeme: Lexeme,
    place: u32,
) -> Next
    ensures { Gives (machine_of reader.new) result
        (behind_step (line_at source.now.text.now) source.now.width (state_of reader.old.context)
        (frames_of reader.old.frames) (direction_of direction) from (lexeme_kind lexeme) place) }
{
    match lexeme {
        Lexeme::Name(name) => {
            let var = reader.context.known_number(&name, place)?;
            Ok(Mode::Ends(step_node(source, direction, var, from)?))
        }
        _ => Ok(Mode::Stands),
    }
}

// The first token behind a statement, where it is no `else`.
fn behind_closed(source: &Source, reader: &mut Reader, lexeme: Lexeme, place: u32) -> Next
    ensures { Gives (machine_of reader.new) result
        (behind_closed (line_at source.now.text.now) source.now.width (pending_of reader.old) (lexeme_kind lexeme) place) }
{
    match lexeme {
        Lexeme::Plain(Symbol::While) => Ok(while_behind(reader, place)?),
        other => begun(source, reader, other, place),
    }
}

fn is_else(lexeme: &Lexeme) -> bool
    ensures { result ≡ is_else (lexeme_kind lexeme.now) }
{
    matches!(lexeme, Lexeme::Plain(Symbol::Else))
}

/// What follows a statement with these nodes.
pub fn behind_statement(
    source: &Source,
    reader: &mut Reader,
    nodes: Vec<Stmt>,
    lexeme: Lexeme,
    place: u32,
) -> Next
    ensures { Gives (machine_of reader.new) result
        (behind_statement (line_at source.now.text.now) source.now.width (state_of reader.old.context)
        (frames_of reader.old.frames) (statements_of nodes.items) (lexeme_kind lexeme) place) }
{
    if is_else(&lexeme) {
        attach(source, reader, nodes)?;
        Ok(Mode::Stands)
    } else {
        close(source, reader, nodes)?;
        behind_closed(source, reader, lexeme, place)
    }
}

/// What follows the name of a declarator at `from`.
pub fn behind_declarator(
    source: &Source,
    reader: &mut Reader,
    name: Name,
    from: u32,
    lexeme: Lexeme,
    place: u32,
) -> Next
    ensures { Gives (machine_of reader.new) result
        (behind_declarator (line_at source.now.text.now) source.now.width (state_of reader.old.context)
        (frames_of reader.old.frames) name from (lexeme_kind lexeme) place) }
{
    match lexeme {
        Lexeme::Plain(Symbol::Change(_)) => {
            reader.frames.push(Frame::Initial {
                name,
                place: from,
                sign: place,
            })?;
            Ok(Mode::Wants)
        }
        Lexeme::Plain(Symbol::Comma) => {
            reader.declared(source, &name, from, None, Mode::Declares)
        }
        Lexeme::Plain(Symbol::Semicolon) => {
            let next = reader.frames.next_mode();
            reader.declared(source, &name, from, None, next)
        }
        _ => Ok(Mode::Stands),
    }
}

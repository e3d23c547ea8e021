//! One token in each mode.
#![tactic(auto, using(lang_meaning::proofs::results::Binds::then_ok, lang_meaning::proofs::results::Binds::then_err))]

ghost use Rattle.lang_tokens.specs.Lines.{line_at};
ghost use Rattle.lang_meaning.specs.Feed.{in_test, in_mode};
ghost use Rattle.lang_meaning.specs.Gives.{Gives};
ghost use Rattle.lang_reader.specs.Frames.{frames_of};
ghost use Rattle.lang_reader.specs.Modes.{lexeme_kind, mode_of, machine_of};
ghost use Rattle.lang_reader.specs.Views.{state_of};

use lang_expression::{behind_value, wanted};
use lang_grammar::Symbol;
use lang_meaning::ParseFault;
use lang_reader::{Frame, Lexeme, Mode, Reader, Source, Value, always};
use lang_statement::{
    a_declarator, begun, behind_declarator, behind_name, behind_statement, behind_step, in_first,
    in_heading, in_last, in_return,
};

// The condition of a `for`.
fn in_test(
    source: &Source,
    reader: &mut Reader,
    lexeme: Lexeme,
    place: u32,
) -> Result<Mode, ParseFault>
    ensures { Gives (machine_of reader.new) result
        (in_test (line_at source.now.text.now) source.now.width (state_of reader.old.context)
        (frames_of reader.old.frames) (lexeme_kind lexeme) place) }
{
    match lexeme {
        Lexeme::Plain(Symbol::Semicolon) => {
            let cond = always(source.alloc, source.width)?;
            reader.headed(cond)
        }
        other => wanted(source, reader, other, place),
    }
}

/// The next token, in a mode.
pub(crate) fn in_mode(
    source: &Source,
    reader: &mut Reader,
    mode: Mode,
    lexeme: Lexeme,
    place: u32,
) -> Result<Mode, ParseFault>
    ensures { Gives (machine_of reader.new) result
        (in_mode (line_at source.now.text.now) source.now.width (mode_of mode) (state_of reader.old.context)
        (frames_of reader.old.frames) (lexeme_kind lexeme) place) }
{
    match mode {
        Mode::Heading => Ok(in_heading(source.alloc, &mut reader.frames, lexeme)?),
        Mode::Stands => begun(source, reader, lexeme, place),
        Mode::Named(name, from) => behind_name(source, reader, name, from, lexeme, place),
        Mode::Wants => wanted(source, reader, lexeme, place),
        Mode::Has(value) => behind_value(source, reader, value, lexeme, place),
        Mode::Calls(from) => Ok(Mode::Closes(from)),
        Mode::Closes(from) => {
            let value = Value::Nondet(from);
            Ok(Mode::Has(reader.frames.complete(source.alloc, value)?))
        }
        Mode::Opens(test, from) => {
            reader.frames.push(Frame::Test(test, from))?;
            Ok(Mode::Wants)
        }
        Mode::Stepping(direction, from) => {
            behind_step(source, reader, direction, from, lexeme, place)
        }
        Mode::Heads(from) => {
            let known = reader.context.known_count();
            reader.frames.push(Frame::Header {
                known,
                place: from,
                before: Vec::new(source.alloc),
            })?;
            Ok(Mode::FirstPart)
        }
        Mode::FirstPart => in_first(source, reader, lexeme, place),
        Mode::TestPart => in_test(source, reader, lexeme, place),
        Mode::LastPart => in_last(source, reader, lexeme, place),
        Mode::Ends(nodes) => Ok(reader.settled(source.alloc, nodes)?),
        Mode::After(nodes) => behind_statement(source, reader, nodes, lexeme, place),
        Mode::Declares => Ok(a_declarator(lexeme, place)),
        Mode::Declared(name, from) => behind_declarator(source, reader, name, from, lexeme, place),
        Mode::Returning => Ok(in_return(reader, lexeme)?),
    }
}

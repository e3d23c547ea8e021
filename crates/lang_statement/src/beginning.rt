//! How statements begin.
#![tactic(auto, using(lang_meaning::proofs::results::Binds::then_ok, lang_meaning::proofs::results::Binds::then_err))]

ghost use Rattle.lang_grammar.specs.Symbols.{symbol_kind};
ghost use Rattle.lang_tokens.specs.Lines.{line_at};
ghost use Rattle.lang_meaning.specs.Feed.{begun};
ghost use Rattle.lang_meaning.specs.Gives.{Gives};
ghost use Rattle.lang_reader.specs.Frames.{frames_of};
ghost use Rattle.lang_reader.specs.Modes.{unnamed, lexeme_kind, machine_of};
ghost use Rattle.lang_reader.specs.Views.{state_of};

use crate::ending::items_end;
use crate::jumps::jump_node;
use crate::next::Next;
use lang_grammar::Symbol;
use lang_reader::{Frame, Lexeme, Mode, Reader, Source, Test, Within, one};
use lang_tokens::line_of;

/// The first token of a statement, or what follows items.
pub fn begun(source: &Source, reader: &mut Reader, lexeme: Lexeme, place: u32) -> Next
    ensures { Gives (machine_of reader.new) result
        (begun (line_at source.now.text.now) source.now.width (state_of reader.old.context)
        (frames_of reader.old.frames) (lexeme_kind lexeme) place) }
{
    match lexeme {
        Lexeme::Name(name) => Ok(Mode::Named(name, place)),
        Lexeme::Number(_) => Ok(Mode::Stands),
        Lexeme::Plain(symbol) => opened(source, reader, symbol, place),
    }
}

// The same for a token that is no name.
fn opened(source: &Source, reader: &mut Reader, symbol: Symbol, place: u32) -> Next
    ensures { Gives (machine_of reader.new) result
        (begun (line_at source.now.text.now) source.now.width (state_of reader.old.context)
        (frames_of reader.old.frames) (unnamed (symbol_kind symbol)) place) }
{
    match symbol {
        Symbol::Semicolon => Ok(Mode::After(Vec::new(source.alloc))),
        Symbol::LeftBrace => {
            let within = Within::Items(reader.context.known_count());
            reader
                .frames
                .push(Frame::Under(within, Vec::new(source.alloc)))?;
            Ok(Mode::Stands)
        }
        Symbol::RightBrace => Ok(items_end(reader)?),
        Symbol::Int => Ok(Mode::Declares),
        Symbol::Return => Ok(Mode::Returning),
        Symbol::If => Ok(Mode::Opens(Test::If, place)),
        Symbol::While => Ok(Mode::Opens(Test::While, place)),
        Symbol::Do => {
            reader.context.counted(place)?;
            let within = Within::Body(place);
            reader
                .frames
                .push(Frame::Under(within, Vec::new(source.alloc)))?;
            Ok(Mode::Stands)
        }
        Symbol::For => Ok(Mode::Heads(place)),
        Symbol::Jump(jump) => {
            let inside = reader.frames.is_inside();
            reader.context.jumped(inside, place)?;
            let node = jump_node(jump, line_of(source.text, place));
            Ok(Mode::Ends(one(source.alloc, node)?))
        }
        Symbol::Demand(demand) => {
            reader.context.counted_for(demand, place)?;
            Ok(Mode::Opens(Test::Demand(demand), place))
        }
        Symbol::Step(direction) => {
            reader.context.counted(place)?;
            Ok(Mode::Stepping(direction, place))
        }
        _ => Ok(Mode::Stands),
    }
}

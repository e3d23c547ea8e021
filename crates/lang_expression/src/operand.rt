//! Where an operand has to stand.
#![tactic(auto, using(lang_meaning::proofs::results::Binds::then_ok, lang_meaning::proofs::results::Binds::then_err))]

ghost use Rattle.std.specs.Prelude.{◌≡◌, IfOk};
ghost use Rattle.lang_grammar.specs.Symbols.{symbol_kind};
ghost use Rattle.lang_tokens.specs.Lines.{line_at};
ghost use Rattle.lang_meaning.specs.Feed.{signed, wanted};
ghost use Rattle.lang_meaning.specs.Gives.{Gives};
ghost use Rattle.lang_reader.specs.Frames.{frames_of};
ghost use Rattle.lang_reader.specs.Modes.{unnamed, lexeme_kind, mode_of, machine_of};
ghost use Rattle.lang_reader.specs.Views.{state_of};

use lang_grammar::{Op, Symbol};
use lang_meaning::ParseFault;
use lang_reader::{
    Before, Frame, Frames, Lexeme, Mode, Reader, Source, Value, constant_form, literal,
    variable_form,
};
use std::alloc::AllocError;

// A sign, a parenthesis or `nondet` where an operand has to stand.
fn signed(frames: &mut Frames, symbol: Symbol, place: u32) -> Result<Mode, AllocError>
    ensures { IfOk result (λ m. signed (frames_of frames.old) (unnamed (symbol_kind symbol)) place ≡ (frames_of frames.new, mode_of m)) }
{
    match symbol {
        Symbol::Infix(Op::Plus) => frames.push(Frame::Before(Before::Plus, place))?,
        Symbol::Infix(Op::Minus) => frames.push(Frame::Before(Before::Minus, place))?,
        Symbol::Bang => frames.push(Frame::Before(Before::Not, place))?,
        Symbol::LeftParen => frames.push(Frame::Group(place))?,
        Symbol::Nondet => return Ok(Mode::Calls(place)),
        _ => {}
    }
    Ok(Mode::Wants)
}

/// A token where an operand has to stand.
pub fn wanted(
    source: &Source,
    reader: &mut Reader,
    lexeme: Lexeme,
    place: u32,
) -> Result<Mode, ParseFault>
    ensures { Gives (machine_of reader.new) result
        (wanted (line_at source.now.text.now) source.now.width (state_of reader.old.context)
        (frames_of reader.old.frames) (lexeme_kind lexeme) place) }
{
    let form = match lexeme {
        Lexeme::Name(name) => {
            let var = reader.context.known_number(&name, place)?;
            variable_form(source.alloc, source.width, var, 0)?
        }
        Lexeme::Number(number) => {
            constant_form(source.alloc, place, source.width, literal(number))?
        }
        Lexeme::Plain(symbol) => return Ok(signed(&mut reader.frames, symbol, place)?),
    };
    let value = Value::Form(form, place);
    Ok(Mode::Has(reader.frames.complete(source.alloc, value)?))
}

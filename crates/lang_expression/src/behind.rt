//! What follows a value, and what comes of an expression that ends.
#![tactic(auto, using(lang_meaning::proofs::results::Binds::then_ok, lang_meaning::proofs::results::Binds::then_err))]

ghost use Rattle.lang_grammar.specs.Symbols.{change_of};
ghost use Rattle.lang_tokens.specs.Lines.{line_at};
ghost use Rattle.lang_tree.specs.View.{condition_of};
ghost use Rattle.lang_meaning.specs.Walk.{assigned};
ghost use Rattle.lang_meaning.specs.Feed.{decided, after_paren, after_semicolon, after_comma, followed};
ghost use Rattle.lang_meaning.specs.Gives.{Gives};
ghost use Rattle.lang_expression.specs.Sides.{assigned_then};
ghost use Rattle.lang_reader.specs.Frames.{test_of, frames_of};
ghost use Rattle.lang_reader.specs.Modes.{lexeme_kind, machine_of};
ghost use Rattle.lang_reader.specs.Values.{value_of};
ghost use Rattle.lang_reader.specs.Views.{state_of};

use crate::demands::demanded;
use crate::sides::{assigned, right_side};
use lang_grammar::{Change, Symbol};
use lang_meaning::ParseFault;
use lang_reader::{
    Frame, Lexeme, Mode, Reader, Source, Test, Value, Within, assignment, level, one, regarded,
    tested,
};
use lang_tokens::line_of;
use lang_tree::{Cond, Deeds, Stmt};

// The condition of the statement at `place` is there.
fn decided(
    source: &Source,
    reader: &mut Reader,
    test: Test,
    place: u32,
    cond: Cond,
) -> Result<Mode, ParseFault>
    ensures { Gives (machine_of reader.new) result
        (decided (line_at source.now.text.now) source.now.width (test_of test) place (state_of reader.old.context)
        (frames_of reader.old.frames) (condition_of cond)) }
{
    match test {
        Test::If => reader.opened(source.alloc, Within::Branch(cond, place), place),
        Test::While => reader.opened(source.alloc, Within::Loop(cond, place), place),
        Test::Do(body) => {
            let line = line_of(source.text, place);
            let prelude = Deeds::none(source.alloc);
            let looped = Stmt::Do {
                prelude,
                cond,
                body,
                line,
            };
            Ok(Mode::Ends(one(source.alloc, looped)?))
        }
        Test::Demand(demand) => Ok(Mode::Ends(demanded(source, demand, place, cond)?)),
    }
}

// An assignment that begins at `place`: its variable, and its sign with the sign's place.
#[derive(Clone, Copy)]
struct Assigning {
    var: u32,
    change: Change,
    sign: u32,
    place: u32,
}

// The right side of the assignment ends.
fn assigns(
    source: &Source,
    reader: &mut Reader,
    begun: Assigning,
    value: Value,
) -> Result<Mode, ParseFault>
    ensures { Gives (machine_of reader.new) result
        (assigned_then (line_at source.now.text.now begun.place)
        (assigned source.now.width (change_of begun.change) begun.var begun.sign (value_of value))
        begun.var (state_of reader.old.context) (frames_of reader.old.frames)) }
{
    let form = assigned(source, begun.change, begun.var, begun.sign, value)?;
    let stmt = assignment(begun.var, form, line_of(source.text, begun.place));
    let nodes = one(source.alloc, stmt)?;
    Ok(reader.settled(source.alloc, nodes)?)
}

// The value in the parenthesis that ends here, the condition, or the right side of a `for`'s change.
fn after_paren(source: &Source, reader: &mut Reader, value: Value) -> Result<Mode, ParseFault>
    ensures { Gives (machine_of reader.new) result
        (after_paren (line_at source.now.text.now) source.now.width (state_of reader.old.context)
        (frames_of reader.old.frames, value_of value)) }
{
    match reader.frames.pop() {
        Some(Frame::Group(place)) => {
            let whole = regarded(place, value);
            Ok(Mode::Has(reader.frames.complete(source.alloc, whole)?))
        }
        Some(Frame::Test(test, place)) => {
            let cond = tested(place, value)?;
            decided(source, reader, test, place, cond)
        }
        Some(
            Frame::Assigns {
                var,
                change,
                sign,
                place,
            },
        ) => {
            let begun = Assigning {
                var,
                change,
                sign,
                place,
            };
            assigns(source, reader, begun, value)
        }
        Some(other) => {
            reader.frames.push(other)?;
            Ok(Mode::Has(value))
        }
        None => Ok(Mode::Has(value)),
    }
}

// The right side of an assignment, the last initialiser of a declaration or the condition of a
// `for`, which ends here.
fn after_semicolon(source: &Source, reader: &mut Reader, value: Value) -> Result<Mode, ParseFault>
    ensures { Gives (machine_of reader.new) result
        (after_semicolon (line_at source.now.text.now) source.now.width (state_of reader.old.context)
        (frames_of reader.old.frames, value_of value)) }
{
    match reader.frames.pop() {
        Some(
            Frame::Assigns {
                var,
                change,
                sign,
                place,
            },
        ) => {
            let begun = Assigning {
                var,
                change,
                sign,
                place,
            };
            assigns(source, reader, begun, value)
        }
        Some(Frame::Initial { name, place, sign }) => {
            let form = right_side(sign, value)?;
            let next = reader.frames.next_mode();
            reader.declared(source, &name, place, form, next)
        }
        Some(
            Frame::Header {
                known,
                place,
                before: nodes,
            },
        ) => {
            let cond = tested(place, value)?;
            reader.frames.push(Frame::Header {
                known,
                place,
                before: nodes,
            })?;
            reader.headed(cond)
        }
        Some(other) => {
            reader.frames.push(other)?;
            Ok(Mode::Has(value))
        }
        None => Ok(Mode::Has(value)),
    }
}

// An initialiser before a further declarator.
fn after_comma(source: &Source, reader: &mut Reader, value: Value) -> Result<Mode, ParseFault>
    ensures { Gives (machine_of reader.new) result
        (after_comma (line_at source.now.text.now) source.now.width (state_of reader.old.context)
        (frames_of reader.old.frames, value_of value)) }
{
    match reader.frames.pop() {
        Some(Frame::Initial { name, place, sign }) => {
            let form = right_side(sign, value)?;
            reader.declared(source, &name, place, form, Mode::Declares)
        }
        Some(other) => {
            reader.frames.push(other)?;
            Ok(Mode::Has(value))
        }
        None => Ok(Mode::Has(value)),
    }
}

/// A token behind a value.
pub fn behind_value(
    source: &Source,
    reader: &mut Reader,
    value: Value,
    lexeme: Lexeme,
    place: u32,
) -> Result<Mode, ParseFault>
    ensures { Gives (machine_of reader.new) result
        (followed (line_at source.now.text.now) source.now.width (state_of reader.old.context)
        (frames_of reader.old.frames) (value_of value) (lexeme_kind lexeme) place) }
{
    match lexeme {
        Lexeme::Plain(Symbol::Infix(op)) => {
            let left = reader.frames.join_tighter(source.alloc, level(op), value)?;
            reader.frames.push(Frame::Side { left, op, place })?;
            Ok(Mode::Wants)
        }
        Lexeme::Plain(Symbol::RightParen) => {
            let whole = reader.frames.join_tighter(source.alloc, 0, value)?;
            after_paren(source, reader, whole)
        }
        Lexeme::Plain(Symbol::Semicolon) => {
            let whole = reader.frames.join_tighter(source.alloc, 0, value)?;
            after_semicolon(source, reader, whole)
        }
        Lexeme::Plain(Symbol::Comma) => {
            let whole = reader.frames.join_tighter(source.alloc, 0, value)?;
            after_comma(source, reader, whole)
        }
        _ => Ok(Mode::Has(value)),
    }
}

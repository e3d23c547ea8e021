//! What may come next where statements are read.

ghost use Rattle.std.specs.Prelude.{◌≡◌};
ghost use Rattle.source_grammar.specs.Symbols.{symbol_kind};
ghost use Rattle.source_reader.specs.Reading.{behind_first, first_kind};
ghost use Rattle.source_statement.specs.Starts.{begins_label, closes, is_closing, is_const, is_label, start_in, start_of};

use source_grammar::{Demand, Jump, Op, Symbol};
use source_reader::Reader;

// What comes next, as far as statements ask.
#[derive(Clone, Copy)]
pub(crate) enum Start {
    Block,
    If,
    While,
    Do,
    For,
    Jump(Jump),
    Return,
    Demand(Demand),
    Semicolon,
    Name,
    Step,
    Type,
    Star,
    Bracket,
    Void,
    Else,
    Colon,
    Paren,
    Comma,
    Closing,
    Storage,
    Other,
}

fn start_in(symbol: Symbol) -> Start
    ensures { start_of result ≡ start_in (symbol_kind symbol) }
{
    match symbol {
        Symbol::LeftBrace => Start::Block,
        Symbol::If => Start::If,
        Symbol::While => Start::While,
        Symbol::Do => Start::Do,
        Symbol::For => Start::For,
        Symbol::Jump(jump) => Start::Jump(jump),
        Symbol::Return => Start::Return,
        Symbol::Demand(demand) => Start::Demand(demand),
        Symbol::Semicolon => Start::Semicolon,
        Symbol::Name => Start::Name,
        Symbol::Step(_) => Start::Step,
        Symbol::Int | Symbol::Const => Start::Type,
        Symbol::Infix(Op::Times) => Start::Star,
        Symbol::LeftBracket => Start::Bracket,
        Symbol::Void => Start::Void,
        Symbol::Else => Start::Else,
        Symbol::Colon => Start::Colon,
        Symbol::LeftParen => Start::Paren,
        Symbol::Comma => Start::Comma,
        Symbol::RightBrace => Start::Closing,
        Symbol::Storage => Start::Storage,
        _ => Start::Other,
    }
}

// What comes next.
pub(crate) fn coming(reader: &Reader) -> Start
    ensures { start_of result ≡ start_in (first_kind reader.now.ahead) }
{
    start_in(reader.symbol())
}

// What comes behind that.
pub(crate) fn behind(reader: &Reader) -> Start
    ensures { start_of result ≡ start_in (first_kind (behind_first reader.now.ahead)) }
{
    start_in(reader.second())
}

fn is_label(first: Start, second: Start) -> bool
    ensures { result ≡ is_label (start_of first) (start_of second) }
{
    match first {
        Start::Name => matches!(second, Start::Colon),
        _ => false,
    }
}

// Whether a label comes next: a name with a colon behind it.
pub(crate) fn has_label(reader: &Reader) -> bool
    ensures { result ≡ begins_label reader.now.ahead }
{
    is_label(coming(reader), behind(reader))
}

// Whether a `}` comes next.
pub(crate) fn is_closing(reader: &Reader) -> bool
    ensures { result ≡ is_closing (start_in (first_kind reader.now.ahead)) }
{
    matches!(coming(reader), Start::Closing)
}

fn is_const(symbol: Symbol) -> bool
    ensures { result ≡ is_const (symbol_kind symbol) }
{
    matches!(symbol, Symbol::Const)
}

// Whether `const` comes next.
pub(crate) fn has_const(reader: &Reader) -> bool
    ensures { result ≡ is_const (first_kind reader.now.ahead) }
{
    is_const(reader.symbol())
}

fn closes(symbol: Symbol) -> bool
    ensures { result ≡ closes (symbol_kind symbol) }
{
    matches!(symbol, Symbol::RightBracket)
}

// Whether the brackets that come next, if some do, are empty: a `]` comes behind what comes next.
pub(crate) fn is_empty(reader: &Reader) -> bool
    ensures { result ≡ closes (first_kind (behind_first reader.now.ahead)) }
{
    closes(reader.second())
}

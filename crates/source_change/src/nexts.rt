//! What may come next where changes and declarations are read.

ghost use Rattle.std.specs.Prelude.{◌≡◌};
ghost use Rattle.std.specs.Option.{option_map};
ghost use Rattle.source_grammar.specs.Symbols.{direction_of, symbol_kind};
ghost use Rattle.source_reader.specs.Reading.{behind_first, first_kind};
ghost use Rattle.source_change.specs.Nexts.{begins_change, is_assignment, is_bracket, is_comma, next_in, next_of, step_in};

use source_grammar::{Change, Direction, Symbol};
use source_reader::Reader;

// What comes next, as far as changes and declarations ask.
#[derive(Clone, Copy)]
pub(crate) enum Next {
    Name,
    Step(Direction),
    Change(Change),
    Bracket,
    Comma,
    Other,
}

fn next_in(symbol: Symbol) -> Next
    ensures { next_of result ≡ next_in (symbol_kind symbol) }
{
    match symbol {
        Symbol::Name => Next::Name,
        Symbol::Step(direction) => Next::Step(direction),
        Symbol::Change(change) => Next::Change(change),
        Symbol::LeftBracket => Next::Bracket,
        Symbol::Comma => Next::Comma,
        _ => Next::Other,
    }
}

// What comes next.
pub(crate) fn coming(reader: &Reader) -> Next
    ensures { next_of result ≡ next_in (first_kind reader.now.ahead) }
{
    next_in(reader.symbol())
}

// What comes behind that.
pub(crate) fn behind(reader: &Reader) -> Next
    ensures { next_of result ≡ next_in (first_kind (behind_first reader.now.ahead)) }
{
    next_in(reader.second())
}

// Whether a comma comes next.
pub(crate) fn has_comma(reader: &Reader) -> bool
    ensures { result ≡ is_comma (first_kind reader.now.ahead) }
{
    matches!(coming(reader), Next::Comma)
}

// Whether a `[` comes next.
pub(crate) fn has_bracket(reader: &Reader) -> bool
    ensures { result ≡ is_bracket (first_kind reader.now.ahead) }
{
    matches!(coming(reader), Next::Bracket)
}

// Whether the sign of an assignment comes next.
pub(crate) fn has_assignment(reader: &Reader) -> bool
    ensures { result ≡ is_assignment (first_kind reader.now.ahead) }
{
    matches!(coming(reader), Next::Change(_))
}

fn step_in(symbol: Symbol) -> Option<Direction>
    ensures { option_map direction_of result ≡ step_in (symbol_kind symbol) }
{
    match symbol {
        Symbol::Step(direction) => Some(direction),
        _ => None,
    }
}

// The `++` or `--` that comes next, if one does.
pub(crate) fn step(reader: &Reader) -> Option<Direction>
    ensures { option_map direction_of result ≡ step_in (first_kind reader.now.ahead) }
{
    step_in(reader.symbol())
}

fn begins_change(symbol: Symbol) -> bool
    ensures { result ≡ begins_change (symbol_kind symbol) }
{
    matches!(symbol, Symbol::Name | Symbol::Step(_))
}

// Whether a change comes next.
pub(crate) fn has_change(reader: &Reader) -> bool
    ensures { result ≡ begins_change (first_kind reader.now.ahead) }
{
    begins_change(reader.symbol())
}

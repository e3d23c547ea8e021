//! Which token may stand where: a machine that goes from place to place.

ghost use Rattle.std.specs.Prelude.{◌≡◌, MatchOption};
ghost use Rattle.flow_rationals.specs.Places.{within_next, part_next, factor_next, factor_end_next, constant_below_next, number_next};
ghost use Rattle.flow_rationals.specs.Places.{name_next, start_next};
ghost use Rattle.flow_rationals.specs.Places.{alternatives_next, start_below_next, alternative_next, name_or_end_next, only_next, next};
ghost use Rattle.flow_rationals.specs.Places.{GoesThrough, RefusedAt};

use crate::reading::symbol::Symbol;

/// Whether a sum is an alternative by itself, or one of a minimum.
#[derive(Clone, Copy)]
pub enum Within {
    Alone,
    Minimum,
}

/// A place in a text of equations, by what may come next.
#[derive(Clone, Copy)]
pub enum Place {
    /// The name of the first equation.
    First,
    /// The name of an equation, or the end.
    Name,
    Equal,
    Max,
    /// `(` after `max`
    Opening,
    /// The start, maybe with a `-`.
    Start,
    /// The number after the start's `-`.
    StartNumber,
    /// `:`, or what may follow the start.
    StartBelow,
    /// The number after the start's `:`.
    StartDen,
    /// `,` and an alternative, or `)`.
    Alternatives,
    /// An alternative.
    Alternative,
    /// `(` after `min`
    MinOpening,
    /// A part of a sum.
    Part(Within),
    /// `:`, `*`, or what may follow a part.
    Factor(Within),
    /// The number after `:`, where a `*` may follow.
    FactorDen(Within),
    /// `*`, or what may follow a part.
    FactorEnd(Within),
    /// The name after `*`.
    Times(Within),
    /// The number after a part's `-`.
    Constant(Within),
    /// `:`, or what may follow a part.
    ConstantBelow(Within),
    /// The number after this `:`.
    ConstantDen(Within),
    /// `+` and a part, or what may follow a sum.
    AfterPart(Within),
    Semicolon,
    /// Nothing more.
    Done,
}

// What follows a whole part.
fn follow(within: Within, symbol: &Symbol) -> Option<Place>
    ensures { result ≡ within_next within symbol.now }
{
    match symbol {
        Symbol::Plus => Some(Place::Part(within)),
        Symbol::Comma => match within {
            Within::Alone => Some(Place::Alternative),
            Within::Minimum => Some(Place::Part(Within::Minimum)),
        },
        Symbol::RightParen => match within {
            Within::Alone => Some(Place::Semicolon),
            Within::Minimum => Some(Place::Alternatives),
        },
        _ => None,
    }
}

// A part's first symbol.
fn part(within: Within, symbol: &Symbol) -> Option<Place>
    ensures { result ≡ part_next within symbol.now }
{
    match symbol {
        Symbol::Named { .. } => Some(Place::AfterPart(within)),
        Symbol::Number { .. } => Some(Place::Factor(within)),
        Symbol::Minus { .. } => Some(Place::Constant(within)),
        _ => None,
    }
}

// What follows a number that may be a factor: `:` only where none came yet.
fn factor(within: Within, symbol: &Symbol) -> Option<Place>
    ensures { result ≡ factor_next within symbol.now }
{
    match symbol {
        Symbol::Colon => Some(Place::FactorDen(within)),
        Symbol::Star => Some(Place::Times(within)),
        _ => follow(within, symbol),
    }
}

// What follows `number : number`, which may be a factor.
fn factor_end(within: Within, symbol: &Symbol) -> Option<Place>
    ensures { result ≡ factor_end_next within symbol.now }
{
    match symbol {
        Symbol::Star => Some(Place::Times(within)),
        _ => follow(within, symbol),
    }
}

// What follows a number that is no factor: `:` only where none came yet.
fn constant_below(within: Within, symbol: &Symbol) -> Option<Place>
    ensures { result ≡ constant_below_next within symbol.now }
{
    match symbol {
        Symbol::Colon => Some(Place::ConstantDen(within)),
        _ => follow(within, symbol),
    }
}

// A number, and then this place.
fn number(after: Place, symbol: &Symbol) -> Option<Place>
    ensures { result ≡ number_next after symbol.now }
{
    match symbol {
        Symbol::Number { .. } => Some(after),
        _ => None,
    }
}

// A name, and then this place.
fn name(after: Place, symbol: &Symbol) -> Option<Place>
    ensures { result ≡ name_next after symbol.now }
{
    match symbol {
        Symbol::Named { .. } => Some(after),
        _ => None,
    }
}

// The start, without a `-` or with it.
fn start_number(symbol: &Symbol) -> Option<Place>
    ensures { result ≡ start_next symbol.now }
{
    match symbol {
        Symbol::Minus { .. } => Some(Place::StartNumber),
        _ => number(Place::StartBelow, symbol),
    }
}

// What follows a whole start or a whole alternative.
fn alternatives(symbol: &Symbol) -> Option<Place>
    ensures { result ≡ alternatives_next symbol.now }
{
    match symbol {
        Symbol::Comma => Some(Place::Alternative),
        Symbol::RightParen => Some(Place::Semicolon),
        _ => None,
    }
}

// What follows the first number of the start.
fn start_below(symbol: &Symbol) -> Option<Place>
    ensures { result ≡ start_below_next symbol.now }
{
    match symbol {
        Symbol::Colon => Some(Place::StartDen),
        _ => alternatives(symbol),
    }
}

// An alternative's first symbol.
fn alternative(symbol: &Symbol) -> Option<Place>
    ensures { result ≡ alternative_next symbol.now }
{
    match symbol {
        Symbol::Min => Some(Place::MinOpening),
        _ => part(Within::Alone, symbol),
    }
}

// The name of an equation, or the end.
fn name_or_end(symbol: &Symbol) -> Option<Place>
    ensures { result ≡ name_or_end_next symbol.now }
{
    match symbol {
        Symbol::End => Some(Place::Done),
        _ => name(Place::Equal, symbol),
    }
}

// What a sign or a word alone leads to.
fn only(place: Place, symbol: &Symbol) -> Option<Place>
    ensures { result ≡ only_next place symbol.now }
{
    match place {
        Place::Equal => match symbol {
            Symbol::Equal => Some(Place::Max),
            _ => None,
        },
        Place::Max => match symbol {
            Symbol::Max => Some(Place::Opening),
            _ => None,
        },
        Place::Opening => match symbol {
            Symbol::LeftParen => Some(Place::Start),
            _ => None,
        },
        Place::MinOpening => match symbol {
            Symbol::LeftParen => Some(Place::Part(Within::Minimum)),
            _ => None,
        },
        Place::Semicolon => match symbol {
            Symbol::Semicolon => Some(Place::Name),
            _ => None,
        },
        _ => None,
    }
}

// The place after a symbol, if it may stand at this place.
fn next(place: Place, symbol: &Symbol) -> Option<Place>
    ensures { result ≡ next place symbol.now }
{
    match place {
        Place::First => name(Place::Equal, symbol),
        Place::Name => name_or_end(symbol),
        Place::Start => start_number(symbol),
        Place::StartNumber => number(Place::StartBelow, symbol),
        Place::StartBelow => start_below(symbol),
        Place::StartDen => number(Place::Alternatives, symbol),
        Place::Alternatives => alternatives(symbol),
        Place::Alternative => alternative(symbol),
        Place::Part(within) => part(within, symbol),
        Place::Factor(within) => factor(within, symbol),
        Place::FactorDen(within) => number(Place::FactorEnd(within), symbol),
        Place::FactorEnd(within) => factor_end(within, symbol),
        Place::Times(within) => name(Place::AfterPart(within), symbol),
        Place::Constant(within) => number(Place::ConstantBelow(within), symbol),
        Place::ConstantBelow(within) => constant_below(within, symbol),
        Place::ConstantDen(within) => number(Place::AfterPart(within), symbol),
        Place::AfterPart(within) => follow(within, symbol),
        Place::Equal
        | Place::Max
        | Place::Opening
        | Place::MinOpening
        | Place::Semicolon
        | Place::Done => only(place, symbol),
    }
}

/// How many symbols stand before the first one that may not stand where it does, if there is one.
pub(crate) fn refused(symbols: &[Symbol]) -> Option<usize>
    ensures { MatchOption result (GoesThrough symbols.now) (RefusedAt symbols.now) }
{
    let mut place = Place::First;
    for (i, symbol) in symbols.iter().enumerate() {
        match next(place, symbol) {
            Some(after) => place = after,
            None => return Some(i),
        }
    }
    None
}

//! What the head of a function makes of a token, and where one token alone may stand.

ghost use Rattle.source_grammar.specs.declared.goal.Goal.TheVariants.{Specifiers, FunctionName, Parameters, MoreParameters, SomeType};
ghost use Rattle.source_grammar.specs.declared.goal.Goal.TheVariants.{ParameterName, Bounding, MoreSizes, SomeName, SomeSize, MaybeSize};
ghost use Rattle.source_grammar.specs.declared.goal.Goal.TheVariants.{Only};
ghost use Rattle.source_grammar.specs.Goals.{goal_of, Entered};
ghost use Rattle.source_grammar.specs.Symbols.{symbol_kind};

use crate::goal::{Entry, Goal, Mark};
use crate::symbol::{Op, Symbol};

pub(crate) fn specifiers(symbol: Symbol) -> Entry
    ensures { Entered result (goal_of Specifiers) (symbol_kind symbol) }
{
    match symbol {
        Symbol::Storage => Entry::One(Goal::Specifiers),
        Symbol::Int | Symbol::Void => Entry::Nothing,
        _ => Entry::Stops,
    }
}

pub(crate) fn function_name(symbol: Symbol) -> Entry
    ensures { Entered result (goal_of FunctionName) (symbol_kind symbol) }
{
    match symbol {
        Symbol::Name | Symbol::Main => Entry::Nothing,
        _ => Entry::Stops,
    }
}

pub(crate) fn parameters(symbol: Symbol) -> Entry
    ensures { Entered result (goal_of Parameters) (symbol_kind symbol) }
{
    match symbol {
        Symbol::Void => Entry::Nothing,
        Symbol::Int => Entry::Two(Goal::ParameterName, Goal::MoreParameters),
        Symbol::Const => Entry::Three(
            Goal::Only(Mark::Int),
            Goal::ParameterName,
            Goal::MoreParameters,
        ),
        _ => Entry::Skips,
    }
}

pub(crate) fn more_parameters(symbol: Symbol) -> Entry
    ensures { Entered result (goal_of MoreParameters) (symbol_kind symbol) }
{
    match symbol {
        Symbol::Comma => { Entry::Three(Goal::SomeType, Goal::ParameterName, Goal::MoreParameters) }
        _ => Entry::Skips,
    }
}

pub(crate) fn some_type(symbol: Symbol) -> Entry
    ensures { Entered result (goal_of SomeType) (symbol_kind symbol) }
{
    match symbol {
        Symbol::Int => Entry::Nothing,
        Symbol::Const => Entry::One(Goal::Only(Mark::Int)),
        _ => Entry::Stops,
    }
}

pub(crate) fn parameter_name(symbol: Symbol) -> Entry
    ensures { Entered result (goal_of ParameterName) (symbol_kind symbol) }
{
    match symbol {
        Symbol::Name => Entry::One(Goal::Bounding),
        Symbol::Infix(Op::Times) => Entry::One(Goal::SomeName),
        _ => Entry::Stops,
    }
}

pub(crate) fn bounding(symbol: Symbol) -> Entry
    ensures { Entered result (goal_of Bounding) (symbol_kind symbol) }
{
    match symbol {
        Symbol::LeftBracket => Entry::Three(
            Goal::MaybeSize,
            Goal::Only(Mark::RightBracket),
            Goal::MoreSizes,
        ),
        _ => Entry::Skips,
    }
}

pub(crate) fn more_sizes(symbol: Symbol) -> Entry
    ensures { Entered result (goal_of MoreSizes) (symbol_kind symbol) }
{
    match symbol {
        Symbol::LeftBracket => Entry::Three(
            Goal::SomeSize,
            Goal::Only(Mark::RightBracket),
            Goal::MoreSizes,
        ),
        _ => Entry::Skips,
    }
}

pub(crate) fn some_name(symbol: Symbol) -> Entry
    ensures { Entered result (goal_of SomeName) (symbol_kind symbol) }
{
    match symbol {
        Symbol::Name => Entry::Nothing,
        _ => Entry::Stops,
    }
}

pub(crate) fn some_size(symbol: Symbol) -> Entry
    ensures { Entered result (goal_of SomeSize) (symbol_kind symbol) }
{
    match symbol {
        Symbol::Number | Symbol::Name => Entry::Nothing,
        _ => Entry::Stops,
    }
}

pub(crate) fn maybe_size(symbol: Symbol) -> Entry
    ensures { Entered result (goal_of MaybeSize) (symbol_kind symbol) }
{
    match symbol {
        Symbol::Number | Symbol::Name => Entry::Nothing,
        _ => Entry::Skips,
    }
}

pub(crate) fn only(mark: Mark, symbol: Symbol) -> Entry
    ensures { Entered result (goal_of (Only mark)) (symbol_kind symbol) }
{
    match (mark, symbol) {
        (Mark::LeftParen, Symbol::LeftParen)
        | (Mark::RightParen, Symbol::RightParen)
        | (Mark::LeftBrace, Symbol::LeftBrace)
        | (Mark::RightBrace, Symbol::RightBrace)
        | (Mark::RightBracket, Symbol::RightBracket)
        | (Mark::Colon, Symbol::Colon)
        | (Mark::Semicolon, Symbol::Semicolon)
        | (Mark::Int, Symbol::Int) => Entry::Nothing,
        _ => Entry::Stops,
    }
}

//! What declarations and the values of arrays make of a token.

ghost use Rattle.source_grammar.specs.declared.goal.Goal.TheVariants.{Declaring, Initialising, MoreDeclarators, Sizing, Filling};
ghost use Rattle.source_grammar.specs.declared.goal.Goal.TheVariants.{MaybeValues, MoreValues};
ghost use Rattle.source_grammar.specs.Goals.{goal_of, Entered};
ghost use Rattle.source_grammar.specs.Symbols.{symbol_kind};

use crate::goal::{Entry, Goal, Mark, NESTING};
use crate::symbol::{Change, Op, Symbol};

pub(crate) fn declaring(depth: u32, symbol: Symbol) -> Entry
    ensures { Entered result (goal_of (Declaring depth)) (symbol_kind symbol) }
{
    match symbol {
        Symbol::Name => Entry::One(Goal::Initialising(depth)),
        _ => Entry::Stops,
    }
}

pub(crate) fn initialising(depth: u32, symbol: Symbol) -> Entry
    ensures { Entered result (goal_of (Initialising depth)) (symbol_kind symbol) }
{
    match symbol {
        Symbol::Change(Change::Replaces) => Entry::Two(Goal::Operand(depth), Goal::More(depth)),
        Symbol::LeftBracket => Entry::Three(
            Goal::SomeSize,
            Goal::Only(Mark::RightBracket),
            Goal::Sizing(depth),
        ),
        _ => Entry::Skips,
    }
}

pub(crate) fn more_declarators(depth: u32, symbol: Symbol) -> Entry
    ensures { Entered result (goal_of (MoreDeclarators depth)) (symbol_kind symbol) }
{
    match symbol {
        Symbol::Comma => Entry::Two(Goal::Declaring(depth), Goal::MoreDeclarators(depth)),
        _ => Entry::Skips,
    }
}

pub(crate) fn sizing(depth: u32, symbol: Symbol) -> Entry
    ensures { Entered result (goal_of (Sizing depth)) (symbol_kind symbol) }
{
    match symbol {
        Symbol::Change(Change::Replaces) => Entry::One(Goal::Filling(depth)),
        Symbol::LeftBracket => Entry::Three(
            Goal::SomeSize,
            Goal::Only(Mark::RightBracket),
            Goal::Sizing(depth),
        ),
        _ => Entry::Skips,
    }
}

pub(crate) fn filling(depth: u32, symbol: Symbol) -> Entry
    ensures { Entered result (goal_of (Filling depth)) (symbol_kind symbol) }
{
    match symbol {
        Symbol::LeftBrace => {
            if depth < NESTING {
                Entry::Two(Goal::MaybeValues(depth + 1), Goal::Only(Mark::RightBrace))
            } else {
                Entry::Deep
            }
        }
        _ => Entry::Stops,
    }
}

pub(crate) fn maybe_values(depth: u32, symbol: Symbol) -> Entry
    ensures { Entered result (goal_of (MaybeValues depth)) (symbol_kind symbol) }
{
    let more = Goal::More(depth);
    let others = Goal::MoreValues(depth);
    match symbol {
        Symbol::Name => Entry::Three(Goal::Named(depth), more, others),
        Symbol::Number => Entry::Two(more, others),
        Symbol::Step(_) => Entry::Three(Goal::SomeName, more, others),
        Symbol::Nondet => Entry::Four(
            Goal::Only(Mark::LeftParen),
            Goal::Only(Mark::RightParen),
            more,
            others,
        ),
        Symbol::Infix(Op::Plus)
        | Symbol::Infix(Op::Minus)
        | Symbol::Bang
        | Symbol::LeftParen
        | Symbol::LeftBrace
            if depth >= NESTING => Entry::Deep,
        Symbol::Infix(Op::Plus) | Symbol::Infix(Op::Minus) | Symbol::Bang => {
            Entry::Three(Goal::Operand(depth + 1), more, others)
        }
        Symbol::LeftParen => Entry::Five(
            Goal::Operand(depth + 1),
            Goal::More(depth + 1),
            Goal::Only(Mark::RightParen),
            more,
            others,
        ),
        Symbol::LeftBrace => Entry::Three(
            Goal::MaybeValues(depth + 1),
            Goal::Only(Mark::RightBrace),
            others,
        ),
        _ => Entry::Skips,
    }
}

// Behind the comma there may be no value.
pub(crate) fn more_values(depth: u32, symbol: Symbol) -> Entry
    ensures { Entered result (goal_of (MoreValues depth)) (symbol_kind symbol) }
{
    match symbol {
        Symbol::Comma => Entry::One(Goal::MaybeValues(depth)),
        _ => Entry::Skips,
    }
}

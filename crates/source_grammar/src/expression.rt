//! What operands, expressions and arguments make of a token.

ghost use Rattle.source_grammar.specs.declared.goal.Goal.TheVariants.{Operand, Named, More, MaybeExpr, MaybeArguments, MoreArguments};
ghost use Rattle.source_grammar.specs.Goals.{goal_of, Entered};
ghost use Rattle.source_grammar.specs.Symbols.{symbol_kind};

use crate::goal::{Entry, Goal, Mark, NESTING};
use crate::symbol::{Op, Symbol};

pub(crate) fn operand(depth: u32, symbol: Symbol) -> Entry
    ensures { Entered result (goal_of (Operand depth)) (symbol_kind symbol) }
{
    match symbol {
        Symbol::Name => Entry::One(Goal::Named(depth)),
        Symbol::Number => Entry::Nothing,
        Symbol::Infix(Op::Plus) | Symbol::Infix(Op::Minus) | Symbol::Bang => {
            if depth < NESTING {
                Entry::One(Goal::Operand(depth + 1))
            } else {
                Entry::Deep
            }
        }
        Symbol::LeftParen => {
            if depth < NESTING {
                Entry::Three(
                    Goal::Operand(depth + 1),
                    Goal::More(depth + 1),
                    Goal::Only(Mark::RightParen),
                )
            } else {
                Entry::Deep
            }
        }
        Symbol::Step(_) => Entry::One(Goal::SomeName),
        Symbol::Nondet => Entry::Two(Goal::Only(Mark::LeftParen), Goal::Only(Mark::RightParen)),
        _ => Entry::Stops,
    }
}

pub(crate) fn named(depth: u32, symbol: Symbol) -> Entry
    ensures { Entered result (goal_of (Named depth)) (symbol_kind symbol) }
{
    match symbol {
        Symbol::LeftParen | Symbol::LeftBracket if depth >= NESTING => Entry::Deep,
        Symbol::LeftParen => {
            Entry::Two(
                Goal::MaybeArguments(depth + 1),
                Goal::Only(Mark::RightParen),
            )
        }
        Symbol::LeftBracket => Entry::Four(
            Goal::Operand(depth + 1),
            Goal::More(depth + 1),
            Goal::Only(Mark::RightBracket),
            Goal::Indexing(depth),
        ),
        Symbol::Step(_) => Entry::Nothing,
        _ => Entry::Skips,
    }
}

// What stands behind the `:` of a `?` goes on to the end of the whole expression.
pub(crate) fn more(depth: u32, symbol: Symbol) -> Entry
    ensures { Entered result (goal_of (More depth)) (symbol_kind symbol) }
{
    match symbol {
        Symbol::Infix(_) => Entry::Two(Goal::Operand(depth), Goal::More(depth)),
        Symbol::Question => {
            if depth < NESTING {
                let operand = Goal::Operand(depth + 1);
                let middle = Goal::More(depth + 1);
                let last = Goal::More(depth + 1);
                Entry::Five(operand, middle, Goal::Only(Mark::Colon), operand, last)
            } else {
                Entry::Deep
            }
        }
        _ => Entry::Skips,
    }
}

pub(crate) fn maybe_expr(depth: u32, symbol: Symbol) -> Entry
    ensures { Entered result (goal_of (MaybeExpr depth)) (symbol_kind symbol) }
{
    let more = Goal::More(depth);
    match symbol {
        Symbol::Name => Entry::Two(Goal::Named(depth), more),
        Symbol::Number => Entry::One(more),
        Symbol::Infix(Op::Plus) | Symbol::Infix(Op::Minus) | Symbol::Bang => {
            if depth < NESTING {
                Entry::Two(Goal::Operand(depth + 1), more)
            } else {
                Entry::Deep
            }
        }
        Symbol::LeftParen => {
            if depth < NESTING {
                Entry::Four(
                    Goal::Operand(depth + 1),
                    Goal::More(depth + 1),
                    Goal::Only(Mark::RightParen),
                    more,
                )
            } else {
                Entry::Deep
            }
        }
        Symbol::Step(_) => Entry::Two(Goal::SomeName, more),
        Symbol::Nondet => Entry::Three(
            Goal::Only(Mark::LeftParen),
            Goal::Only(Mark::RightParen),
            more,
        ),
        _ => Entry::Skips,
    }
}

pub(crate) fn maybe_arguments(depth: u32, symbol: Symbol) -> Entry
    ensures { Entered result (goal_of (MaybeArguments depth)) (symbol_kind symbol) }
{
    let more = Goal::More(depth);
    let others = Goal::MoreArguments(depth);
    match symbol {
        Symbol::Name => Entry::Three(Goal::Named(depth), more, others),
        Symbol::Number => Entry::Two(more, others),
        Symbol::Infix(Op::Plus) | Symbol::Infix(Op::Minus) | Symbol::Bang => {
            if depth < NESTING {
                Entry::Three(Goal::Operand(depth + 1), more, others)
            } else {
                Entry::Deep
            }
        }
        Symbol::LeftParen => {
            if depth < NESTING {
                Entry::Five(
                    Goal::Operand(depth + 1),
                    Goal::More(depth + 1),
                    Goal::Only(Mark::RightParen),
                    more,
                    others,
                )
            } else {
                Entry::Deep
            }
        }
        Symbol::Step(_) => Entry::Three(Goal::SomeName, more, others),
        Symbol::Nondet => Entry::Four(
            Goal::Only(Mark::LeftParen),
            Goal::Only(Mark::RightParen),
            more,
            others,
        ),
        _ => Entry::Skips,
    }
}

pub(crate) fn more_arguments(depth: u32, symbol: Symbol) -> Entry
    ensures { Entered result (goal_of (MoreArguments depth)) (symbol_kind symbol) }
{
    match symbol {
        Symbol::Comma => Entry::Three(
            Goal::Operand(depth),
            Goal::More(depth),
            Goal::MoreArguments(depth),
        ),
        _ => Entry::Skips,
    }
}

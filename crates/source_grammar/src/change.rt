//! What changes make of a token.

ghost use Rattle.source_grammar.specs.declared.goal.Goal.TheVariants.{Indexing, Effect, Changing, MoreChanges, MaybeChanges};
ghost use Rattle.source_grammar.specs.Goals.{goal_of, Entered};
ghost use Rattle.source_grammar.specs.Symbols.{symbol_kind};

use crate::goal::{Entry, Goal, Mark, NESTING};
use crate::symbol::Symbol;

pub(crate) fn indexing(depth: u32, symbol: Symbol) -> Entry
    ensures { Entered result (goal_of (Indexing depth)) (symbol_kind symbol) }
{
    match symbol {
        Symbol::LeftBracket => {
            if depth < NESTING {
                Entry::Four(
                    Goal::Operand(depth + 1),
                    Goal::More(depth + 1),
                    Goal::Only(Mark::RightBracket),
                    Goal::Indexing(depth),
                )
            } else {
                Entry::Deep
            }
        }
        _ => Entry::Skips,
    }
}

pub(crate) fn effect(depth: u32, symbol: Symbol) -> Entry
    ensures { Entered result (goal_of (Effect depth)) (symbol_kind symbol) }
{
    match symbol {
        Symbol::Change(_) => Entry::Two(Goal::Operand(depth), Goal::More(depth)),
        Symbol::Step(_) => Entry::Nothing,
        _ => Entry::Stops,
    }
}

pub(crate) fn changing(depth: u32, symbol: Symbol) -> Entry
    ensures { Entered result (goal_of (Changing depth)) (symbol_kind symbol) }
{
    match symbol {
        Symbol::Name => Entry::Two(Goal::Indexing(depth), Goal::Effect(depth)),
        Symbol::Step(_) => Entry::Two(Goal::SomeName, Goal::Indexing(depth)),
        _ => Entry::Stops,
    }
}

pub(crate) fn more_changes(depth: u32, symbol: Symbol) -> Entry
    ensures { Entered result (goal_of (MoreChanges depth)) (symbol_kind symbol) }
{
    match symbol {
        Symbol::Comma => Entry::Two(Goal::Changing(depth), Goal::MoreChanges(depth)),
        _ => Entry::Skips,
    }
}

pub(crate) fn maybe_changes(depth: u32, symbol: Symbol) -> Entry
    ensures { Entered result (goal_of (MaybeChanges depth)) (symbol_kind symbol) }
{
    let others = Goal::MoreChanges(depth);
    match symbol {
        Symbol::Name => Entry::Three(Goal::Indexing(depth), Goal::Effect(depth), others),
        Symbol::Step(_) => Entry::Three(Goal::SomeName, Goal::Indexing(depth), others),
        _ => Entry::Skips,
    }
}

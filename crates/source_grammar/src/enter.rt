//! What a goal makes of a token.

ghost use Rattle.source_grammar.specs.Goals.{goal_of, Entered};
ghost use Rattle.source_grammar.specs.Symbols.{symbol_kind};

use crate::change::{changing, effect, indexing, maybe_changes, more_changes};
use crate::declaration::{
    declaring, filling, initialising, maybe_values, more_declarators, more_values, sizing,
};
use crate::expression::{maybe_arguments, maybe_expr, more, more_arguments, named, operand};
use crate::goal::{Entry, Goal, Site};
use crate::head::{
    bounding, function_name, maybe_size, more_parameters, more_sizes, only, parameter_name,
    parameters, some_name, some_size, some_type, specifiers,
};
use crate::statement::{
    after_name, condition, do_end, header, header_first, header_rest, item, maybe_else, sub,
};
use crate::symbol::Symbol;

/// What a goal makes of a token.
pub(crate) fn enter(goal: Goal, symbol: Symbol) -> Entry
    ensures { Entered result (goal_of goal) (symbol_kind symbol) }
{
    match goal {
        Goal::Operand(depth) => operand(depth, symbol),
        Goal::Named(depth) => named(depth, symbol),
        Goal::More(depth) => more(depth, symbol),
        Goal::MaybeExpr(depth) => maybe_expr(depth, symbol),
        Goal::MaybeArguments(depth) => maybe_arguments(depth, symbol),
        Goal::MoreArguments(depth) => more_arguments(depth, symbol),
        Goal::Indexing(depth) => indexing(depth, symbol),
        Goal::Effect(depth) => effect(depth, symbol),
        Goal::Changing(depth) => changing(depth, symbol),
        Goal::MoreChanges(depth) => more_changes(depth, symbol),
        Goal::MaybeChanges(depth) => maybe_changes(depth, symbol),
        Goal::Declaring(depth) => declaring(depth, symbol),
        Goal::Initialising(depth) => initialising(depth, symbol),
        Goal::MoreDeclarators(depth) => more_declarators(depth, symbol),
        Goal::Sizing(depth) => sizing(depth, symbol),
        Goal::Filling(depth) => filling(depth, symbol),
        Goal::MaybeValues(depth) => maybe_values(depth, symbol),
        Goal::MoreValues(depth) => more_values(depth, symbol),
        Goal::Statement(Site::Sub, depth) => sub(depth, symbol),
        Goal::Statement(Site::Block, depth) => item(depth, symbol),
        Goal::AfterName(site, depth) => after_name(site, depth, symbol),
        Goal::MaybeElse(depth) => maybe_else(depth, symbol),
        Goal::Condition(depth) => condition(depth, symbol),
        Goal::DoEnd(depth) => do_end(depth, symbol),
        Goal::Header(depth) => header(depth, symbol),
        Goal::HeaderFirst(depth) => header_first(depth, symbol),
        Goal::HeaderRest(depth) => header_rest(depth, symbol),
        Goal::Specifiers => specifiers(symbol),
        Goal::FunctionName => function_name(symbol),
        Goal::Parameters => parameters(symbol),
        Goal::MoreParameters => more_parameters(symbol),
        Goal::SomeType => some_type(symbol),
        Goal::ParameterName => parameter_name(symbol),
        Goal::Bounding => bounding(symbol),
        Goal::MoreSizes => more_sizes(symbol),
        Goal::SomeName => some_name(symbol),
        Goal::SomeSize => some_size(symbol),
        Goal::MaybeSize => maybe_size(symbol),
        Goal::Only(mark) => only(mark, symbol),
    }
}

//! What statements make of a token.

ghost use Rattle.source_grammar.specs.declared.goal.Goal.TheVariants.{Statement, AfterName, MaybeElse, Condition, DoEnd, Header};
ghost use Rattle.source_grammar.specs.declared.goal.Goal.TheVariants.{HeaderFirst, HeaderRest};
ghost use Rattle.source_grammar.specs.Goals.{goal_of, Entered};
ghost use Rattle.source_grammar.specs.Symbols.{symbol_kind};

use crate::goal::{Entry, Goal, Mark, NESTING, Site};
use crate::symbol::Symbol;

// A statement under another one or behind a label: no declaration.
pub(crate) fn sub(depth: u32, symbol: Symbol) -> Entry
    ensures { Entered result (goal_of (Statement Site.Sub depth)) (symbol_kind symbol) }
{
    match symbol {
        Symbol::Name => Entry::One(Goal::AfterName(Site::Sub, depth)),
        Symbol::Semicolon => Entry::Nothing,
        Symbol::Return => Entry::Two(Goal::MaybeExpr(depth), Goal::Only(Mark::Semicolon)),
        Symbol::Demand(_) => Entry::Two(Goal::Condition(depth), Goal::Only(Mark::Semicolon)),
        Symbol::Step(_) => Entry::Three(
            Goal::SomeName,
            Goal::Indexing(depth),
            Goal::Only(Mark::Semicolon),
        ),
        Symbol::Jump(_) => Entry::One(Goal::Only(Mark::Semicolon)),
        Symbol::LeftBrace | Symbol::If | Symbol::While | Symbol::Do | Symbol::For
            if depth >= NESTING => { Entry::Deep }
        Symbol::LeftBrace => Entry::One(Goal::Statement(Site::Block, depth + 1)),
        Symbol::If => Entry::Three(
            Goal::Condition(depth + 1),
            Goal::Statement(Site::Sub, depth + 1),
            Goal::MaybeElse(depth + 1),
        ),
        Symbol::While => Entry::Two(
            Goal::Condition(depth + 1),
            Goal::Statement(Site::Sub, depth + 1),
        ),
        Symbol::Do => Entry::Two(
            Goal::Statement(Site::Sub, depth + 1),
            Goal::DoEnd(depth + 1),
        ),
        Symbol::For => Entry::Two(
            Goal::Header(depth + 1),
            Goal::Statement(Site::Sub, depth + 1),
        ),
        _ => Entry::Stops,
    }
}

// A statement where more may follow: also a declaration, or the end of the block.
pub(crate) fn item(depth: u32, symbol: Symbol) -> Entry
    ensures { Entered result (goal_of (Statement Site.Block depth)) (symbol_kind symbol) }
{
    let next = Goal::Statement(Site::Block, depth);
    match symbol {
        Symbol::Name => Entry::Two(Goal::AfterName(Site::Block, depth), next),
        Symbol::Semicolon => Entry::One(next),
        Symbol::Int => Entry::Four(
            Goal::Declaring(depth),
            Goal::MoreDeclarators(depth),
            Goal::Only(Mark::Semicolon),
            next,
        ),
        Symbol::Const => Entry::Five(
            Goal::Only(Mark::Int),
            Goal::Declaring(depth),
            Goal::MoreDeclarators(depth),
            Goal::Only(Mark::Semicolon),
            next,
        ),
        Symbol::Return => {
            Entry::Three(Goal::MaybeExpr(depth), Goal::Only(Mark::Semicolon), next)
        }
        Symbol::Demand(_) => Entry::Three(
            Goal::Condition(depth),
            Goal::Only(Mark::Semicolon),
            next,
        ),
        Symbol::Step(_) => Entry::Four(
            Goal::SomeName,
            Goal::Indexing(depth),
            Goal::Only(Mark::Semicolon),
            next,
        ),
        Symbol::Jump(_) => Entry::Two(Goal::Only(Mark::Semicolon), next),
        Symbol::RightBrace => Entry::Nothing,
        Symbol::LeftBrace | Symbol::If | Symbol::While | Symbol::Do | Symbol::For
            if depth >= NESTING => { Entry::Deep }
        Symbol::LeftBrace => Entry::Two(Goal::Statement(Site::Block, depth + 1), next),
        Symbol::If => Entry::Four(
            Goal::Condition(depth + 1),
            Goal::Statement(Site::Sub, depth + 1),
            Goal::MaybeElse(depth + 1),
            next,
        ),
        Symbol::While => Entry::Three(
            Goal::Condition(depth + 1),
            Goal::Statement(Site::Sub, depth + 1),
            next,
        ),
        Symbol::Do => Entry::Three(
            Goal::Statement(Site::Sub, depth + 1),
            Goal::DoEnd(depth + 1),
            next,
        ),
        Symbol::For => Entry::Three(
            Goal::Header(depth + 1),
            Goal::Statement(Site::Sub, depth + 1),
            next,
        ),
        _ => Entry::Stops,
    }
}

pub(crate) fn after_name(site: Site, depth: u32, symbol: Symbol) -> Entry
    ensures { Entered result (goal_of (AfterName site depth)) (symbol_kind symbol) }
{
    match symbol {
        Symbol::Colon => match site {
            Site::Sub => Entry::One(Goal::Statement(Site::Sub, depth)),
            Site::Block => Entry::Nothing,
        },
        Symbol::LeftParen | Symbol::LeftBracket if depth >= NESTING => Entry::Deep,
        Symbol::LeftParen => Entry::Three(
            Goal::MaybeArguments(depth + 1),
            Goal::Only(Mark::RightParen),
            Goal::Only(Mark::Semicolon),
        ),
        Symbol::LeftBracket => Entry::Six(
            Goal::Operand(depth + 1),
            Goal::More(depth + 1),
            Goal::Only(Mark::RightBracket),
            Goal::Indexing(depth),
            Goal::Effect(depth),
            Goal::Only(Mark::Semicolon),
        ),
        Symbol::Change(_) => Entry::Three(
            Goal::Operand(depth),
            Goal::More(depth),
            Goal::Only(Mark::Semicolon),
        ),
        Symbol::Step(_) => Entry::One(Goal::Only(Mark::Semicolon)),
        _ => Entry::Stops,
    }
}

pub(crate) fn maybe_else(depth: u32, symbol: Symbol) -> Entry
    ensures { Entered result (goal_of (MaybeElse depth)) (symbol_kind symbol) }
{
    match symbol {
        Symbol::Else => Entry::One(Goal::Statement(Site::Sub, depth)),
        _ => Entry::Skips,
    }
}

pub(crate) fn condition(depth: u32, symbol: Symbol) -> Entry
    ensures { Entered result (goal_of (Condition depth)) (symbol_kind symbol) }
{
    match symbol {
        Symbol::LeftParen => Entry::Three(
            Goal::Operand(depth),
            Goal::More(depth),
            Goal::Only(Mark::RightParen),
        ),
        _ => Entry::Stops,
    }
}

pub(crate) fn do_end(depth: u32, symbol: Symbol) -> Entry
    ensures { Entered result (goal_of (DoEnd depth)) (symbol_kind symbol) }
{
    match symbol {
        Symbol::While => Entry::Two(Goal::Condition(depth), Goal::Only(Mark::Semicolon)),
        _ => Entry::Stops,
    }
}

pub(crate) fn header(depth: u32, symbol: Symbol) -> Entry
    ensures { Entered result (goal_of (Header depth)) (symbol_kind symbol) }
{
    match symbol {
        Symbol::LeftParen => Entry::Two(Goal::HeaderFirst(depth), Goal::HeaderRest(depth)),
        _ => Entry::Stops,
    }
}

pub(crate) fn header_first(depth: u32, symbol: Symbol) -> Entry
    ensures { Entered result (goal_of (HeaderFirst depth)) (symbol_kind symbol) }
{
    let others = Goal::MoreChanges(depth);
    match symbol {
        Symbol::Int => Entry::Two(Goal::Declaring(depth), Goal::MoreDeclarators(depth)),
        Symbol::Const => Entry::Three(
            Goal::Only(Mark::Int),
            Goal::Declaring(depth),
            Goal::MoreDeclarators(depth),
        ),
        Symbol::Name => Entry::Three(Goal::Indexing(depth), Goal::Effect(depth), others),
        Symbol::Step(_) => Entry::Three(Goal::SomeName, Goal::Indexing(depth), others),
        _ => Entry::Skips,
    }
}

pub(crate) fn header_rest(depth: u32, symbol: Symbol) -> Entry
    ensures { Entered result (goal_of (HeaderRest depth)) (symbol_kind symbol) }
{
    match symbol {
        Symbol::Semicolon => Entry::Four(
            Goal::MaybeExpr(depth),
            Goal::Only(Mark::Semicolon),
            Goal::MaybeChanges(depth),
            Goal::Only(Mark::RightParen),
        ),
        _ => Entry::Stops,
    }
}

//! Signs: how tightly each holds its sides, and what it does.

ghost use Rattle.std.specs.Prelude.{◌≡◌};
ghost use Rattle.std.specs.Option.{option_map};
ghost use Rattle.source_grammar.specs.Tokens.{level, relation_level};
ghost use Rattle.source_grammar.specs.Symbols.{op_of, relation_of, symbol_kind};
ghost use Rattle.source_meaning.specs.Expressions.{rel_of};
ghost use Rattle.source_expression.specs.Lists.{ends_argument};
ghost use Rattle.source_expression.specs.Signs.{is_brace, is_brace_end, is_closing, is_comma, is_name, is_question, sign_in};
ghost use Rattle.source_value.specs.Steps.{direction_of};
ghost use Rattle.source_expression.specs.Signs.{direction_in, work_in, asks_conditions, opening_in, named, prefix_in};

use lang_tree::Rel;
use source_grammar::{Op, Relation, Symbol};
use source_value::{Direction, Operation};

/// A sign that stands before its operand.
#[derive(Clone, Copy)]
pub(crate) enum Prefix {
    /// `-`
    Negative,
    /// `+`
    Positive,
    /// `!`
    Negation,
}

/// How an operand begins.
#[derive(Clone, Copy)]
pub(crate) enum Opening {
    Number,
    /// A name alone.
    Variable,
    /// A name and `[`.
    Element,
    /// A name and `(`.
    Call,
    /// A name and `++` or `--`.
    SteppedBehind,
    /// `++` or `--`, before a name.
    SteppedBefore,
    /// `nondet`
    Unknown,
    /// `(`
    Grouped,
    Prefixed(Prefix),
}

/// What a sign does with its two sides: "or" and "and" of conditions, a comparison of numbers or an operation on them.
#[derive(Clone, Copy)]
pub(crate) enum Work {
    Either,
    Both,
    Compare(Rel),
    Operate(Operation),
}

impl Work {
    /// Whether it asks for conditions as its sides.
    pub fn asks_conditions(self) -> bool
        ensures { result ≡ asks_conditions self }
    {
        matches!(self, Work::Either | Work::Both)
    }
}

/// Whether a symbol is `?`.
pub(crate) fn is_question(symbol: Symbol) -> bool
    ensures { result ≡ is_question (symbol_kind symbol) }
{
    matches!(symbol, Symbol::Question)
}

/// Whether a symbol is `,`.
pub(crate) fn is_comma(symbol: Symbol) -> bool
    ensures { result ≡ is_comma (symbol_kind symbol) }
{
    matches!(symbol, Symbol::Comma)
}

/// Whether a symbol is `)`.
pub(crate) fn is_closing(symbol: Symbol) -> bool
    ensures { result ≡ is_closing (symbol_kind symbol) }
{
    matches!(symbol, Symbol::RightParen)
}

/// Whether a symbol may stand behind an argument.
pub(crate) fn ends_argument(symbol: Symbol) -> bool
    ensures { result ≡ ends_argument (symbol_kind symbol) }
{
    matches!(symbol, Symbol::Comma | Symbol::RightParen)
}

/// Whether a symbol is a name.
pub(crate) fn is_name(symbol: Symbol) -> bool
    ensures { result ≡ is_name (symbol_kind symbol) }
{
    matches!(symbol, Symbol::Name)
}

/// Whether a symbol is `{`.
pub(crate) fn is_brace(symbol: Symbol) -> bool
    ensures { result ≡ is_brace (symbol_kind symbol) }
{
    matches!(symbol, Symbol::LeftBrace)
}

/// Whether a symbol is `}`.
pub(crate) fn is_brace_end(symbol: Symbol) -> bool
    ensures { result ≡ is_brace_end (symbol_kind symbol) }
{
    matches!(symbol, Symbol::RightBrace)
}

/// Where a step goes whose sign is this symbol; up of another.
pub(crate) fn direction_in(symbol: Symbol) -> Direction
    ensures { direction_of result ≡ direction_in (symbol_kind symbol) }
{
    match symbol {
        Symbol::Step(source_grammar::Direction::Down) => Direction::Down,
        _ => Direction::Up,
    }
}

// How an operand begins with a name and this token.
fn named(second: Symbol) -> Opening
    ensures { result ≡ named (symbol_kind second) }
{
    match second {
        Symbol::LeftBracket => Opening::Element,
        Symbol::LeftParen => Opening::Call,
        Symbol::Step(_) => Opening::SteppedBehind,
        _ => Opening::Variable,
    }
}

// How an operand begins with a sign that also stands between two sides.
fn prefix_in(op: Op) -> Option<Opening>
    ensures { result ≡ prefix_in (op_of op) }
{
    match op {
        Op::Plus => Some(Opening::Prefixed(Prefix::Positive)),
        Op::Minus => Some(Opening::Prefixed(Prefix::Negative)),
        _ => None,
    }
}

/// How an operand begins that begins with these two tokens, if one may.
pub(crate) fn opening_in(first: Symbol, second: Symbol) -> Option<Opening>
    ensures { result ≡ opening_in (symbol_kind first) (symbol_kind second) }
{
    match first {
        Symbol::Number => Some(Opening::Number),
        Symbol::Name => Some(named(second)),
        Symbol::Step(_) => Some(Opening::SteppedBefore),
        Symbol::Nondet => Some(Opening::Unknown),
        Symbol::LeftParen => Some(Opening::Grouped),
        Symbol::Bang => Some(Opening::Prefixed(Prefix::Negation)),
        Symbol::Infix(op) => prefix_in(op),
        _ => None,
    }
}

fn relation_level(relation: Relation) -> u8
    ensures { result ≡ relation_level (relation_of relation) }
{
    match relation {
        Relation::Equal | Relation::Unequal => 3,
        _ => 4,
    }
}

/// How tightly a sign holds its sides, from 1 to 6.
pub(crate) fn level(op: Op) -> u8
    ensures { result ≡ level (op_of op) }
{
    match op {
        Op::Or => 1,
        Op::And => 2,
        Op::Compare(relation) => relation_level(relation),
        Op::Plus | Op::Minus => 5,
        Op::Times | Op::Over | Op::Remainder => 6,
    }
}

/// The sign that a symbol is between two sides, if it holds them no looser than this level.
pub(crate) fn sign_in(symbol: Symbol, least: u8) -> Option<Op>
    ensures { option_map op_of result ≡ sign_in least (symbol_kind symbol) }
{
    match symbol {
        Symbol::Infix(op) if least <= level(op) => Some(op),
        _ => None,
    }
}

// How a sign compares two numbers.
fn rel_of(relation: Relation) -> Rel
    ensures { result ≡ rel_of (relation_of relation) }
{
    match relation {
        Relation::Equal => Rel::Eq,
        Relation::Unequal => Rel::Ne,
        Relation::Less => Rel::Lt,
        Relation::AtMost => Rel::Le,
        Relation::Greater => Rel::Gt,
        Relation::AtLeast => Rel::Ge,
    }
}

/// What a sign does with its sides.
pub(crate) fn work_of(op: Op) -> Work
    ensures { result ≡ work_in (op_of op) }
{
    match op {
        Op::Or => Work::Either,
        Op::And => Work::Both,
        Op::Compare(relation) => Work::Compare(rel_of(relation)),
        Op::Plus => Work::Operate(Operation::Plus),
        Op::Minus => Work::Operate(Operation::Minus),
        Op::Times => Work::Operate(Operation::Times),
        Op::Over => Work::Operate(Operation::Over),
        Op::Remainder => Work::Operate(Operation::Remainder),
    }
}

//! What has to come next, and what it makes of a token.

ghost use Rattle.std.specs.Prelude.{◌≡◌, ◌≢◌, None};
ghost use Rattle.lang_grammar.specs.Machine.{ender_mark, return_entry};
ghost use Rattle.lang_grammar.specs.declared.goal.Goal.TheVariants.{Operand, More, Statement, AfterName, MaybeElse, Condition, DoEnd};
ghost use Rattle.lang_grammar.specs.declared.goal.Goal.TheVariants.{Header, HeaderFirst};
ghost use Rattle.lang_grammar.specs.declared.goal.Goal.TheVariants.{HeaderTest, HeaderLast, Updating, Declarator, Declared, SomeName};
ghost use Rattle.lang_grammar.specs.declared.goal.Goal.TheVariants.{Parameters, Returned, SomeNumber, Only};
ghost use Rattle.lang_grammar.specs.Goals.{goal_of, place_of, mark_of, ender_of, Enters, Entered};
ghost use Rattle.lang_grammar.specs.Symbols.{symbol_kind};

use crate::symbol::{Change, Op, Symbol};

/// What ends an expression.
#[derive(Clone, Copy)]
pub enum Ender {
    Paren,
    Semicolon,
    /// `,` and a further declarator, or `;`.
    Declared,
}

/// Where a statement stands: under an `if`, an `else`, a loop or a label before it; in a block;
/// in `main`.
#[derive(Clone, Copy)]
pub enum Place {
    Sub,
    Block,
    Main,
}

/// A token that alone may stand at its place.
#[derive(Clone, Copy)]
pub enum Mark {
    LeftParen,
    RightParen,
    LeftBrace,
    RightBrace,
    Semicolon,
    Main,
    Int,
    End,
}

/// What has to come. A number says how many constructs are open there; that of `MaybeElse` counts
/// its `if`.
#[derive(Clone, Copy)]
pub enum Goal {
    Operand(u32),
    More(Ender, u32),
    Statement(Place, u32),
    AfterName(Place, u32),
    MaybeElse(u32),
    Condition(u32),
    /// The end of a `do`: its `while`, the condition and the `;`.
    DoEnd(u32),
    /// The head of a `for`, and its parts.
    Header(u32),
    HeaderFirst(u32),
    HeaderTest(u32),
    HeaderLast(u32),
    /// The sign behind the name of an assignment or a step.
    Updating(Ender, u32),
    Declarator(u32),
    Declared(u32),
    SomeName,
    Parameters,
    Returned,
    SomeNumber,
    Only(Mark),
}

/// What a goal makes of a token.
#[derive(Clone, Copy)]
pub enum Entry {
    /// The token is taken, and these have to come next, the first first.
    Nothing,
    One(Goal),
    Two(Goal, Goal),
    Three(Goal, Goal, Goal),
    Four(Goal, Goal, Goal, Goal),
    /// Nothing is wanted, and the token belongs to what comes later.
    Skips,
    /// The token may not stand here.
    Stops,
    /// The token opens one construct too many.
    Deep,
}

/// How many constructs may be open at a token.
const NESTING: u32 = 64;

fn operand(depth: u32, symbol: Symbol) -> Entry
    ensures { Entered result (goal_of (Operand depth)) (symbol_kind symbol) }
{
    match symbol {
        Symbol::Name | Symbol::Number => Entry::Nothing,
        Symbol::Infix(Op::Plus) | Symbol::Infix(Op::Minus) | Symbol::Bang => {
            if depth < NESTING {
                Entry::One(Goal::Operand(depth + 1))
            } else {
                Entry::Deep
            }
        }
        Symbol::LeftParen => {
            if depth < NESTING {
                Entry::Two(
                    Goal::Operand(depth + 1),
                    Goal::More(Ender::Paren, depth + 1),
                )
            } else {
                Entry::Deep
            }
        }
        Symbol::Nondet => Entry::Two(Goal::Only(Mark::LeftParen), Goal::Only(Mark::RightParen)),
        _ => Entry::Stops,
    }
}

fn more(ender: Ender, depth: u32, symbol: Symbol) -> Entry
    ensures { Entered result (goal_of (More ender depth)) (symbol_kind symbol) }
{
    match symbol {
        Symbol::Infix(_) => Entry::Two(Goal::Operand(depth), Goal::More(ender, depth)),
        Symbol::RightParen => match ender {
            Ender::Paren => Entry::Nothing,
            Ender::Semicolon | Ender::Declared => Entry::Stops,
        },
        Symbol::Semicolon => match ender {
            Ender::Paren => Entry::Stops,
            Ender::Semicolon | Ender::Declared => Entry::Nothing,
        },
        Symbol::Comma => match ender {
            Ender::Paren | Ender::Semicolon => Entry::Stops,
            Ender::Declared => Entry::One(Goal::Declarator(depth)),
        },
        _ => Entry::Stops,
    }
}

// A statement under another one or behind a label: no declaration.
fn sub(depth: u32, symbol: Symbol) -> Entry
    ensures { Entered result (goal_of (Statement Place.Sub depth)) (symbol_kind symbol) }
{
    match symbol {
        Symbol::Name => Entry::One(Goal::AfterName(Place::Sub, depth)),
        Symbol::Semicolon => Entry::Nothing,
        Symbol::Demand(_) => Entry::Two(Goal::Condition(depth), Goal::Only(Mark::Semicolon)),
        Symbol::Step(_) => Entry::Two(Goal::SomeName, Goal::Only(Mark::Semicolon)),
        Symbol::Jump(_) => Entry::One(Goal::Only(Mark::Semicolon)),
        Symbol::LeftBrace | Symbol::If | Symbol::While | Symbol::Do | Symbol::For
            if depth >= NESTING => { Entry::Deep }
        Symbol::LeftBrace => Entry::One(Goal::Statement(Place::Block, depth + 1)),
        Symbol::If => Entry::Three(
            Goal::Condition(depth + 1),
            Goal::Statement(Place::Sub, depth + 1),
            Goal::MaybeElse(depth + 1),
        ),
        Symbol::While => Entry::Two(
            Goal::Condition(depth + 1),
            Goal::Statement(Place::Sub, depth + 1),
        ),
        Symbol::Do => Entry::Two(
            Goal::Statement(Place::Sub, depth + 1),
            Goal::DoEnd(depth + 1),
        ),
        Symbol::For => Entry::Two(
            Goal::Header(depth + 1),
            Goal::Statement(Place::Sub, depth + 1),
        ),
        _ => Entry::Stops,
    }
}

// What follows the `return` of `main`, which stands nowhere else.
fn end_of_main(place: Place) -> Entry
    ensures { Enters result (return_entry (place_of place)) None }
{
    match place {
        Place::Sub | Place::Block => Entry::Stops,
        Place::Main => Entry::Three(
            Goal::Returned,
            Goal::Only(Mark::Semicolon),
            Goal::Only(Mark::RightBrace),
        ),
    }
}

// A statement where more may follow: also a declaration, the end of the block or, in `main`, `return`.
fn item(place: Place, depth: u32, symbol: Symbol) -> Entry
    requires { place ≢ Place.Sub }
    ensures { Entered result (goal_of (Statement place depth)) (symbol_kind symbol) }
{
    let next = Goal::Statement(place, depth);
    match symbol {
        Symbol::Name => Entry::Two(Goal::AfterName(place, depth), next),
        Symbol::Semicolon => Entry::One(next),
        Symbol::Int => Entry::Two(Goal::Declarator(depth), next),
        Symbol::Demand(_) => Entry::Three(
            Goal::Condition(depth),
            Goal::Only(Mark::Semicolon),
            next,
        ),
        Symbol::Step(_) => Entry::Three(Goal::SomeName, Goal::Only(Mark::Semicolon), next),
        Symbol::Jump(_) => Entry::Two(Goal::Only(Mark::Semicolon), next),
        Symbol::RightBrace => Entry::Nothing,
        Symbol::Return => end_of_main(place),
        Symbol::LeftBrace | Symbol::If | Symbol::While | Symbol::Do | Symbol::For
            if depth >= NESTING => { Entry::Deep }
        Symbol::LeftBrace => Entry::Two(Goal::Statement(Place::Block, depth + 1), next),
        Symbol::If => Entry::Four(
            Goal::Condition(depth + 1),
            Goal::Statement(Place::Sub, depth + 1),
            Goal::MaybeElse(depth + 1),
            next,
        ),
        Symbol::While => Entry::Three(
            Goal::Condition(depth + 1),
            Goal::Statement(Place::Sub, depth + 1),
            next,
        ),
        Symbol::Do => Entry::Three(
            Goal::Statement(Place::Sub, depth + 1),
            Goal::DoEnd(depth + 1),
            next,
        ),
        Symbol::For => Entry::Three(
            Goal::Header(depth + 1),
            Goal::Statement(Place::Sub, depth + 1),
            next,
        ),
        _ => Entry::Stops,
    }
}

fn after_name(place: Place, depth: u32, symbol: Symbol) -> Entry
    ensures { Entered result (goal_of (AfterName place depth)) (symbol_kind symbol) }
{
    match symbol {
        Symbol::Colon => match place {
            Place::Sub => Entry::One(Goal::Statement(Place::Sub, depth)),
            Place::Block | Place::Main => Entry::Nothing,
        },
        Symbol::Change(_) => {
            Entry::Two(Goal::Operand(depth), Goal::More(Ender::Semicolon, depth))
        }
        Symbol::Step(_) => Entry::One(Goal::Only(Mark::Semicolon)),
        _ => Entry::Stops,
    }
}

// The token that ends an expression with nothing more behind it.
fn end_mark(ender: Ender) -> Mark
    ensures { mark_of result ≡ ender_mark (ender_of ender) }
{
    match ender {
        Ender::Paren => Mark::RightParen,
        Ender::Semicolon | Ender::Declared => Mark::Semicolon,
    }
}

fn updating(ender: Ender, depth: u32, symbol: Symbol) -> Entry
    ensures { Entered result (goal_of (Updating ender depth)) (symbol_kind symbol) }
{
    match symbol {
        Symbol::Change(_) => Entry::Two(Goal::Operand(depth), Goal::More(ender, depth)),
        Symbol::Step(_) => Entry::One(Goal::Only(end_mark(ender))),
        _ => Entry::Stops,
    }
}

fn header_first(depth: u32, symbol: Symbol) -> Entry
    ensures { Entered result (goal_of (HeaderFirst depth)) (symbol_kind symbol) }
{
    match symbol {
        Symbol::Semicolon => Entry::Nothing,
        Symbol::Int => Entry::One(Goal::Declarator(depth)),
        Symbol::Name => Entry::One(Goal::Updating(Ender::Semicolon, depth)),
        Symbol::Step(_) => Entry::Two(Goal::SomeName, Goal::Only(Mark::Semicolon)),
        _ => Entry::Stops,
    }
}

fn header_test(depth: u32, symbol: Symbol) -> Entry
    ensures { Entered result (goal_of (HeaderTest depth)) (symbol_kind symbol) }
{
    let more = Goal::More(Ender::Semicolon, depth);
    match symbol {
        Symbol::Semicolon => Entry::Nothing,
        Symbol::Name | Symbol::Number => Entry::One(more),
        Symbol::Infix(Op::Plus) | Symbol::Infix(Op::Minus) | Symbol::Bang => {
            if depth < NESTING {
                Entry::Two(Goal::Operand(depth + 1), more)
            } else {
                Entry::Deep
            }
        }
        Symbol::LeftParen => {
            if depth < NESTING {
                Entry::Three(
                    Goal::Operand(depth + 1),
                    Goal::More(Ender::Paren, depth + 1),
                    more,
                )
            } else {
                Entry::Deep
            }
        }
        Symbol::Nondet => Entry::Three(
            Goal::Only(Mark::LeftParen),
            Goal::Only(Mark::RightParen),
            more,
        ),
        _ => Entry::Stops,
    }
}

fn header_last(depth: u32, symbol: Symbol) -> Entry
    ensures { Entered result (goal_of (HeaderLast depth)) (symbol_kind symbol) }
{
    match symbol {
        Symbol::RightParen => Entry::Nothing,
        Symbol::Name => Entry::One(Goal::Updating(Ender::Paren, depth)),
        Symbol::Step(_) => Entry::Two(Goal::SomeName, Goal::Only(Mark::RightParen)),
        _ => Entry::Stops,
    }
}

fn header(depth: u32, symbol: Symbol) -> Entry
    ensures { Entered result (goal_of (Header depth)) (symbol_kind symbol) }
{
    match symbol {
        Symbol::LeftParen => Entry::Three(
            Goal::HeaderFirst(depth),
            Goal::HeaderTest(depth),
            Goal::HeaderLast(depth),
        ),
        _ => Entry::Stops,
    }
}

fn do_end(depth: u32, symbol: Symbol) -> Entry
    ensures { Entered result (goal_of (DoEnd depth)) (symbol_kind symbol) }
{
    match symbol {
        Symbol::While => Entry::Two(Goal::Condition(depth), Goal::Only(Mark::Semicolon)),
        _ => Entry::Stops,
    }
}

fn declared(depth: u32, symbol: Symbol) -> Entry
    ensures { Entered result (goal_of (Declared depth)) (symbol_kind symbol) }
{
    match symbol {
        Symbol::Change(Change::Replaces) => {
            Entry::Two(Goal::Operand(depth), Goal::More(Ender::Declared, depth))
        }
        Symbol::Comma => Entry::One(Goal::Declarator(depth)),
        Symbol::Semicolon => Entry::Nothing,
        _ => Entry::Stops,
    }
}

fn only(mark: Mark, symbol: Symbol) -> Entry
    ensures { Entered result (goal_of (Only mark)) (symbol_kind symbol) }
{
    match (mark, symbol) {
        (Mark::LeftParen, Symbol::LeftParen)
        | (Mark::RightParen, Symbol::RightParen)
        | (Mark::LeftBrace, Symbol::LeftBrace)
        | (Mark::RightBrace, Symbol::RightBrace)
        | (Mark::Semicolon, Symbol::Semicolon)
        | (Mark::Main, Symbol::Main)
        | (Mark::Int, Symbol::Int)
        | (Mark::End, Symbol::End) => Entry::Nothing,
        _ => Entry::Stops,
    }
}

fn maybe_else(depth: u32, symbol: Symbol) -> Entry
    ensures { Entered result (goal_of (MaybeElse depth)) (symbol_kind symbol) }
{
    match symbol {
        Symbol::Else => Entry::One(Goal::Statement(Place::Sub, depth)),
        _ => Entry::Skips,
    }
}

fn condition(depth: u32, symbol: Symbol) -> Entry
    ensures { Entered result (goal_of (Condition depth)) (symbol_kind symbol) }
{
    match symbol {
        Symbol::LeftParen => Entry::Two(Goal::Operand(depth), Goal::More(Ender::Paren, depth)),
        _ => Entry::Stops,
    }
}

fn declarator(depth: u32, symbol: Symbol) -> Entry
    ensures { Entered result (goal_of (Declarator depth)) (symbol_kind symbol) }
{
    match symbol {
        Symbol::Name => Entry::One(Goal::Declared(depth)),
        _ => Entry::Stops,
    }
}

fn some_name(symbol: Symbol) -> Entry
    ensures { Entered result (goal_of SomeName) (symbol_kind symbol) }
{
    match symbol {
        Symbol::Name => Entry::Nothing,
        _ => Entry::Stops,
    }
}

fn parameters(symbol: Symbol) -> Entry
    ensures { Entered result (goal_of Parameters) (symbol_kind symbol) }
{
    match symbol {
        Symbol::Void => Entry::One(Goal::Only(Mark::RightParen)),
        Symbol::RightParen => Entry::Nothing,
        _ => Entry::Stops,
    }
}

fn returned(symbol: Symbol) -> Entry
    ensures { Entered result (goal_of Returned) (symbol_kind symbol) }
{
    match symbol {
        Symbol::Infix(Op::Minus) => Entry::One(Goal::SomeNumber),
        Symbol::Number => Entry::Nothing,
        _ => Entry::Stops,
    }
}

fn some_number(symbol: Symbol) -> Entry
    ensures { Entered result (goal_of SomeNumber) (symbol_kind symbol) }
{
    match symbol {
        Symbol::Number => Entry::Nothing,
        _ => Entry::Stops,
    }
}

/// What a goal makes of a token.
pub fn enter(goal: Goal, symbol: Symbol) -> Entry
    ensures { Entered result (goal_of goal) (symbol_kind symbol) }
{
    match goal {
        Goal::Operand(depth) => operand(depth, symbol),
        Goal::More(ender, depth) => more(ender, depth, symbol),
        Goal::Statement(Place::Sub, depth) => sub(depth, symbol),
        Goal::Statement(place, depth) => item(place, depth, symbol),
        Goal::AfterName(place, depth) => after_name(place, depth, symbol),
        Goal::MaybeElse(depth) => maybe_else(depth, symbol),
        Goal::Condition(depth) => condition(depth, symbol),
        Goal::DoEnd(depth) => do_end(depth, symbol),
        Goal::Header(depth) => header(depth, symbol),
        Goal::HeaderFirst(depth) => header_first(depth, symbol),
        Goal::HeaderTest(depth) => header_test(depth, symbol),
        Goal::HeaderLast(depth) => header_last(depth, symbol),
        Goal::Updating(ender, depth) => updating(ender, depth, symbol),
        Goal::Declarator(depth) => declarator(depth, symbol),
        Goal::Declared(depth) => declared(depth, symbol),
        Goal::SomeName => some_name(symbol),
        Goal::Parameters => parameters(symbol),
        Goal::Returned => returned(symbol),
        Goal::SomeNumber => some_number(symbol),
        Goal::Only(mark) => only(mark, symbol),
    }
}

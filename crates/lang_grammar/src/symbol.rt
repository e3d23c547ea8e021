//! What the grammar sees of a token.

ghost use Rattle.std.specs.Prelude.{◌≡◌};
ghost use Rattle.lang_grammar.specs.View.{plain_kind};
ghost use Rattle.lang_grammar.specs.Symbols.{symbol_kind};

use lang_tokens::{Kind, Sign, Word};

/// How two numbers are compared.
#[derive(Clone, Copy)]
pub enum Relation {
    Equal,
    Unequal,
    Less,
    AtMost,
    Greater,
    AtLeast,
}

/// A sign that stands between two sides.
#[derive(Clone, Copy)]
pub enum Op {
    Or,
    And,
    Compare(Relation),
    Plus,
    Minus,
    Times,
}

/// What an assignment does: `=`, `+=`, `-=`.
#[derive(Clone, Copy)]
pub enum Change {
    Replaces,
    Adds,
    Subtracts,
}

/// `++` and `--`.
#[derive(Clone, Copy)]
pub enum Direction {
    Up,
    Down,
}

/// `break` and `continue`.
#[derive(Clone, Copy)]
pub enum Jump {
    Breaks,
    Continues,
}

/// `assume` and `assert`.
#[derive(Clone, Copy)]
pub enum Demand {
    Assumes,
    Asserts,
}

/// What a token is to the grammar, whatever its name or number
/// (docs/FORMATS.md, "Grammar").
#[derive(Clone, Copy)]
pub enum Symbol {
    Name,
    Number,
    Infix(Op),
    Bang,
    LeftParen,
    RightParen,
    LeftBrace,
    RightBrace,
    Comma,
    Semicolon,
    Colon,
    Change(Change),
    Step(Direction),
    Int,
    Main,
    Void,
    If,
    Else,
    While,
    Do,
    For,
    Jump(Jump),
    Return,
    Demand(Demand),
    Nondet,
    /// A reserved word or a sign that stands nowhere in a program.
    Other,
    End,
}

fn sign_symbol(sign: Sign) -> Symbol
    ensures { symbol_kind result ≡ plain_kind (Kind.Sign sign) }
{
    match sign {
        Sign::LeftParen => Symbol::LeftParen,
        Sign::RightParen => Symbol::RightParen,
        Sign::LeftBrace => Symbol::LeftBrace,
        Sign::RightBrace => Symbol::RightBrace,
        Sign::Comma => Symbol::Comma,
        Sign::Semicolon => Symbol::Semicolon,
        Sign::Colon => Symbol::Colon,
        Sign::Assign => Symbol::Change(Change::Replaces),
        Sign::PlusAssign => Symbol::Change(Change::Adds),
        Sign::MinusAssign => Symbol::Change(Change::Subtracts),
        Sign::Increment => Symbol::Step(Direction::Up),
        Sign::Decrement => Symbol::Step(Direction::Down),
        Sign::Plus => Symbol::Infix(Op::Plus),
        Sign::Minus => Symbol::Infix(Op::Minus),
        Sign::Star => Symbol::Infix(Op::Times),
        Sign::Bang => Symbol::Bang,
        Sign::Less => Symbol::Infix(Op::Compare(Relation::Less)),
        Sign::LessEqual => Symbol::Infix(Op::Compare(Relation::AtMost)),
        Sign::Greater => Symbol::Infix(Op::Compare(Relation::Greater)),
        Sign::GreaterEqual => Symbol::Infix(Op::Compare(Relation::AtLeast)),
        Sign::EqualEqual => Symbol::Infix(Op::Compare(Relation::Equal)),
        Sign::BangEqual => Symbol::Infix(Op::Compare(Relation::Unequal)),
        Sign::AndAnd => Symbol::Infix(Op::And),
        Sign::OrOr => Symbol::Infix(Op::Or),
        _ => Symbol::Other,
    }
}

fn word_symbol(word: Word) -> Symbol
    ensures { symbol_kind result ≡ plain_kind (Kind.Word word) }
{
    match word {
        Word::Int => Symbol::Int,
        Word::Main => Symbol::Main,
        Word::Void => Symbol::Void,
        Word::If => Symbol::If,
        Word::Else => Symbol::Else,
        Word::While => Symbol::While,
        Word::Do => Symbol::Do,
        Word::For => Symbol::For,
        Word::Break => Symbol::Jump(Jump::Breaks),
        Word::Continue => Symbol::Jump(Jump::Continues),
        Word::Return => Symbol::Return,
        Word::Assume | Word::VerifierAssume => Symbol::Demand(Demand::Assumes),
        Word::Assert | Word::VerifierAssert => Symbol::Demand(Demand::Asserts),
        Word::Nondet | Word::VerifierNondetInt => Symbol::Nondet,
        _ => Symbol::Other,
    }
}

/// What the grammar sees of a token of this kind.
pub fn symbol_of(kind: Kind) -> Symbol
    ensures { symbol_kind result ≡ plain_kind kind }
{
    match kind {
        Kind::Word(word) => word_symbol(word),
        Kind::Name => Symbol::Name,
        Kind::Number(_) => Symbol::Number,
        Kind::Sign(sign) => sign_symbol(sign),
        Kind::Foreign(_) | Kind::Aside(_) => Symbol::Other,
        Kind::End => Symbol::End,
    }
}

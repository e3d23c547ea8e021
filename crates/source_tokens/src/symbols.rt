//! Tokens as the grammar of functions sees them.

ghost use Rattle.std.specs.Prelude.{◌≡◌, ℕ, ℤ, List, Option, IfOk};
ghost use Rattle.source_grammar.specs.Symbols.{symbol_kind};
ghost use Rattle.source_grammar.specs.View.{plain_kind, Are};
ghost use Rattle.source_tokens.specs.declared.definition.Definition.{Definition};
ghost use Rattle.source_tokens.specs.View.{kind_of, sign_kind, word_kind, tokens_of};

use lang_tokens::{Kind, Sign, Token, Word};
use source_grammar::{Change, Demand, Direction, Jump, Op, Piece, Relation, Symbol};
use std::alloc::{AllocError, Global};

fn sign_symbol(sign: Sign) -> Symbol
    ensures { symbol_kind result ≡ sign_kind sign }
{
    match sign {
        Sign::LeftParen => Symbol::LeftParen,
        Sign::RightParen => Symbol::RightParen,
        Sign::LeftBrace => Symbol::LeftBrace,
        Sign::RightBrace => Symbol::RightBrace,
        Sign::Comma => Symbol::Comma,
        Sign::Semicolon => Symbol::Semicolon,
        Sign::Colon => Symbol::Colon,
        Sign::Assign => Symbol::Change(Change::Replaces),
        Sign::PlusAssign => Symbol::Change(Change::Adds),
        Sign::MinusAssign => Symbol::Change(Change::Subtracts),
        Sign::StarAssign => Symbol::Change(Change::Multiplies),
        Sign::SlashAssign => Symbol::Change(Change::Divides),
        Sign::PercentAssign => Symbol::Change(Change::Remains),
        Sign::Increment => Symbol::Step(Direction::Up),
        Sign::Decrement => Symbol::Step(Direction::Down),
        Sign::Plus => Symbol::Infix(Op::Plus),
        Sign::Minus => Symbol::Infix(Op::Minus),
        Sign::Star => Symbol::Infix(Op::Times),
        Sign::Slash => Symbol::Infix(Op::Over),
        Sign::Percent => Symbol::Infix(Op::Remainder),
        Sign::Bang => Symbol::Bang,
        Sign::Less => Symbol::Infix(Op::Compare(Relation::Less)),
        Sign::LessEqual => Symbol::Infix(Op::Compare(Relation::AtMost)),
        Sign::Greater => Symbol::Infix(Op::Compare(Relation::Greater)),
        Sign::GreaterEqual => Symbol::Infix(Op::Compare(Relation::AtLeast)),
        Sign::EqualEqual => Symbol::Infix(Op::Compare(Relation::Equal)),
        Sign::BangEqual => Symbol::Infix(Op::Compare(Relation::Unequal)),
        Sign::AndAnd => Symbol::Infix(Op::And),
        Sign::OrOr => Symbol::Infix(Op::Or),
        Sign::Question => Symbol::Question,
        Sign::LeftBracket => Symbol::LeftBracket,
        Sign::RightBracket => Symbol::RightBracket,
    }
}

fn word_symbol(word: Word) -> Symbol
    ensures { symbol_kind result ≡ word_kind word }
{
    match word {
        Word::Int => Symbol::Int,
        Word::Void => Symbol::Void,
        Word::Main => Symbol::Main,
        Word::Static | Word::Inline | Word::Extern => Symbol::Storage,
        Word::Const => Symbol::Const,
        Word::If => Symbol::If,
        Word::Else => Symbol::Else,
        Word::While => Symbol::While,
        Word::Do => Symbol::Do,
        Word::For => Symbol::For,
        Word::Break => Symbol::Jump(Jump::Breaks),
        Word::Continue => Symbol::Jump(Jump::Continues),
        Word::Return => Symbol::Return,
        Word::Assume | Word::VerifierAssume => Symbol::Demand(Demand::Assumes),
        Word::Assert | Word::VerifierAssert => Symbol::Demand(Demand::Asserts),
        Word::Nondet | Word::VerifierNondetInt => Symbol::Nondet,
        _ => Symbol::Other,
    }
}

/// What a token is to the grammar of functions, whatever its name, its constant or its number.
pub fn symbol_of(token: &Token) -> Symbol
    ensures { (bytes : List ℕ) (value : Option ℤ) → symbol_kind result ≡ plain_kind (kind_of bytes value token.now.kind) }
{
    match token.kind {
        Kind::Word(word) => word_symbol(word),
        Kind::Name => Symbol::Name,
        Kind::Number(_) => Symbol::Number,
        Kind::Sign(sign) => sign_symbol(sign),
        _ => Symbol::Other,
    }
}

/// What tokens are to the grammar of functions, in order.
pub fn pieces_of(alloc: Global, tokens: &[Token]) -> Result<Vec<Piece>, AllocError>
    ensures { IfOk result (λ pieces. (constants : List Definition) (text : List ℕ)
        → Are (tokens_of constants text tokens.now) pieces.items) }
{
    let mut pieces = Vec::new(alloc);
    for token in tokens {
        pieces.push(Piece {
            symbol: symbol_of(token),
            at: token.at,
        })?;
    }
    Ok(pieces)
}

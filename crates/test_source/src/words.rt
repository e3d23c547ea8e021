//! Words as the tokens of a function.

use source_grammar::{Change, Demand, Direction, Jump, Op, Piece, Relation, Symbol};
use std::alloc::AllocError;

// What a sign is, or nothing where the word is none.
fn sign(word: &str) -> Option<Symbol> {
    match word {
        "||" => Some(Symbol::Infix(Op::Or)),
        "&&" => Some(Symbol::Infix(Op::And)),
        "==" => Some(Symbol::Infix(Op::Compare(Relation::Equal))),
        "<" => Some(Symbol::Infix(Op::Compare(Relation::Less))),
        "+" => Some(Symbol::Infix(Op::Plus)),
        "-" => Some(Symbol::Infix(Op::Minus)),
        "*" => Some(Symbol::Infix(Op::Times)),
        "/" => Some(Symbol::Infix(Op::Over)),
        "%" => Some(Symbol::Infix(Op::Remainder)),
        "!" => Some(Symbol::Bang),
        "?" => Some(Symbol::Question),
        ":" => Some(Symbol::Colon),
        "(" => Some(Symbol::LeftParen),
        ")" => Some(Symbol::RightParen),
        "{" => Some(Symbol::LeftBrace),
        "}" => Some(Symbol::RightBrace),
        "[" => Some(Symbol::LeftBracket),
        "]" => Some(Symbol::RightBracket),
        "," => Some(Symbol::Comma),
        ";" => Some(Symbol::Semicolon),
        "=" => Some(Symbol::Change(Change::Replaces)),
        "+=" => Some(Symbol::Change(Change::Adds)),
        "*=" => Some(Symbol::Change(Change::Multiplies)),
        "++" => Some(Symbol::Step(Direction::Up)),
        "--" => Some(Symbol::Step(Direction::Down)),
        _ => None,
    }
}

// What another word is: a reserved one, a number or a name.
fn word_symbol(word: &str) -> Symbol {
    match word {
        "int" => Symbol::Int,
        "void" => Symbol::Void,
        "main" => Symbol::Main,
        "static" | "inline" | "extern" => Symbol::Storage,
        "const" => Symbol::Const,
        "if" => Symbol::If,
        "else" => Symbol::Else,
        "while" => Symbol::While,
        "do" => Symbol::Do,
        "for" => Symbol::For,
        "break" => Symbol::Jump(Jump::Breaks),
        "continue" => Symbol::Jump(Jump::Continues),
        "return" => Symbol::Return,
        "assume" => Symbol::Demand(Demand::Assumes),
        "assert" => Symbol::Demand(Demand::Asserts),
        "nondet" => Symbol::Nondet,
        "goto" => Symbol::Other,
        "0" | "1" | "10" => Symbol::Number,
        _ => Symbol::Name,
    }
}

/// Puts the words between blanks behind the pieces; the place of each is how many words stand before it.
/// The answer is the place behind them.
pub(crate) fn add_words(
    pieces: &mut Vec<Piece>,
    place: u32,
    text: &str,
) -> Result<u32, AllocError> {
    let mut at = place;
    for word in text.split_whitespace() {
        let symbol = match sign(word) {
            Some(symbol) => symbol,
            None => word_symbol(word),
        };
        pieces.push(Piece { symbol, at })?;
        at = at.saturating_add(1);
    }
    Ok(at)
}

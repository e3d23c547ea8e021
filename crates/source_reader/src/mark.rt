//! Signs and words that stand where the grammar asks for them.

ghost use Rattle.std.specs.Prelude.{◌≡◌};
ghost use Rattle.source_grammar.specs.Symbols.{symbol_kind};
ghost use Rattle.source_reader.specs.Marks.{mark_in};

use source_grammar::{Op, Symbol};

/// A sign or a word that stands where the grammar asks for it.
#[derive(Clone, Copy, Debug, PartialEq, Eq)]
pub enum Mark {
    /// `(`
    LeftParen,
    /// `)`
    RightParen,
    /// `{`
    LeftBrace,
    /// `}`
    RightBrace,
    /// `[`
    LeftBracket,
    /// `]`
    RightBracket,
    /// `?`
    Question,
    /// `:`
    Colon,
    /// `,`
    Comma,
    /// `;`
    Semicolon,
    /// `int`
    Int,
    /// `const`
    Const,
    /// `*`
    Star,
    /// `else`
    Else,
    /// `while`
    While,
}

// The mark that a symbol is, if it is one.
pub(crate) fn mark_in(symbol: Symbol) -> Option<Mark>
    ensures { result ≡ mark_in (symbol_kind symbol) }
{
    match symbol {
        Symbol::LeftParen => Some(Mark::LeftParen),
        Symbol::RightParen => Some(Mark::RightParen),
        Symbol::LeftBrace => Some(Mark::LeftBrace),
        Symbol::RightBrace => Some(Mark::RightBrace),
        Symbol::LeftBracket => Some(Mark::LeftBracket),
        Symbol::RightBracket => Some(Mark::RightBracket),
        Symbol::Question => Some(Mark::Question),
        Symbol::Colon => Some(Mark::Colon),
        Symbol::Comma => Some(Mark::Comma),
        Symbol::Semicolon => Some(Mark::Semicolon),
        Symbol::Int => Some(Mark::Int),
        Symbol::Const => Some(Mark::Const),
        Symbol::Infix(Op::Times) => Some(Mark::Star),
        Symbol::Else => Some(Mark::Else),
        Symbol::While => Some(Mark::While),
        _ => None,
    }
}

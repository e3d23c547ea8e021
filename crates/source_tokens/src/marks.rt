//! Tokens as the division of a file into items sees them.

ghost use Rattle.std.specs.Prelude.{◌≡◌, IfOk};
ghost use Rattle.source_tokens.specs.View.{mark_of, marks_of, sign_mark, word_mark};

use lang_tokens::{Kind, Sign, Token, Word};
use source_items::{Bracket, Mark};
use std::alloc::{AllocError, Global};

fn sign_mark(sign: Sign) -> Mark
    ensures { result ≡ sign_mark sign }
{
    match sign {
        Sign::LeftParen => Mark::Opens(Bracket::Round),
        Sign::RightParen => Mark::Closes(Bracket::Round),
        Sign::LeftBrace => Mark::Opens(Bracket::Curly),
        Sign::RightBrace => Mark::Closes(Bracket::Curly),
        Sign::LeftBracket => Mark::Opens(Bracket::Square),
        Sign::RightBracket => Mark::Closes(Bracket::Square),
        Sign::Semicolon => Mark::Semicolon,
        _ => Mark::Other,
    }
}

fn word_mark(word: Word) -> Mark
    ensures { result ≡ word_mark word }
{
    match word {
        Word::Int | Word::Void => Mark::Returned,
        Word::Static | Word::Inline | Word::Extern => Mark::Storage,
        Word::Main
        | Word::Assume
        | Word::VerifierAssume
        | Word::Assert
        | Word::VerifierAssert
        | Word::Nondet
        | Word::VerifierNondetInt => Mark::Name,
        _ => Mark::Other,
    }
}

/// What a token is to the division of a file into items.
pub fn mark_of(token: &Token) -> Mark
    ensures { result ≡ mark_of token.now }
{
    match token.kind {
        Kind::Word(word) => word_mark(word),
        Kind::Name => Mark::Name,
        Kind::Sign(sign) => sign_mark(sign),
        _ => Mark::Other,
    }
}

/// What tokens are to the division of a file into items, in order.
pub fn marks_of(alloc: Global, tokens: &[Token]) -> Result<Vec<Mark>, AllocError>
    ensures { IfOk result (λ marks. marks.items ≡ marks_of tokens.now) }
{
    let mut marks = Vec::new(alloc);
    for token in tokens {
        marks.push(mark_of(token))?;
    }
    Ok(marks)
}

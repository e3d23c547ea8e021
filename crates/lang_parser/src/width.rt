//! How many variables a text declares.

ghost use Rattle.std.specs.Prelude.{◌≡◌, ◌≤◌, ◌-◌, min, map};
ghost use Rattle.lang_grammar.specs.View.{plain_kind, plain_token};
ghost use Rattle.lang_feed.specs.Width.{mark, total};

use lang_tokens::{Kind, Sign, Token, Word};
use lang_tree::MOST_VARIABLES;

// Whether a token stands before a declarator, or is the `int` of `main`.
fn mark(kind: Kind) -> usize
    ensures value { result ≡ mark (plain_kind kind) }
    ensures small { result ≤ 1 }
{
    match kind {
        Kind::Sign(Sign::Comma) | Kind::Word(Word::Int) => 1,
        _ => 0,
    }
}

fn marks(tokens: &[Token]) -> usize
    ensures { result ≡ total mark (map plain_token tokens.now) }
{
    let mut count = 0;
    for token in tokens {
        count += mark(token.kind);
    }
    count
}

/// The number of coefficients of the text's forms: that of its variables, at most `MOST_VARIABLES`.
pub(crate) fn width(tokens: &[Token]) -> usize
    ensures { result ≡ min MOST_VARIABLES (total mark (map plain_token tokens.now) - 1) }
{
    marks(tokens).saturating_sub(1).min(MOST_VARIABLES)
}

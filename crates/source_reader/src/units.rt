//! Where a change, a declarator, a condition, a call or an expression ends, found ahead.

ghost use Rattle.std.specs.Prelude.{◌≡◌, ◌+◌, ◌≤◌, ◌<◌, ◌^◌, ℕ, List, length, map, None};
ghost use Rattle.lang_tokens.specs.declared.token.Token.{Token as CodeToken};
ghost use Rattle.source_grammar.specs.Symbols.{symbol_kind};
ghost use Rattle.source_tokens.specs.View.{kind_of};
ghost use Rattle.source_reader.specs.Units.{Goes, code_turn, turn_in, unit_length};

use lang_tokens::Token;
use source_grammar::Symbol;
use source_tokens::symbol_of;

/// What a token is to the end of a unit, which is a change, a declarator, a condition, a call or an expression.
#[derive(Clone, Copy)]
pub(crate) enum Turn {
    /// It opens a bracket.
    Opens,
    /// It closes one.
    Closes,
    /// It parts what stands beside it.
    Parts,
    /// It does none of this.
    Stays,
}

// The turn that a symbol is.
fn turn_in(symbol: Symbol) -> Turn
    ensures { result ≡ turn_in (symbol_kind symbol) }
{
    match symbol {
        Symbol::LeftParen | Symbol::LeftBracket | Symbol::LeftBrace => Turn::Opens,
        Symbol::RightParen | Symbol::RightBracket | Symbol::RightBrace => Turn::Closes,
        Symbol::Comma | Symbol::Semicolon => Turn::Parts,
        _ => Turn::Stays,
    }
}

// How deep in brackets the next token stands; none where this one ends the unit.
fn behind(depth: usize, turn: Turn) -> Option<usize>
    requires { depth + 1 < 2 ^ 64 }
    ensures { Goes depth turn result }
{
    match turn {
        Turn::Opens => Some(depth + 1),
        Turn::Closes if depth == 0 => None,
        Turn::Closes => Some(depth - 1),
        Turn::Parts if depth == 0 => None,
        Turn::Parts | Turn::Stays => Some(depth),
    }
}

/// How many of these tokens stand before the first that ends the unit which begins with them.
pub(crate) fn unit_length(tokens: &[Token]) -> usize
    ensures length { result ≡ unit_length 0 (map code_turn tokens.now) }
    ensures within { result ≤ length tokens.now }
{
    let mut depth = 0;
    for (place, token) in tokens.iter().enumerate() {
        match behind(depth, turn_in(symbol_of(token))) {
            Some(next) => depth = next,
            None => return place,
        }
    }
    tokens.len()
}

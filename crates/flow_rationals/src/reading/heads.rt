//! What stands first among symbols.

ghost use Rattle.std.specs.Prelude.{◌≡◌, ◌∷◌, ◌↔◌, ℕ, List, IsTrue, MatchOption};
ghost use Rattle.flow_rationals.specs.declared.reading.symbol.Symbol.{Symbol};
ghost use Rattle.flow_rationals.specs.declared.reading.symbol.Symbol.TheVariants.{Named, Number};
ghost use Rattle.flow_rationals.specs.Grammar.{minus_then};
ghost use Rattle.flow_rationals.specs.Found.{mark_symbol, NoMinus};

use crate::reading::literal::Literal;
use crate::reading::symbol::Symbol;
use lang_tree::Name;

/// A symbol that is the same wherever it stands.
#[derive(Clone, Copy)]
pub(crate) enum Mark {
    Plus,
    Star,
    Colon,
    Comma,
    Semicolon,
    Equal,
    LeftParen,
    RightParen,
    Max,
    Min,
    End,
}

// Whether the symbol is this one.
fn is(symbol: &Symbol, mark: Mark) -> bool
    ensures { IsTrue result ↔ symbol.now ≡ mark_symbol mark }
{
    match mark {
        Mark::Plus => matches!(symbol, Symbol::Plus),
        Mark::Star => matches!(symbol, Symbol::Star),
        Mark::Colon => matches!(symbol, Symbol::Colon),
        Mark::Comma => matches!(symbol, Symbol::Comma),
        Mark::Semicolon => matches!(symbol, Symbol::Semicolon),
        Mark::Equal => matches!(symbol, Symbol::Equal),
        Mark::LeftParen => matches!(symbol, Symbol::LeftParen),
        Mark::RightParen => matches!(symbol, Symbol::RightParen),
        Mark::Max => matches!(symbol, Symbol::Max),
        Mark::Min => matches!(symbol, Symbol::Min),
        Mark::End => matches!(symbol, Symbol::End),
    }
}

/// The symbols after this one, if it stands first.
pub(crate) fn behind<'s>(symbols: &'s [Symbol], mark: Mark) -> Option<&'s [Symbol]>
    ensures { MatchOption result ((rest : List Symbol) → symbols.now ≡ mark_symbol mark ∷ rest → ⊥)
        (λ after. symbols.now ≡ mark_symbol mark ∷ after.now) }
{
    match symbols {
        [first, after @ ..] => { if is(first, mark) { Some(after) } else { None } }
        [] => None,
    }
}

/// The number that stands first, its place, and the symbols after it.
pub(crate) fn number<'s>(symbols: &'s [Symbol]) -> Option<(Literal, u32, &'s [Symbol])>
    ensures { MatchOption result ((n at : ℕ) (rest : List Symbol) → symbols.now ≡ Number n at ∷ rest → ⊥)
        (λ found. symbols.now ≡ Number found.0 found.1 ∷ found.2.now) }
{
    match symbols {
        [first, after @ ..] => match first {
            Symbol::Number { value, at } => Some((value.again(), *at, after)),
            _ => None,
        },
        [] => None,
    }
}

/// The name that stands first, its place, and the symbols after it.
pub(crate) fn name<'s>(symbols: &'s [Symbol]) -> Option<(Name, u32, &'s [Symbol])>
    ensures { MatchOption result ((n : List ℕ) (at : ℕ) (rest : List Symbol) → symbols.now ≡ Named n at ∷ rest → ⊥)
        (λ found. symbols.now ≡ Named found.0 found.1 ∷ found.2.now) }
{
    match symbols {
        [first, after @ ..] => match first {
            Symbol::Named { name, at } => Some((name.again(), *at, after)),
            _ => None,
        },
        [] => None,
    }
}

/// The place of the `-` that stands first, if one does, and the symbols after it.
pub(crate) fn minus<'s>(symbols: &'s [Symbol]) -> (Option<u32>, &'s [Symbol])
    ensures spelled { symbols.now ≡ minus_then result.0 result.1.now }
    ensures whole { NoMinus result.0 symbols.now }
{
    match symbols {
        [first, after @ ..] => match first {
            Symbol::Minus { at } => (Some(*at), after),
            _ => (None, symbols),
        },
        [] => (None, symbols),
    }
}

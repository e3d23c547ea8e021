//! The terms that the tokens of a line spell.

ghost use Rattle.std.specs.Prelude.{◌≡◌, ◌≤◌, ◌+◌, ◌≤ℤ◌, ◌↔◌, [], ◌∷◌, ℕ, List, pos, length, slice_range, IsTrue, IfOk, MatchOption};
ghost use Rattle.flow_templates.specs.Grammar.{signed, symbols_of, end};
ghost use Rattle.flow_templates.specs.Pending.{Pending};
ghost use Rattle.flow_templates.specs.Kept.{AllFit, FitsLine, TakesTerm, NoTerm, TakesName, NoName, TakesSign, NoSign, NoRow, SpellsKept};

use crate::term::Term;
use lang_tokens::{Kind, Sign, Token};
use std::alloc::{AllocError, Global};

// A factor times the name that the token is.
fn named<'a>(line: &'a [u8], token: Token, negative: bool, factor: i64) -> Term<'a>
    requires within { token.at + token.len ≤ length line.now }
    requires unsigned { pos 0 ≤ℤ factor }
    ensures coefficient { result.coefficient ≡ signed negative factor }
    ensures name { result.name.now ≡ slice_range line.now token.at (token.at + token.len) }
{
    let at = token.at as usize;
    Term {
        coefficient: if negative { -factor } else { factor },
        name: &line[at..at + token.len as usize],
    }
}

// A factor times the name that stands first behind a `*`, and the tokens after it.
fn multiple<'a, 't>(
    line: &'a [u8],
    tokens: &'t [Token],
    negative: bool,
    factor: i64,
) -> Option<(Term<'a>, &'t [Token])>
    requires fit { AllFit line.now tokens.now }
    requires unsigned { pos 0 ≤ℤ factor }
    ensures { MatchOption result (NoName (symbols_of line.now tokens.now))
        (λ found. TakesName line.now tokens.now negative factor found.0 found.1.now) }
{
    match tokens {
        [star, name, after @ ..] => match (star.kind, name.kind) {
            (Kind::Sign(Sign::Star), Kind::Name) => {
                Some((named(line, *name, negative, factor), after))
            }
            _ => None,
        },
        _ => None,
    }
}

// The term that stands first, without its sign, and the tokens after it.
fn unsigned<'a, 't>(
    line: &'a [u8],
    tokens: &'t [Token],
    negative: bool,
) -> Option<(Term<'a>, &'t [Token])>
    requires { AllFit line.now tokens.now }
    ensures { MatchOption result (NoTerm (symbols_of line.now tokens.now))
        (λ found. TakesTerm line.now tokens.now negative found.0 found.1.now) }
{
    match tokens {
        [first, after @ ..] => match first.kind {
            Kind::Name => Some((named(line, *first, negative, 1), after)),
            Kind::Number(factor) => multiple(line, after, negative, factor),
            _ => None,
        },
        [] => None,
    }
}

// The sign that stands first, as whether it is `-`, and the tokens after it.
fn sign<'t>(line: &[u8], tokens: &'t [Token]) -> Option<(bool, &'t [Token])>
    requires { AllFit line.now tokens.now }
    ensures { MatchOption result (NoSign (symbols_of line.now tokens.now))
        (λ found. TakesSign line.now tokens.now found.0 found.1.now) }
{
    match tokens {
        [first, after @ ..] => match first.kind {
            Kind::Sign(Sign::Plus) => Some((false, after)),
            Kind::Sign(Sign::Minus) => Some((true, after)),
            _ => None,
        },
        [] => None,
    }
}

// Whether the line ends here.
fn is_end(line: &[u8], tokens: &[Token]) -> bool
    ensures { IsTrue result ↔ (symbols_of line.now tokens.now ≡ end ∷ []) }
{
    match tokens {
        [last] => matches!(last.kind, Kind::End),
        _ => false,
    }
}

// Whether the first term has a `-`, and the tokens behind its sign, if it has one.
fn start<'t>(line: &[u8], tokens: &'t [Token]) -> (bool, &'t [Token])
    requires { AllFit line.now tokens.now }
    ensures pending { Pending (symbols_of line.now tokens.now) [] result.0 (symbols_of line.now result.1.now) }
    ensures fit { AllFit line.now result.1.now }
{
    match sign(line, tokens) {
        Some(found) => found,
        None => (false, tokens),
    }
}

/// The terms that all the tokens spell, if they spell a row.
pub(crate) fn terms<'a>(
    alloc: Global,
    line: &'a [u8],
    tokens: &[Token],
) -> Result<Option<Vec<Term<'a>>>, AllocError>
    requires { AllFit line.now tokens.now }
    ensures { IfOk result (λ found. MatchOption found (NoRow (symbols_of line.now tokens.now))
        (λ terms. SpellsKept (symbols_of line.now tokens.now) terms.items)) }
{
    let mut terms = Vec::new(alloc);
    let (mut negative, mut rest) = start(line, tokens);
    'terms: loop {
        let Some((term, after)) = unsigned(line, rest, negative) else {
            return Ok(None);
        };
        terms.push(term)?;
        let Some((next, others)) = sign(line, after) else {
            if is_end(line, after) {
                return Ok(Some(terms));
            }
            return Ok(None);
        };
        negative = next;
        rest = others;
    }
}

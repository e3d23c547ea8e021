//! The equations that symbols spell. What is found is the only one that there can be.

ghost use Rattle.std.specs.Prelude.{◌≡◌, ◌∷◌, ◌<◌, List, length, IfOk, IfSome, MatchOption};
ghost use Rattle.flow_rationals.specs.declared.reading.symbol.Symbol.{Symbol};
ghost use Rattle.flow_rationals.specs.declared.reading.symbol.Symbol.TheVariants.{Equal, Max, Min, LeftParen, RightParen, Semicolon};
ghost use Rattle.flow_rationals.specs.declared.reading.written.Addends.{Addends};
ghost use Rattle.flow_rationals.specs.declared.reading.written.Choice.{Choice};
ghost use Rattle.flow_rationals.specs.declared.reading.written.Choice.TheVariants.{Least};
ghost use Rattle.flow_rationals.specs.declared.reading.written.Written.{Written};
ghost use Rattle.flow_rationals.specs.Grammar.{minus_then, ratio_then, sum_then, sums_then, choice_then, choices_then, equation_then};
ghost use Rattle.flow_rationals.specs.Grammar.{Spells};
ghost use Rattle.flow_rationals.specs.Found.{EndsSum, Finds};

use crate::reading::heads::{Mark, behind, minus, name};
use crate::reading::parts::{ratio, sum};
use crate::reading::symbol::Symbol;
use crate::reading::written::{Addends, Choice, Written};
use base_list::Sequence;
use lang_tree::Name;
use std::alloc::{AllocError, Global};

// The further sums of a minimum up to its `)`, and the symbols after it.
fn sums<'s>(
    alloc: Global,
    symbols: &'s [Symbol],
) -> Result<Option<(Sequence<Addends>, &'s [Symbol])>, AllocError>
    ensures found { IfOk result (λ found. (sums : List Addends) (rest : List Symbol) → symbols.now ≡ sums_then sums rest
        → Finds found sums rest) }
    ensures shorter { IfOk result (λ found. IfSome found (λ f. length f.1.now < length symbols.now)) }
{
    let mut sums = Vec::new(alloc);
    let mut rest = symbols;
    'sums: while let Some(others) = behind(rest, Mark::Comma) {
        let Some((next, after)) = sum(alloc, others)? else {
            return Ok(None);
        };
        sums.push(next)?;
        rest = after;
    }
    match behind(rest, Mark::RightParen) {
        Some(after) => Ok(Some((Sequence::new(sums), after))),
        None => Ok(None),
    }
}

// The sums of a minimum whose `min` and `(` came before, and the symbols after its `)`.
fn least<'s>(
    alloc: Global,
    symbols: &'s [Symbol],
) -> Result<Option<(Choice, &'s [Symbol])>, AllocError>
    ensures found { IfOk result (λ found. (s : Addends) (sums : List Addends) (rest : List Symbol)
        → symbols.now ≡ sum_then s (sums_then sums rest)
        → Finds found (Least s sums) rest) }
    ensures shorter { IfOk result (λ found. IfSome found (λ f. length f.1.now < length symbols.now)) }
{
    let Some((first, after)) = sum(alloc, symbols)? else {
        return Ok(None);
    };
    let Some((more, rest)) = sums(alloc, after)? else {
        return Ok(None);
    };
    Ok(Some((Choice::Least { first, more }, rest)))
}

// The symbols after `min` and `(`, if these stand first.
fn minimum<'s>(symbols: &'s [Symbol]) -> Option<&'s [Symbol]>
    ensures { MatchOption result ((rest : List Symbol) → symbols.now ≡ Min ∷ LeftParen ∷ rest → ⊥)
        (λ after. symbols.now ≡ Min ∷ LeftParen ∷ after.now) }
{
    match behind(symbols, Mark::Min) {
        Some(after) => behind(after, Mark::LeftParen),
        None => None,
    }
}

// The alternative that stands first, and the symbols after it.
fn choice<'s>(
    alloc: Global,
    symbols: &'s [Symbol],
) -> Result<Option<(Choice, &'s [Symbol])>, AllocError>
    ensures found { IfOk result (λ found. (c : Choice) (rest : List Symbol) → EndsSum rest → symbols.now ≡ choice_then c rest
        → Finds found c rest) }
    ensures shorter { IfOk result (λ found. IfSome found (λ f. length f.1.now < length symbols.now)) }
{
    match minimum(symbols) {
        Some(after) => least(alloc, after),
        None => match sum(alloc, symbols)? {
            Some((sum, rest)) => Ok(Some((Choice::Alone(sum), rest))),
            None => Ok(None),
        },
    }
}

// The alternatives up to the `)` and `;` of their equation, and the symbols after these.
fn choices<'s>(
    alloc: Global,
    symbols: &'s [Symbol],
) -> Result<Option<(Sequence<Choice>, &'s [Symbol])>, AllocError>
    ensures found { IfOk result (λ found. (cs : List Choice) (rest : List Symbol) → symbols.now ≡ choices_then cs rest
        → Finds found cs rest) }
    ensures shorter { IfOk result (λ found. IfSome found (λ f. length f.1.now < length symbols.now)) }
{
    let mut choices = Vec::new(alloc);
    let mut rest = symbols;
    'choices: while let Some(others) = behind(rest, Mark::Comma) {
        let Some((next, after)) = choice(alloc, others)? else {
            return Ok(None);
        };
        choices.push(next)?;
        rest = after;
    }
    match ending(rest) {
        Some(after) => Ok(Some((Sequence::new(choices), after))),
        None => Ok(None),
    }
}

// The symbols after `)` and `;`, if these stand first.
fn ending<'s>(symbols: &'s [Symbol]) -> Option<&'s [Symbol]>
    ensures { MatchOption result ((rest : List Symbol) → symbols.now ≡ RightParen ∷ Semicolon ∷ rest → ⊥)
        (λ after. symbols.now ≡ RightParen ∷ Semicolon ∷ after.now) }
{
    match behind(symbols, Mark::RightParen) {
        Some(after) => behind(after, Mark::Semicolon),
        None => None,
    }
}

// The symbols after `=`, `max` and `(`, if these stand first.
fn beginning<'s>(symbols: &'s [Symbol]) -> Option<&'s [Symbol]>
    ensures { MatchOption result ((rest : List Symbol) → symbols.now ≡ Equal ∷ Max ∷ LeftParen ∷ rest → ⊥)
        (λ after. symbols.now ≡ Equal ∷ Max ∷ LeftParen ∷ after.now) }
{
    match behind(symbols, Mark::Equal) {
        Some(word) => match behind(word, Mark::Max) {
            Some(paren) => behind(paren, Mark::LeftParen),
            None => None,
        },
        None => None,
    }
}

// The start and the alternatives of an equation with this name, and the symbols after its `;`.
fn body<'s>(
    alloc: Global,
    name: Name,
    at: u32,
    symbols: &'s [Symbol],
) -> Result<Option<(Written, &'s [Symbol])>, AllocError>
    ensures found { IfOk result (λ found. (e : Written) (rest : List Symbol) → name ≡ e.name → at ≡ e.at
        → symbols.now ≡ minus_then e.minus (ratio_then e.start (choices_then e.choices rest)) → Finds found e rest) }
    ensures shorter { IfOk result (λ found. IfSome found (λ f. length f.1.now < length symbols.now)) }
{
    let (minus, number) = minus(symbols);
    let Some((start, after)) = ratio(number) else {
        return Ok(None);
    };
    let Some((choices, rest)) = choices(alloc, after)? else {
        return Ok(None);
    };
    let written = Written {
        name,
        at,
        minus,
        start,
        choices,
    };
    Ok(Some((written, rest)))
}

// The equation that stands first, and the symbols after it.
fn equation<'s>(
    alloc: Global,
    symbols: &'s [Symbol],
) -> Result<Option<(Written, &'s [Symbol])>, AllocError>
    ensures found { IfOk result (λ found. (e : Written) (rest : List Symbol) → symbols.now ≡ equation_then e rest → Finds found e rest) }
    ensures shorter { IfOk result (λ found. IfSome found (λ f. length f.1.now < length symbols.now)) }
{
    let Some((name, at, after)) = name(symbols) else {
        return Ok(None);
    };
    let Some(inner) = beginning(after) else {
        return Ok(None);
    };
    body(alloc, name, at, inner)
}

/// The equations that all the symbols spell, if they spell some.
pub(crate) fn equations(
    alloc: Global,
    symbols: &[Symbol],
) -> Result<Option<Vec<Written>>, AllocError>
    ensures { IfOk result (λ found. (es : List Written) → Spells symbols.now es → MatchOption found ⊥ (λ list. list.items ≡ es)) }
{
    let mut equations = Vec::new(alloc);
    let mut rest = symbols;
    'equations: while let None = behind(rest, Mark::End) {
        let Some((next, after)) = equation(alloc, rest)? else {
            return Ok(None);
        };
        equations.push(next)?;
        rest = after;
    }
    Ok(Some(equations))
}

//! The parts and sums that symbols spell. What is found is the only one that there can be.

ghost use Rattle.std.specs.Prelude.{◌≡◌, ◌∷◌, ◌<◌, ◌≤◌, ℕ, List, Option, Some, None, length, IfOk, IfSome};
ghost use Rattle.flow_rationals.specs.declared.reading.symbol.Symbol.{Symbol};
ghost use Rattle.flow_rationals.specs.declared.reading.symbol.Symbol.TheVariants.{Named, Star};
ghost use Rattle.flow_rationals.specs.declared.reading.written.Below.{Below};
ghost use Rattle.flow_rationals.specs.declared.reading.written.Ratio.{Ratio};
ghost use Rattle.flow_rationals.specs.declared.reading.written.Part.{Part};
ghost use Rattle.flow_rationals.specs.declared.reading.written.Part.TheVariants.{Multiple, Constant};
ghost use Rattle.flow_rationals.specs.declared.reading.written.Addends.{Addends};
ghost use Rattle.flow_rationals.specs.Grammar.{below_then, ratio_then, part_then, sum_then};
ghost use Rattle.flow_rationals.specs.Found.{NoColon, EndsPart, EndsSum, Finds};

use crate::reading::heads::{Mark, behind, minus, name, number};
use crate::reading::symbol::Symbol;
use crate::reading::written::{Addends, Below, Part, Ratio};
use base_list::Sequence;
use std::alloc::{AllocError, Global};

// `:` and a number, if they stand first, and the symbols after them.
fn below<'s>(symbols: &'s [Symbol]) -> Option<(Option<Below>, &'s [Symbol])>
    ensures found { (b : Option Below) (rest : List Symbol) → NoColon rest → symbols.now ≡ below_then b rest → Finds result b rest }
    ensures shorter { IfSome result (λ found. length found.1.now ≤ length symbols.now) }
{
    match behind(symbols, Mark::Colon) {
        Some(after) => match number(after) {
            Some((den, at, rest)) => Some((Some(Below { den, at }), rest)),
            None => None,
        },
        None => Some((None, symbols)),
    }
}

/// The ratio that stands first, and the symbols after it.
pub(crate) fn ratio<'s>(symbols: &'s [Symbol]) -> Option<(Ratio, &'s [Symbol])>
    ensures found { (r : Ratio) (rest : List Symbol) → NoColon rest → symbols.now ≡ ratio_then r rest → Finds result r rest }
    ensures shorter { IfSome result (λ found. length found.1.now < length symbols.now) }
{
    match number(symbols) {
        Some((num, at, after)) => match below(after) {
            Some((below, rest)) => Some((Ratio { num, at, below }, rest)),
            None => None,
        },
        None => None,
    }
}

// A ratio with a `-` of this place before it, and the symbols after it.
fn negative<'s>(at: u32, symbols: &'s [Symbol]) -> Option<(Part, &'s [Symbol])>
    ensures found { (r : Ratio) (rest : List Symbol) → NoColon rest → symbols.now ≡ ratio_then r rest
        → Finds result (Constant (Some at) r) rest }
    ensures shorter { IfSome result (λ found. length found.1.now < length symbols.now) }
{
    match ratio(symbols) {
        Some((ratio, rest)) => Some((
            Part::Constant {
                minus: Some(at),
                ratio,
            },
            rest,
        )),
        None => None,
    }
}

// What a ratio that stands first makes: a multiple where `*` follows, else a constant; and the symbols after it.
fn factor<'s>(symbols: &'s [Symbol]) -> Option<(Part, &'s [Symbol])>
    ensures multiple { (r : Ratio) (n : List ℕ) (at : ℕ) (rest : List Symbol) → symbols.now ≡ ratio_then r (Star ∷ Named n at ∷ rest)
        → Finds result (Multiple (Some r) n at) rest }
    ensures constant { (r : Ratio) (rest : List Symbol) → EndsPart rest → symbols.now ≡ ratio_then r rest
        → Finds result (Constant None r) rest }
    ensures shorter { IfSome result (λ found. length found.1.now < length symbols.now) }
{
    match ratio(symbols) {
        Some((ratio, after)) => match behind(after, Mark::Star) {
            Some(others) => match name(others) {
                Some((name, at, rest)) => Some((
                    Part::Multiple {
                        factor: Some(ratio),
                        name,
                        at,
                    },
                    rest,
                )),
                None => None,
            },
            None => Some((Part::Constant { minus: None, ratio }, after)),
        },
        None => None,
    }
}

// The part that stands first, and the symbols after it.
fn part<'s>(symbols: &'s [Symbol]) -> Option<(Part, &'s [Symbol])>
    ensures found { (p : Part) (rest : List Symbol) → EndsPart rest → symbols.now ≡ part_then p rest → Finds result p rest }
    ensures shorter { IfSome result (λ found. length found.1.now < length symbols.now) }
{
    match name(symbols) {
        Some((name, at, rest)) => Some((
            Part::Multiple {
                factor: None,
                name,
                at,
            },
            rest,
        )),
        None => match minus(symbols) {
            (Some(at), after) => negative(at, after),
            (None, all) => factor(all),
        },
    }
}

/// The sum that stands first, and the symbols after it.
pub(crate) fn sum<'s>(
    alloc: Global,
    symbols: &'s [Symbol],
) -> Result<Option<(Addends, &'s [Symbol])>, AllocError>
    ensures found { IfOk result (λ found. (s : Addends) (rest : List Symbol) → EndsSum rest → symbols.now ≡ sum_then s rest
        → Finds found s rest) }
    ensures shorter { IfOk result (λ found. IfSome found (λ f. length f.1.now < length symbols.now)) }
{
    let Some((first, after)) = part(symbols) else {
        return Ok(None);
    };
    let mut more = Vec::new(alloc);
    let mut rest = after;
    'parts: while let Some(others) = behind(rest, Mark::Plus) {
        let Some((next, after)) = part(others) else {
            return Ok(None);
        };
        more.push(next)?;
        rest = after;
    }
    let more = Sequence::new(more);
    Ok(Some((Addends { first, more }, rest)))
}

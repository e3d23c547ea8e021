//! The variables and the points that a text names.

ghost use Rattle.std.specs.Prelude.{◌≡◌, ◌≢◌, ◌<◌, ◌≤◌, ◌+◌, ◌++◌, ℕ, List, [], ◌∷◌, IfErr, IfOk, IsFalse, cond, length};
ghost use Rattle.base_limits.specs.declared.limits.TheConstants.{MOST_TEXT_BYTES};
ghost use Rattle.flow_transitions.specs.declared.limits.TheConstants.{MOST_POINTS, MOST_VARIABLES};
ghost use Rattle.flow_transitions.specs.declared.reading.point_name.PointName.{PointName};
ghost use Rattle.flow_transitions.specs.AutoSymbols.{IsSource, seen_at};
ghost use Rattle.flow_transitions.specs.AutoReading.{Advances, at_edge, at_point, at_points, at_variable, past_point, progress, start};
ghost use Rattle.flow_transitions.specs.AutoReading.{unexpected_fault};

use crate::fault::AutoFault;
use crate::limits::{MOST_POINTS, MOST_VARIABLES};
use crate::reading::places::{place_of, point_place};
use crate::reading::point_name::PointName;
use crate::reading::symbol::Symbol;
use crate::reading::tokens::{line, name, place, symbol, unexpected, word};
use lang_parser::{Limit, ParseFault};
use lang_tokens::Token;
use lang_tree::Name;
use std::alloc::Global;

/// The variables that a text names first, and the number of the token behind them.
pub(crate) fn variables(
    alloc: Global,
    text: &[u8],
    tokens: &[Token],
) -> Result<(Vec<Name>, u32), AutoFault>
    requires source { IsSource text.now tokens.now }
    ensures reads { Advances text.now tokens.now start 0 result (λ found. progress found.0.items [] [] at_points) (λ found. found.1) }
    ensures next { IfOk result (λ found. found.1 < length tokens.now) }
    ensures some { IfOk result (λ found. 1 ≤ length found.0.items) }
    ensures few { IfOk result (λ found. length found.0.items ≤ MOST_VARIABLES) }
{
    word(text, tokens, 0, b"vars")?;
    let mut names = Vec::new(alloc);
    let mut at = 1;
    let mut more = true;
    'names: while more {
        let (name, comma) = variable(text, tokens, at, &names)?;
        names.push(name)?;
        at += 2;
        more = comma;
    }
    Ok((names, at))
}

/// The variable that stands there behind these, and whether `,` stands behind it, and not `;`.
fn variable(
    text: &[u8],
    tokens: &[Token],
    at: u32,
    names: &[Name],
) -> Result<(Name, bool), AutoFault>
    requires source { IsSource text.now tokens.now }
    requires at { at < length tokens.now }
    ensures reads { Advances text.now tokens.now (progress names.now [] [] at_variable) at result
        (λ found. progress (names.now ++ found.0 ∷ []) [] [] (cond found.1 at_variable at_points)) (λ found. at + 2) }
    ensures next { IfOk result (λ _. at + 2 < length tokens.now) }
    ensures room { IfOk result (λ _. length names.now < MOST_VARIABLES) }
{
    let name = name(text, tokens, at)?;
    if let Some(_) = place_of(&name, names) {
        return Err(AutoFault::Parse(ParseFault::NameTwice {
            at: place(text, tokens, at),
        }));
    }
    if names.len() >= MOST_VARIABLES {
        return Err(AutoFault::Parse(ParseFault::Limit {
            at: place(text, tokens, at),
            which: Limit::Variables,
        }));
    }
    let comma = comma(text, tokens, at + 1)?;
    Ok((name, comma))
}

/// Whether `,` stands there; else it has to be `;`.
fn comma(text: &[u8], tokens: &[Token], at: u32) -> Result<bool, AutoFault>
    requires source { IsSource text.now tokens.now }
    requires at { at < length tokens.now }
    ensures symbol { IfOk result (λ comma. (seen_at text.now tokens.now at).symbol ≡ cond comma Symbol.Comma Symbol.Semicolon) }
    ensures next { IfOk result (λ _. at + 1 < length tokens.now) }
    ensures fault { IfErr result (λ fault. fault ≡ unexpected_fault (seen_at text.now tokens.now at)) }
    ensures no_comma { IfErr result (λ _. (seen_at text.now tokens.now at).symbol ≢ Symbol.Comma) }
    ensures no_semicolon { IfErr result (λ _. (seen_at text.now tokens.now at).symbol ≢ Symbol.Semicolon) }
{
    match symbol(text, tokens, at) {
        Symbol::Comma => Ok(true),
        Symbol::Semicolon => Ok(false),
        _ => Err(unexpected(text, tokens, at)),
    }
}

/// The points that a text names from this token on, and the number of the token behind them.
pub(crate) fn points(
    alloc: Global,
    text: &[u8],
    tokens: &[Token],
    at: u32,
) -> Result<(Vec<PointName>, u32), AutoFault>
    requires source { IsSource text.now tokens.now }
    requires at { at < length tokens.now }
    ensures reads { (variables : List (List ℕ)) → Advances text.now tokens.now (progress variables [] [] at_points) at result
        (λ found. progress variables found.0.items [] at_edge) (λ found. found.1) }
    ensures next { IfOk result (λ found. found.1 < length tokens.now) }
    ensures some { IfOk result (λ found. 2 ≤ length found.0.items) }
    ensures few { IfOk result (λ found. length found.0.items ≤ MOST_POINTS) }
{
    word(text, tokens, at, b"points")?;
    let mut points = Vec::new(alloc);
    let mut at = at + 1;
    let mut more = true;
    'points: while more {
        let (point, comma) = point(text, tokens, at, &points)?;
        points.push(point)?;
        at += 2;
        more = comma;
    }
    Ok((points, at))
}

/// The point that stands there behind these, and whether `,` stands behind it, and not `;`, where the points are counted.
fn point(
    text: &[u8],
    tokens: &[Token],
    at: u32,
    points: &[PointName],
) -> Result<(PointName, bool), AutoFault>
    requires source { IsSource text.now tokens.now }
    requires at { at < length tokens.now }
    requires few { length points.now ≤ MOST_TEXT_BYTES + 1 }
    ensures reads { (variables : List (List ℕ)) → Advances text.now tokens.now (progress variables points.now [] at_point) at result
        (λ found. progress variables (points.now ++ found.0 ∷ []) [] (cond found.1 at_point at_edge)) (λ found. at + 2) }
    ensures next { IfOk result (λ _. at + 2 < length tokens.now) }
    ensures counted { IfOk result (λ found. IsFalse found.1 → (1 ≤ length points.now) × (length points.now < MOST_POINTS)) }
{
    let name = name(text, tokens, at)?;
    if let Some(_) = point_place(&name, points) {
        return Err(AutoFault::Parse(ParseFault::NameTwice {
            at: place(text, tokens, at),
        }));
    }
    let comma = comma_behind(text, tokens, at + 1, points.len() as u32 + 1)?;
    let line = line(text, tokens, at);
    Ok((PointName { name, line }, comma))
}

/// Whether `,` stands there behind so many points; else it has to be `;`, and they are counted.
fn comma_behind(text: &[u8], tokens: &[Token], at: u32, count: u32) -> Result<bool, AutoFault>
    requires source { IsSource text.now tokens.now }
    requires at { at < length tokens.now }
    ensures reads { (variables : List (List ℕ)) (points : List PointName) → length points ≡ count →
        Advances text.now tokens.now (progress variables points [] past_point) at result
        (λ comma. progress variables points [] (cond comma at_point at_edge)) (λ _. at + 1) }
    ensures next { IfOk result (λ _. at + 1 < length tokens.now) }
    ensures counted { IfOk result (λ comma. IsFalse comma → (2 ≤ count) × (count ≤ MOST_POINTS)) }
{
    if comma(text, tokens, at)? {
        return Ok(true);
    }
    if count < 2 {
        return Err(AutoFault::Points { count });
    }
    if count > MOST_POINTS {
        return Err(AutoFault::Points { count });
    }
    Ok(false)
}

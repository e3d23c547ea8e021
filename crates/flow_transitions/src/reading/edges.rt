//! The edges of a text.

ghost use Rattle.std.specs.Prelude.{◌≡◌, ◌<◌, ◌≤◌, ◌+◌, ◌++◌, ◌≢◌, List, [], ◌∷◌, Err, IfErr, IfOk, IsTrue, Ok, length};
ghost use Rattle.std.specs.List.{list_all};
ghost use Rattle.flow_transitions.specs.declared.limits.TheConstants.{MOST_POINTS, MOST_VARIABLES};
ghost use Rattle.flow_transitions.specs.declared.auto_edge.AutoEdge.{AutoEdge};
ghost use Rattle.flow_transitions.specs.AutoLimits.{is_auto_edge};
ghost use Rattle.flow_transitions.specs.AutoSymbols.{IsSource, seen_at};
ghost use Rattle.flow_transitions.specs.AutoReading.{Advances, at_edge, at_end, point_at, progress, target_at};

use crate::auto_edge::AutoEdge;
use crate::fault::AutoFault;
use crate::reading::acts::acts;
use crate::reading::places::point_place;
use crate::reading::point_name::PointName;
use crate::reading::symbol::Symbol;
use crate::reading::tokens::{line, name, place, sign, symbol, word};
use lang_tokens::Token;
use lang_tree::{Block, Name};
use std::alloc::Global;

/// The edges from this token on, up to the end.
pub(crate) fn edges(
    alloc: Global,
    text: &[u8],
    tokens: &[Token],
    at: u32,
    names: &[Name],
    points: &[PointName],
) -> Result<(Vec<AutoEdge>, u32), AutoFault>
    requires source { IsSource text.now tokens.now }
    requires at { at < length tokens.now }
    requires names { length names.now ≤ MOST_VARIABLES }
    requires points { length points.now ≤ MOST_POINTS }
    ensures reads { Advances text.now tokens.now (progress names.now points.now [] at_edge) at result
        (λ found. progress names.now points.now found.0.items at_end) (λ found. found.1) }
    ensures edges { IfOk result (λ found. IsTrue (list_all (is_auto_edge (length names.now) (length points.now)) found.0.items)) }
{
    let mut edges = Vec::new(alloc);
    let mut at = at;
    'edges: while symbol(text, tokens, at) != Symbol::End {
        let (edge, next) = edge(alloc, text, tokens, at, names, points)?;
        edges.push(edge)?;
        at = next;
    }
    Ok((edges, at + 1))
}

/// The edge that stands there, where the end doesn't, and the number of the token behind its `}`.
fn edge(
    alloc: Global,
    text: &[u8],
    tokens: &[Token],
    at: u32,
    names: &[Name],
    points: &[PointName],
) -> Result<(AutoEdge, u32), AutoFault>
    requires source { IsSource text.now tokens.now }
    requires at { at < length tokens.now }
    requires no_end { (seen_at text.now tokens.now at).symbol ≢ Symbol.End }
    requires names { length names.now ≤ MOST_VARIABLES }
    requires points { length points.now ≤ MOST_POINTS }
    ensures reads { (edges : List AutoEdge) → Advances text.now tokens.now (progress names.now points.now edges at_edge) at result
        (λ found. progress names.now points.now (edges ++ found.0 ∷ []) at_edge) (λ found. found.1) }
    ensures later { IfOk result (λ found. at < found.1) }
    ensures next { IfOk result (λ found. found.1 < length tokens.now) }
    ensures edge { IfOk result (λ found. IsTrue (is_auto_edge (length names.now) (length points.now) found.0)) }
{
    word(text, tokens, at, b"edge")?;
    let line = line(text, tokens, at);
    let source = at + 1;
    let from = point(text, tokens, source, points)?;
    let behind = source + 1;
    let to = target(text, tokens, behind, points)?;
    let opening = behind + 1;
    sign(text, tokens, opening, Symbol::LeftBrace)?;
    let (acts, next) = acts(alloc, text, tokens, opening + 1, names)?;
    let edge = AutoEdge {
        from,
        to,
        acts: Block::new(acts),
        line,
        at: place(text, tokens, source),
    };
    Ok((edge, next))
}

/// The number of the point whose name stands there.
fn point(text: &[u8], tokens: &[Token], at: u32, points: &[PointName]) -> Result<u32, AutoFault>
    requires source { IsSource text.now tokens.now }
    requires at { at < length tokens.now }
    requires points { length points.now ≤ MOST_POINTS }
    ensures point { IfOk result (λ point. point_at (seen_at text.now tokens.now at) points.now ≡ Ok point) }
    ensures inside { IfOk result (λ point. point < length points.now) }
    ensures next { IfOk result (λ _. at + 1 < length tokens.now) }
    ensures fault { IfErr result (λ fault. point_at (seen_at text.now tokens.now at) points.now ≡ Err fault) }
{
    let name = name(text, tokens, at)?;
    match point_place(&name, points) {
        Some(point) => Ok(point as u32),
        None => Err(AutoFault::UnknownPoint {
            at: place(text, tokens, at),
        }),
    }
}

/// The number of the point whose name stands there, which isn't the first.
fn target(text: &[u8], tokens: &[Token], at: u32, points: &[PointName]) -> Result<u32, AutoFault>
    requires source { IsSource text.now tokens.now }
    requires at { at < length tokens.now }
    requires points { length points.now ≤ MOST_POINTS }
    ensures point { IfOk result (λ point. target_at (seen_at text.now tokens.now at) points.now ≡ Ok point) }
    ensures inside { IfOk result (λ point. point < length points.now) }
    ensures later { IfOk result (λ point. 0 < point) }
    ensures next { IfOk result (λ _. at + 1 < length tokens.now) }
    ensures fault { IfErr result (λ fault. target_at (seen_at text.now tokens.now at) points.now ≡ Err fault) }
{
    let point = point(text, tokens, at, points)?;
    if point == 0 {
        return Err(AutoFault::IntoEntry {
            at: place(text, tokens, at),
        });
    }
    Ok(point)
}

//! The acts of an edge.

ghost use Rattle.std.specs.Prelude.{◌≡◌, ◌<◌, ◌≤◌, ◌+◌, ◌++◌, ◌≢◌, ℕ, List, [], ◌∷◌, IfErr, IfOk, IsTrue, None, Some, length};
ghost use Rattle.flow_transitions.specs.declared.limits.TheConstants.{MOST_VARIABLES};
ghost use Rattle.lang_tree.specs.View.{statement_of, statements_of};
ghost use Rattle.flow_transitions.specs.declared.auto_edge.AutoEdge.{AutoEdge};
ghost use Rattle.flow_transitions.specs.declared.reading.point_name.PointName.{PointName};
ghost use Rattle.flow_transitions.specs.AutoLimits.{are_acts, is_act};
ghost use Rattle.lang_meaning.specs.Names.{place_of};
ghost use Rattle.lang_meaning.specs.Walk.{assignment};
ghost use Rattle.flow_transitions.specs.AutoSymbols.{IsSource, seen_at};
ghost use Rattle.flow_transitions.specs.AutoReading.{Advances, at_act, at_edge, edge_to, progress, with_act};

use crate::fault::AutoFault;
use crate::reading::places::place_of;
use crate::reading::symbol::Symbol;
use crate::reading::tokens::{line, name, place, sign, symbol, unexpected};
use crate::reading::values::{assumed, side, whole};
use lang_parser::ParseFault;
use lang_tokens::Token;
use lang_tree::{Form, Name, Stmt};
use std::alloc::Global;

/// The acts from this token on, up to the `}` behind them, and the number of the token behind it.
pub(crate) fn acts(
    alloc: Global,
    text: &[u8],
    tokens: &[Token],
    at: u32,
    names: &[Name],
) -> Result<(Vec<Stmt>, u32), AutoFault>
    requires source { IsSource text.now tokens.now }
    requires at { at < length tokens.now }
    requires names { length names.now ≤ MOST_VARIABLES }
    ensures reads { (points : List PointName) (edges : List AutoEdge) (line from place to : ℕ) →
        Advances text.now tokens.now (progress names.now points edges (at_act (edge_to line from place to))) at result
        (λ found. progress names.now points (edges ++ (record (edge_to line from place to) { acts = statements_of found.0.items }) ∷ [])
        at_edge) (λ found. found.1) }
    ensures later { IfOk result (λ found. at < found.1) }
    ensures next { IfOk result (λ found. found.1 < length tokens.now) }
    ensures acts { IfOk result (λ found. IsTrue (are_acts (length names.now) (statements_of found.0.items))) }
{
    let mut acts = Vec::new(alloc);
    let mut at = at;
    'acts: while symbol(text, tokens, at) != Symbol::RightBrace {
        let (act, next) = act(alloc, text, tokens, at, names)?;
        acts.push(act)?;
        at = next;
    }
    Ok((acts, at + 1))
}

/// The act that stands there, where no `}` does, and the number of the token behind its `;`.
fn act(
    alloc: Global,
    text: &[u8],
    tokens: &[Token],
    at: u32,
    names: &[Name],
) -> Result<(Stmt, u32), AutoFault>
    requires source { IsSource text.now tokens.now }
    requires at { at < length tokens.now }
    requires names { length names.now ≤ MOST_VARIABLES }
    requires no_end { (seen_at text.now tokens.now at).symbol ≢ Symbol.RightBrace }
    ensures reads { (points : List PointName) (edges : List AutoEdge) (e : AutoEdge) →
        Advances text.now tokens.now (progress names.now points edges (at_act e)) at result
        (λ found. progress names.now points edges (at_act (with_act e (statement_of found.0)))) (λ found. found.1) }
    ensures later { IfOk result (λ found. at < found.1) }
    ensures next { IfOk result (λ found. found.1 < length tokens.now) }
    ensures act { IfOk result (λ found. IsTrue (is_act (length names.now) (statement_of found.0))) }
{
    match symbol(text, tokens, at) {
        Symbol::Assume => assumption(alloc, text, tokens, at, names),
        Symbol::Name => assignment(alloc, text, tokens, at, names),
        _ => Err(unexpected(text, tokens, at)),
    }
}

/// The assumption whose `assume` stands there, and the number of the token behind its `;`.
fn assumption(
    alloc: Global,
    text: &[u8],
    tokens: &[Token],
    at: u32,
    names: &[Name],
) -> Result<(Stmt, u32), AutoFault>
    requires source { IsSource text.now tokens.now }
    requires at { at + 1 < length tokens.now }
    requires names { length names.now ≤ MOST_VARIABLES }
    requires word { (seen_at text.now tokens.now at).symbol ≡ Symbol.Assume }
    ensures reads { (points : List PointName) (edges : List AutoEdge) (e : AutoEdge) →
        Advances text.now tokens.now (progress names.now points edges (at_act e)) at result
        (λ found. progress names.now points edges (at_act (with_act e (statement_of found.0)))) (λ found. found.1) }
    ensures later { IfOk result (λ found. at < found.1) }
    ensures next { IfOk result (λ found. found.1 < length tokens.now) }
    ensures act { IfOk result (λ found. IsTrue (is_act (length names.now) (statement_of found.0))) }
{
    let line = line(text, tokens, at);
    let opening = at + 1;
    sign(text, tokens, opening, Symbol::LeftParen)?;
    let first = opening + 1;
    let read = whole(alloc, text, tokens, first, names)?;
    let closing = read.next;
    let cond = assumed(read.expr, place(text, tokens, first))?;
    sign(text, tokens, closing, Symbol::RightParen)?;
    let end = closing + 1;
    sign(text, tokens, end, Symbol::Semicolon)?;
    Ok((Stmt::Assume { cond, line }, end + 1))
}

/// The assignment whose variable stands there, and the number of the token behind its `;`.
fn assignment(
    alloc: Global,
    text: &[u8],
    tokens: &[Token],
    at: u32,
    names: &[Name],
) -> Result<(Stmt, u32), AutoFault>
    requires source { IsSource text.now tokens.now }
    requires at { at + 1 < length tokens.now }
    requires names { length names.now ≤ MOST_VARIABLES }
    requires word { (seen_at text.now tokens.now at).symbol ≡ Symbol.Name }
    ensures reads { (points : List PointName) (edges : List AutoEdge) (e : AutoEdge) →
        Advances text.now tokens.now (progress names.now points edges (at_act e)) at result
        (λ found. progress names.now points edges (at_act (with_act e (statement_of found.0)))) (λ found. found.1) }
    ensures later { IfOk result (λ found. at < found.1) }
    ensures next { IfOk result (λ found. found.1 < length tokens.now) }
    ensures act { IfOk result (λ found. IsTrue (is_act (length names.now) (statement_of found.0))) }
{
    let line = line(text, tokens, at);
    let var = variable(text, tokens, at, names)?;
    let equal = at + 1;
    sign(text, tokens, equal, Symbol::Equal)?;
    let read = whole(alloc, text, tokens, equal + 1, names)?;
    let end = read.next;
    let side = side(read.expr, place(text, tokens, equal))?;
    sign(text, tokens, end, Symbol::Semicolon)?;
    Ok((assigned(var, side, line), end + 1))
}

/// The number of the variable that stands there.
fn variable(text: &[u8], tokens: &[Token], at: u32, names: &[Name]) -> Result<u32, AutoFault>
    requires source { IsSource text.now tokens.now }
    requires at { at < length tokens.now }
    requires names { length names.now ≤ MOST_VARIABLES }
    requires word { (seen_at text.now tokens.now at).symbol ≡ Symbol.Name }
    ensures place { IfOk result (λ var. place_of (seen_at text.now tokens.now at).bytes names.now ≡ Some var) }
    ensures inside { IfOk result (λ var. var < length names.now) }
    ensures unknown { IfErr result (λ _. place_of (seen_at text.now tokens.now at).bytes names.now ≡ None) }
    ensures fault { IfErr result (λ fault. fault ≡ AutoFault.Parse (ParseFault.UnknownName (seen_at text.now tokens.now at).at)) }
{
    match place_of(&name(text, tokens, at)?, names) {
        Some(var) => Ok(var as u32),
        None => Err(AutoFault::Parse(ParseFault::UnknownName {
            at: place(text, tokens, at),
        })),
    }
}

/// The variable takes the form's value, or any.
fn assigned(var: u32, side: Option<Form>, line: u32) -> Stmt
    ensures { statement_of result ≡ assignment var side line }
{
    match side {
        Some(form) => Stmt::Set { var, form, line },
        None => Stmt::Havoc { var, line },
    }
}

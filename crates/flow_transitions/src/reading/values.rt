//! Expressions as conditions and as right sides.

ghost use Rattle.std.specs.Prelude.{◌≡◌, ◌≢◌, ◌<◌, ◌≤◌, ℕ, IfErr, IfOk, IsTrue, Err, Ok, length};
ghost use Rattle.lang_grammar.specs.View.{tokens_of};
ghost use Rattle.flow_transitions.specs.declared.limits.TheConstants.{MOST_VARIABLES};
ghost use Rattle.lang_tree.specs.Tree.{assume};
ghost use Rattle.lang_tree.specs.Limits.{is_tested};
ghost use Rattle.lang_tree.specs.View.{condition_of};
ghost use Rattle.lang_meaning.specs.declared.fault.ParseFault.{ParseFault};
ghost use Rattle.lang_meaning.specs.Walk.{assignment};
ghost use Rattle.lang_meaning.specs.Expressions.{as_truth};
ghost use Rattle.lang_meaning.specs.ExpressionAnswers.{ExpressionMeans, MeaningFits};
ghost use Rattle.lang_parser.specs.Expressions.{expr_of, read_of};
ghost use Rattle.flow_transitions.specs.declared.fault.AutoFault.TheVariants.{NoMemory};
ghost use Rattle.flow_transitions.specs.declared.auto_edge.AutoEdge.{AutoEdge};
ghost use Rattle.flow_transitions.specs.AutoSymbols.{IsSource};
ghost use Rattle.flow_transitions.specs.AutoReading.{Progress, as_side, assigned, assumed, going, is_side, parse_fault, past_act};
ghost use Rattle.flow_transitions.specs.AutoReading.{past_condition};

use crate::fault::AutoFault;
use lang_parser::{Expr, ParseFault, Read, condition, expression};
use lang_tokens::Token;
use lang_tree::{Cond, Form, Name};
use std::alloc::Global;

/// The longest expression from this token on.
pub(crate) fn whole(
    alloc: Global,
    text: &[u8],
    tokens: &[Token],
    at: u32,
    names: &[Name],
) -> Result<Read, AutoFault>
    requires source { IsSource text.now tokens.now }
    requires at { at < length tokens.now }
    requires names { length names.now ≤ MOST_VARIABLES }
    ensures means { IfOk result (λ read. ExpressionMeans text.now (tokens_of text.now tokens.now) at names.now (Ok (read_of read))) }
    ensures refused { IfErr result (λ fault. fault ≢ NoMemory → (p : ParseFault) × (fault ≡ AutoFault.Parse p)
        × ExpressionMeans text.now (tokens_of text.now tokens.now) at names.now (Err p)) }
    ensures later { IfOk result (λ read. at ≤ read.next) }
    ensures next { IfOk result (λ read. read.next < length tokens.now) }
    ensures fits { IfOk result (λ read. MeaningFits (length names.now) (expr_of read.expr)) }
{
    match expression(alloc, tokens, text, at, names) {
        Ok(read) => Ok(read),
        Err(fault) => Err(refused(fault)),
    }
}

/// A fault of an expression.
fn refused(fault: ParseFault) -> AutoFault
    ensures { result ≡ parse_fault fault }
{
    match fault {
        ParseFault::NoMemory => AutoFault::NoMemory,
        _ => AutoFault::Parse(fault),
    }
}

/// The condition that an assumption has of an expression whose first token has this place.
pub(crate) fn assumed(expr: Expr, first: u32) -> Result<Cond, AutoFault>
    ensures condition { IfOk result (λ c. (e : AutoEdge) (line : ℕ) (r : Progress) →
        assumed (as_truth first (expr_of expr)) e line r ≡ going r (past_condition e (assume (condition_of c) line))) }
    ensures fault { IfErr result (λ fault. fault ≢ NoMemory → (e : AutoEdge) (line : ℕ) (r : Progress) →
        assumed (as_truth first (expr_of expr)) e line r ≡ Err fault) }
    ensures fits { IfOk result (λ c. (n : ℕ) → MeaningFits n (expr_of expr) → IsTrue (is_tested n (condition_of c))) }
{
    match condition(expr, first) {
        Ok(cond) => Ok(cond),
        Err(fault) => Err(refused(fault)),
    }
}

/// The right side that an assignment has of an expression behind a `=` at this place: a form, or any value.
pub(crate) fn side(expr: Expr, sign: u32) -> Result<Option<Form>, AutoFault>
    ensures side { IfOk result (λ side. (e : AutoEdge) (var line : ℕ) (r : Progress) →
        assigned (as_side sign (expr_of expr)) e var line r ≡ going r (past_act e (assignment var side line))) }
    ensures fault { IfErr result (λ fault. (e : AutoEdge) (var line : ℕ) (r : Progress)
        → assigned (as_side sign (expr_of expr)) e var line r ≡ Err fault) }
    ensures fits { IfOk result (λ side. (n : ℕ) → MeaningFits n (expr_of expr) → IsTrue (is_side n side)) }
{
    match expr {
        Expr::Number(form) => Ok(Some(form)),
        Expr::Truth(_) => Err(AutoFault::Parse(ParseFault::NotAffine { at: sign })),
        Expr::Free => Ok(None),
    }
}

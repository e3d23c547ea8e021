//! An expression by itself.
#![tactic(auto, using(lang_meaning::proofs::results::Binds::then_ok, lang_meaning::proofs::results::Binds::then_err))]

ghost use Rattle.std.specs.Prelude.{◌≡◌, ◌≤◌, ◌<◌, ℕ, drop, length, IfOk, IfErr, IsTrue};
ghost use Rattle.base_limits.specs.declared.limits.TheConstants.{MOST_PROGRAM_BYTES};
ghost use Rattle.lang_tree.specs.Limits.{is_tested};
ghost use Rattle.lang_tree.specs.View.{condition_of};
ghost use Rattle.lang_grammar.specs.View.{tokens_of};
ghost use Rattle.lang_tokens.specs.Lines.{line_at};
ghost use Rattle.lang_tokens.specs.TokenLists.{AreTokensOf};
ghost use Rattle.lang_tree.specs.declared.limits.TheConstants.{MOST_VARIABLES};
ghost use Rattle.lang_meaning.specs.declared.fault.ParseFault.TheVariants.{NoMemory};
ghost use Rattle.lang_meaning.specs.ExpressionAnswers.{ExpressionAnswer, ExpressionMeans, HasLongest, IsRefused, MeaningFits};
ghost use Rattle.lang_parser.specs.Expressions.{expr_of, read_of};
ghost use Rattle.lang_meaning.specs.Expressions.{knowing, meaning_of, as_truth};
ghost use Rattle.lang_feed.specs.Readings.{valued, reading_of};
ghost use Rattle.lang_meaning.specs.Gives.{Gives};
ghost use Rattle.lang_meaning.specs.Proper.{AllProper};
ghost use Rattle.lang_reader.specs.Values.{value_of};

use crate::pass::fed;
use crate::turn::in_mode;
use lang_grammar::{Extent, Symbol, examine_expression};
use lang_meaning::{Limit, ParseFault};
use lang_reader::{Lexeme, Mode, Reader, Source, Value, as_condition, tested};
use lang_tokens::Token;
use lang_tree::{Cond, Form, Name};
use std::alloc::Global;

/// What an expression is.
#[derive(Drop)]
pub enum Expr {
    /// A number: a linear form of the variables.
    Number(Form),
    /// A condition of at most 64 leaves.
    Truth(Cond),
    /// `nondet()`.
    Free,
}

/// An expression that was read.
#[derive(Drop)]
pub struct Read {
    pub expr: Expr,
    /// The number of the token behind it, counted from 0.
    pub next: u32,
}

// The first pass: how many tokens the longest expression has that begins at token `from`.
fn reach(alloc: Global, tokens: &[Token], text: &[u8], from: usize) -> Result<usize, ParseFault>
    requires tokens { AreTokensOf text.now tokens.now }
    requires from { from < length tokens.now }
    ensures read { IfOk result (HasLongest (drop from (tokens_of text.now tokens.now))) }
    ensures fault { IfErr result (λ e. (e ≡ NoMemory → ⊥) → IsRefused text.now (tokens_of text.now tokens.now) from e) }
{
    match examine_expression(alloc, &tokens[from..])? {
        Extent::Reaches { count } => Ok(count),
        Extent::Unexpected { at } => Err(ParseFault::Unexpected { at }),
        Extent::Nested { at } => Err(ParseFault::Limit {
            at,
            which: Limit::Nesting,
        }),
        // The tokens end with `End`, which stands in no expression.
        Extent::Short => unreachable!(),
    }
}

// The second pass: the value of an expression that begins at `first`.
fn valued(
    source: &Source,
    tokens: &[Token],
    names: &[Name],
    first: u32,
) -> Result<Value, ParseFault>
    requires names { length names.now ≤ MOST_VARIABLES }
    requires proper { AllProper source.now.text.now tokens.now }
    ensures { Gives value_of result (valued (line_at source.now.text.now) source.now.width (knowing names.now) first
        (tokens_of source.now.text.now tokens.now)) }
{
    let mut reader = Reader::knowing(source.alloc, names)?;
    let mode = fed(source, tokens, &mut reader, Mode::Wants)?;
    let end = Lexeme::Plain(Symbol::Semicolon);
    match in_mode(source, &mut reader, mode, end, first)? {
        Mode::Has(value) => Ok(value),
        _ => Err(ParseFault::Unexpected { at: first }),
    }
}

// What an expression is that begins at `first` and has this value.
fn meaning(first: u32, value: Value) -> Result<Expr, ParseFault>
    ensures { Gives expr_of result (meaning_of first (value_of value)) }
{
    match value {
        Value::Form(form, _) => Ok(Expr::Number(form)),
        Value::Truth(cond) => Ok(Expr::Truth(tested(first, Value::Truth(cond))?)),
        Value::Nondet(_) => Ok(Expr::Free),
    }
}

// Reads the tokens of an expression that begins at `first`; the token behind it has the number `next`.
fn read_tokens(
    alloc: Global,
    tokens: &[Token],
    text: &[u8],
    names: &[Name],
    first: u32,
    next: u32,
) -> Result<Read, ParseFault>
    requires size { length text.now ≤ MOST_PROGRAM_BYTES }
    requires names { length names.now ≤ MOST_VARIABLES }
    requires proper { AllProper text.now tokens.now }
    ensures gives { Gives read_of result (reading_of text.now names.now first (tokens_of text.now tokens.now) next) }
    ensures next { IfOk result (λ read. read.next ≡ next) }
{
    let source = Source {
        alloc,
        text,
        width: names.len(),
    };
    let value = valued(&source, tokens, names, first)?;
    let expr = meaning(first, value)?;
    Ok(Read { expr, next })
}

/// Reads the longest expression that begins at token `from`, over the variables `names`: a variable's number is the first
/// place of its name (docs/FORMATS.md, "Grammar" and "Names and kinds").
///
/// # Errors
///
/// `Unexpected` exactly where the tokens from there begin an expression, aren't one, and with this token begin none. Then the
/// faults of a program's expressions in the order of a text's faults; at most 64 constructs may be open, counted from the
/// expression's beginning, and `Limit` with `Leaves` is at its first token.
pub fn expression(
    alloc: Global,
    tokens: &[Token],
    text: &[u8],
    from: u32,
    names: &[Name],
) -> Result<Read, ParseFault>
    requires size { length text.now ≤ MOST_PROGRAM_BYTES }
    requires tokens { AreTokensOf text.now tokens.now }
    requires from { from < length tokens.now }
    requires names { length names.now ≤ MOST_VARIABLES }
    // What is answered is meant.
    ensures found { (wanted : ExpressionAnswer) × ExpressionMeans text.now
        (tokens_of text.now tokens.now) from names.now wanted × Gives read_of result wanted }
    // What is meant is answered.
    ensures exact { (wanted : ExpressionAnswer) → ExpressionMeans text.now
        (tokens_of text.now tokens.now) from names.now wanted → Gives read_of result wanted }
    // Its numbers are in range, and a condition has at most 64 leaves.
    ensures fits { IfOk result (λ read. MeaningFits (length names.now) (expr_of read.expr)) }
    // The token behind it is there.
    ensures next { IfOk result (λ read. (from ≤ read.next) × (read.next < length tokens.now)) }
{
    let start = from as usize;
    let count = reach(alloc, tokens, text, start)?;
    let end = start + count;
    let first = tokens[start].at;
    read_tokens(alloc, &tokens[start..end], text, names, first, end as u32)
}

/// An expression that begins at `first`, as a condition: a number is compared with 0, `BigNumber` where its constant is too great
/// for that (docs/FORMATS.md, "Names and kinds").
pub fn condition(expr: Expr, first: u32) -> Result<Cond, ParseFault>
    ensures value { Gives condition_of result (as_truth first (expr_of expr)) }
    ensures fits { (n : ℕ) → MeaningFits n (expr_of expr) → IfOk result (λ cond. IsTrue (is_tested n (condition_of cond))) }
{
    match expr {
        Expr::Number(form) => as_condition(Value::Form(form, first)),
        Expr::Truth(cond) => Ok(cond),
        Expr::Free => Ok(Cond::Free),
    }
}

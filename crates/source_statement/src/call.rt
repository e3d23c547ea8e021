//! Calls as statements.

ghost use Rattle.std.specs.Prelude.{◌≡◌, ◌<◌, ◌≤◌, ◌++◌, ◌∷◌, ℕ, Bool, List, length, OnOk};
ghost use Rattle.base_integers.specs.declared.integers.Integers.{Integers};
ghost use Rattle.lang_tokens.specs.Lines.{line_at};
ghost use Rattle.lang_tree.specs.Tree.{nodes_in};
ghost use Rattle.source_grammar.specs.Tokens.{Name, Token, token, a_name, left_paren, right_paren, semicolon};
ghost use Rattle.source_grammar.specs.Grammar.{Arguments, GoodArguments, spell_arguments, calls};
ghost use Rattle.source_core.specs.Core.{core_in};
ghost use Rattle.source_core.specs.Elaborated.{evaluated};
ghost use Rattle.source_value.specs.Stands.{StandsEvaluated};
ghost use Rattle.source_reader.specs.Reading.{at_tokens};
ghost use Rattle.source_meaning.specs.Limits.{counted};
ghost use Rattle.source_meaning.specs.Statements.{call_of, is_end, is_error, read_core};
ghost use Rattle.source_reader.specs.Answers.{Answers};
ghost use Rattle.source_change.specs.Tests.{WasRead, name_of};
ghost use Rattle.source_change.specs.Pushed.{WasPushed};
ghost use Rattle.source_statement.specs.Parts.{read_given};
ghost use Rattle.lang_tree.specs.View.{statement_of};
ghost use Rattle.source_tree.specs.Statements.{never};
ghost use Rattle.source_core.specs.Core as core;
ghost use Rattle.source_core.specs.Core.{core_of};

use lang_tree::{Check, CheckKind, Coeffs, Cond, Form, Rel, Stmt};
use source_change::{Named, push_evaluated, take_name};
use source_expression::arguments;
use source_names::Known;
use source_reader::{Mark, Reader, Scope, Stop};
use source_value::{Evaluated, Site};
use std::alloc::{AllocError, Global};

// Calls that end the run.
fn is_end(name: &[u8]) -> bool
    ensures { result ≡ is_end name.now }
{
    name == b"abort".as_slice() || name == b"exit".as_slice()
}

// Calls that are a place not to be reached.
fn is_error(name: &[u8]) -> bool
    ensures { result ≡ is_error name.now }
{
    name == b"reach_error".as_slice() || name == b"__VERIFIER_error".as_slice()
}

// A place that is not to be reached: its condition is never true.
fn never(alloc: Global, at: u32, line: u32) -> Stmt
    ensures { (integers : Integers) (n : ℕ) → core.one (statement_of result) ≡ core_of integers n (never at line) }
{
    let zero = Form {
        coeffs: Coeffs::new(Vec::new(alloc)),
        constant: 0,
    };
    Stmt::Check {
        check: Check {
            kind: CheckKind::Error,
            at,
        },
        cond: Cond::Cmp(Rel::Ne, zero),
        line,
    }
}

// What the call of this name at `at` does behind its arguments, which counts as statements.
fn push_call(
    reader: &Reader,
    known: &mut Known,
    first: &Named,
    out: &mut Vec<Stmt>,
) -> Result<(), Stop>
    ensures { let after = call_of (name_of first.now) first.now.at (line_at reader.now.text first.now.at) in
        Answers (λ _ st. (known.new ≡ st) × WasPushed reader.now.integers reader.now.variables out.old.items out.new.items after)
        result (counted first.now.at (nodes_in (core_in reader.now.integers reader.now.variables after)) known.old) }
{
    let line = reader.line(first.at);
    if is_error(first.name.bytes()) {
        known.count(first.at, 2)?;
        out.push(never(reader.alloc(), first.at, line))?;
        out.push(Stmt::Return { line })?;
    } else if is_end(first.name.bytes()) {
        known.count(first.at, 1)?;
        out.push(Stmt::Return { line })?;
    } else {
        // None more: those so far are within the limit.
        known.count(first.at, 0)?;
    }
    Ok(())
}

// The arguments of the call of this name, behind it, and its `;`.
fn given(reader: &mut Reader, scope: &Scope, site: Site, first: &Named) -> Result<Evaluated, Stop>
    ensures reads { (b : ℕ) (es : Arguments) (c d : ℕ) (rest : List Token) → GoodArguments es
        → reader.old.ahead ≡ token left_paren b ∷ (spell_arguments es ++ token right_paren c ∷ token semicolon d ∷ rest)
        → Answers (λ all ys. StandsEvaluated site.variables all (evaluated site.integers site.line ys site.variables)
        × (reader.new ≡ at_tokens reader.old rest)) result
        (read_given site.integers site.line site.variables scope.now (name_of first.now) first.now.at es) }
    ensures shorter { OnOk result (length reader.new.ahead ≤ length reader.old.ahead) }
{
    reader.skip();
    scope.called(first.name.bytes(), first.value, first.at)?;
    let all = arguments(reader, scope, site, site.variables)?;
    reader.take(Mark::RightParen)?;
    reader.take(Mark::Semicolon)?;
    Ok(all)
}

// The call that comes next.
pub(crate) fn call(reader: &mut Reader, known: &mut Known, out: &mut Vec<Stmt>) -> Result<(), Stop>
    ensures reads { (inside : Bool) (x : Name) (a b : ℕ) (es : Arguments) (c d : ℕ) (rest : List Token) → GoodArguments es
        → reader.old.ahead ≡ token (a_name x) a ∷ token left_paren b
        ∷ (spell_arguments es ++ token right_paren c ∷ token semicolon d ∷ rest)
        → Answers (λ _ r. WasRead reader.old.integers reader.old.variables rest reader.old reader.new
        known.new out.old.items out.new.items r)
        result (read_core reader.old.integers (line_at reader.old.text) reader.old.variables inside known.old (calls x a b es c d)) }
    ensures shorter { OnOk result (length reader.new.ahead < length reader.old.ahead) }
{
    let scope = reader.scope(known);
    let first = take_name(reader)?;
    let site = reader.site(first.at);
    let all = given(reader, &scope, site, &first)?;
    push_evaluated(known, site, first.at, all, out)?;
    push_call(reader, known, &first, out)
}

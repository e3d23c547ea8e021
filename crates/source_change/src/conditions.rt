//! Conditions of statements.

ghost use Rattle.std.specs.Prelude.{◌≡◌, ◌<◌, ◌≤◌, ◌++◌, ◌∷◌, ℕ, List, length, OnOk};
ghost use Rattle.lang_tokens.specs.Lines.{line_at};
ghost use Rattle.source_grammar.specs.Tokens.{Token, token, left_paren, right_paren};
ghost use Rattle.source_grammar.specs.Grammar.{Expr, Groups, spell_expr};
ghost use Rattle.source_grammar.proofs.grammar.Follow.{AfterPart};
ghost use Rattle.source_core.specs.Core.{condition_of};
ghost use Rattle.source_meaning.specs.Statements.{read_condition};
ghost use Rattle.source_reader.specs.Answers.{Answers};
ghost use Rattle.source_reader.specs.Reading.{at_tokens, first_kind};
ghost use Rattle.source_change.specs.Tests.{IsTest};

use crate::limits::limited_test;
use lang_tree::{Cond, Deed};
use source_expression::condition;
use source_names::Known;
use source_reader::{Mark, Reader, Stop};

/// The condition of a statement, behind its prelude.
#[derive(Drop)]
pub struct Test {
    pub prelude: Vec<Deed>,
    pub cond: Cond,
}

/// The condition of the statement that begins at `at`, within its limits (docs/FORMATS.md, "Functions").
pub fn read_test(reader: &mut Reader, known: &Known, at: u32) -> Result<Test, Stop>
    ensures reads { (e : Expr) (rest : List Token) → Groups 0 e → reader.old.ahead ≡ spell_expr e ++ rest → AfterPart (first_kind rest)
        → Answers (λ t x. IsTest t (condition_of reader.old.integers reader.old.variables (line_at reader.old.text at) x)
        × (reader.new ≡ at_tokens reader.old rest)) result
        (read_condition reader.old.integers (line_at reader.old.text) reader.old.variables known.now at e) }
    ensures shorter { OnOk result (length reader.new.ahead ≤ length reader.old.ahead) }
{
    let scope = reader.scope(known);
    let site = reader.site(at);
    let tested = condition(reader, &scope, site, site.variables)?;
    limited_test(site, at, tested)
}

/// The same in parentheses.
pub fn parenthesised(reader: &mut Reader, known: &Known, at: u32) -> Result<Test, Stop>
    ensures reads { (b : ℕ) (e : Expr) (c : ℕ) (rest : List Token) → Groups 0 e
        → reader.old.ahead ≡ token left_paren b ∷ (spell_expr e ++ token right_paren c ∷ rest)
        → Answers (λ t x. IsTest t (condition_of reader.old.integers reader.old.variables (line_at reader.old.text at) x)
        × (reader.new ≡ at_tokens reader.old rest)) result
        (read_condition reader.old.integers (line_at reader.old.text) reader.old.variables known.now at e) }
    ensures shorter { OnOk result (length reader.new.ahead < length reader.old.ahead) }
{
    reader.take(Mark::LeftParen)?;
    let test = read_test(reader, known, at)?;
    reader.take(Mark::RightParen)?;
    Ok(test)
}

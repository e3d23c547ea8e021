//! `if`.

ghost use Rattle.std.specs.Prelude.{◌≡◌, ◌<◌, ◌++◌, ◌∷◌, ℕ, Bool, List, length, OnOk};
ghost use Rattle.base_integers.specs.declared.integers.Integers.{Integers};
ghost use Rattle.lang_tokens.specs.Lines.{line_at};
ghost use Rattle.source_grammar.specs.Tokens.{Token, token, if_word, left_paren, right_paren};
ghost use Rattle.source_grammar.specs.Grammar.{Expr, Groups, spell_expr, Sub, GoodSub};
ghost use Rattle.source_tree.specs.Expressions.{Expression};
ghost use Rattle.source_tree.specs.Statements.{Statements, branch};
ghost use Rattle.source_core.specs.Core.{condition_of, core_in};
ghost use Rattle.source_meaning.specs.Statements.{one};
ghost use Rattle.source_reader.specs.Answers.{Answers};
ghost use Rattle.source_reader.specs.Reading.{first_kind};
ghost use Rattle.source_change.specs.Tests.{IsTest, WasRead};
ghost use Rattle.source_change.specs.Pushed.{WasPushed};
ghost use Rattle.source_statement.specs.Onto.{onto_sub};
ghost use Rattle.source_statement.specs.Parts.{Other, onto_other, GoodOther, AfterOther, read_branch};

use crate::body::{body, other};
use lang_tree::{Block, Stmt};
use source_change::{Test, parenthesised, push_deeds};
use source_names::Known;
use source_reader::{Reader, Stop};
use std::alloc::AllocError;

// An `if` with its parts.
fn push_branch(
    test: Test,
    first: Block,
    second: Block,
    line: u32,
    out: &mut Vec<Stmt>,
) -> Result<(), AllocError>
    ensures { OnOk result ((integers : Integers) (n : ℕ) (e : Expression) (yes no : Statements) → IsTest test
        (condition_of integers n line e)
        → first ≡ core_in integers n yes → second ≡ core_in integers n no
        → WasPushed integers n out.old.items out.new.items (one (branch e yes no line))) }
{
    push_deeds(out, test.prelude)?;
    out.push(Stmt::If {
        cond: test.cond,
        first,
        second,
        line,
    })?;
    Ok(())
}

// An `if`.
#[cycle(statement)]
pub(crate) fn branch(
    reader: &mut Reader,
    known: &mut Known,
    inside: bool,
    out: &mut Vec<Stmt>,
) -> Result<(), Stop>
    ensures reads { (a b : ℕ) (e : Expr) (c : ℕ) (s : Sub) (o : Other) (rest : List Token) → Groups 0 e → GoodSub s → GoodOther s o
        → reader.old.ahead ≡ token if_word a ∷ token left_paren b ∷ (spell_expr e ++ token right_paren c ∷ onto_sub s (onto_other o rest))
        → AfterOther o (first_kind rest)
        → Answers (λ _ r. WasRead reader.old.integers reader.old.variables rest reader.old reader.new
        known.new out.old.items out.new.items r)
        result (read_branch reader.old.integers (line_at reader.old.text) reader.old.variables inside known.old a e s o) }
    ensures shorter { OnOk result (length reader.new.ahead < length reader.old.ahead) }
{
    let at = reader.at();
    reader.skip();
    let test = parenthesised(reader, known, at)?;
    known.count(at, test.prelude.len() + 1)?;
    let first = body(reader, known, inside)?;
    let second = other(reader, known, inside)?;
    push_branch(test, first, second, reader.line(at), out)?;
    Ok(())
}

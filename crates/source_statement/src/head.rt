//! Heads of `for`.

ghost use Rattle.std.specs.Prelude.{◌≡◌, ◌<◌, ◌≤◌, ◌++◌, ◌∷◌, ℕ, List, length, OnOk};
ghost use Rattle.base_integers.specs.declared.integers.Integers.{Integers};
ghost use Rattle.lang_tokens.specs.Lines.{line_at};
ghost use Rattle.source_grammar.specs.Tokens.{Token, token, left_paren, right_paren, semicolon};
ghost use Rattle.source_grammar.specs.Grammar.{ForFirst, GoodFirst, Optional, GoodOptional, Updates, GoodUpdates};
ghost use Rattle.source_core.specs.Core.{condition_of};
ghost use Rattle.source_meaning.specs.Statements.{always, read_first, read_test};
ghost use Rattle.source_reader.specs.Answers.{Answers};
ghost use Rattle.source_reader.specs.Reading.{at_tokens};
ghost use Rattle.source_change.specs.Onto.{onto_updates};
ghost use Rattle.source_change.specs.Tests.{IsTest, WasRead};
ghost use Rattle.source_statement.specs.Onto.{onto_first, onto_optional};
ghost use Rattle.source_statement.specs.Parts.{read_head};
ghost use Rattle.source_statement.specs.Headed.{WasHeaded};

use crate::parameters::pass_type;
use crate::starts::{Start, coming};
use lang_tree::{Coeffs, Cond, Deed, Form, Rel, Stmt};
use source_change::{Test, declarators, push_deeds, read_test, updates};
use source_names::Known;
use source_reader::{Mark, Reader, Stop};
use std::alloc::Global;

// The condition and the changes of a `for`.
#[derive(Drop)]
pub(crate) struct Head {
    pub test: Test,
    pub change: Vec<Deed>,
}

// The first part of the head, whose statements come behind those that are there.
fn first(reader: &mut Reader, known: &mut Known, out: &mut Vec<Stmt>) -> Result<(), Stop>
    ensures reads { (f : ForFirst) (c : ℕ) (rest : List Token) → GoodFirst f → reader.old.ahead ≡ onto_first f (token semicolon c ∷ rest)
        → Answers (λ _ r. WasRead reader.old.integers reader.old.variables
        (token semicolon c ∷ rest) reader.old reader.new known.new out.old.items out.new.items r)
        result (read_first reader.old.integers (line_at reader.old.text) reader.old.variables known.old f) }
    ensures shorter { OnOk result (length reader.new.ahead ≤ length reader.old.ahead) }
{
    match coming(reader) {
        Start::Type => {
            pass_type(reader);
            declarators(reader, known, out)
        }
        _ => {
            let deeds = updates(reader, known)?;
            push_deeds(out, deeds)?;
            Ok(())
        }
    }
}

// The condition of a `for` without one: 0 is at most 0.
fn always(alloc: Global) -> Test
    ensures { (integers : Integers) (n line at : ℕ) → IsTest result (condition_of integers n line (always at)) }
{
    let zero = Form {
        coeffs: Coeffs::new(Vec::new(alloc)),
        constant: 0,
    };
    Test {
        prelude: Vec::new(alloc),
        cond: Cond::Cmp(Rel::Le, zero),
    }
}

// The condition of the `for` at this place.
fn for_test(reader: &mut Reader, known: &Known, at: u32) -> Result<Test, Stop>
    ensures reads { (t : Optional) (d : ℕ) (rest : List Token) → GoodOptional t → reader.old.ahead ≡ onto_optional t
        (token semicolon d ∷ rest)
        → Answers (λ t x. IsTest t (condition_of reader.old.integers reader.old.variables (line_at reader.old.text at) x)
        × (reader.new ≡ at_tokens reader.old (token semicolon d ∷ rest))) result
        (read_test reader.old.integers (line_at reader.old.text) reader.old.variables known.now at t) }
    ensures shorter { OnOk result (length reader.new.ahead ≤ length reader.old.ahead) }
{
    match coming(reader) {
        Start::Semicolon => Ok(always(reader.alloc())),
        _ => read_test(reader, known, at),
    }
}

// The head of the `for` at this place, in parentheses; the statements of its first part come behind those that are there.
pub(crate) fn for_head(
    reader: &mut Reader,
    known: &mut Known,
    at: u32,
    out: &mut Vec<Stmt>,
) -> Result<Head, Stop>
    ensures reads { (b : ℕ) (f : ForFirst) (c : ℕ) (t : Optional) (d : ℕ) (us : Updates) (i : ℕ) (rest : List Token)
        → GoodFirst f → GoodOptional t → GoodUpdates us
        → reader.old.ahead ≡ token left_paren b ∷ onto_first f (token semicolon c ∷ onto_optional t (token semicolon d
        ∷ onto_updates us (token right_paren i ∷ rest)))
        → Answers (λ h r. WasHeaded reader.old.integers reader.old.variables
        (line_at reader.old.text at) rest reader.old reader.new known.new
        out.old.items out.new.items h r) result
        (read_head reader.old.integers (line_at reader.old.text) reader.old.variables known.old at f t us) }
    ensures shorter { OnOk result (length reader.new.ahead < length reader.old.ahead) }
{
    reader.take(Mark::LeftParen)?;
    first(reader, known, out)?;
    reader.take(Mark::Semicolon)?;
    let test = for_test(reader, known, at)?;
    reader.take(Mark::Semicolon)?;
    known.count(at, test.prelude.len() + 1)?;
    let change = updates(reader, known)?;
    reader.take(Mark::RightParen)?;
    Ok(Head { test, change })
}

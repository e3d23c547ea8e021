//! Assumptions and assertions.

ghost use Rattle.std.specs.Prelude.{◌≡◌, ◌<◌, ◌≤◌, ◌+◌, ◌++◌, ◌∷◌, ℕ, Bool, List, length, OnOk};
ghost use Rattle.base_integers.specs.declared.integers.Integers.{Integers};
ghost use Rattle.lang_tokens.specs.Lines.{line_at};
ghost use Rattle.lang_tree.specs.Tree.{nodes_in};
ghost use Rattle.source_grammar.specs.Symbols.{demand_of};
ghost use Rattle.source_grammar.specs.Tokens.{Token, token, demand_word, left_paren, right_paren, semicolon};
ghost use Rattle.source_grammar.specs.Grammar.{Expr, Groups, spell_expr, demands};
ghost use Rattle.source_tree.specs.Expressions.{Expression};
ghost use Rattle.source_core.specs.Core.{condition_of, core_of};
ghost use Rattle.source_meaning.specs.Statements.{demand_of as node_of, one, read_core};
ghost use Rattle.source_reader.specs.Answers.{Answers};
ghost use Rattle.source_change.specs.Tests.{IsTest, WasRead};
ghost use Rattle.source_change.specs.Pushed.{WasPushed};

use lang_tree::{Check, CheckKind, Stmt};
use source_change::{Test, parenthesised, push_deeds};
use source_grammar::Demand;
use source_names::Known;
use source_reader::{Mark, Reader, Stop};
use std::alloc::{AllocError, Global};

// How many statements an assumption or an assertion is besides its prelude.
fn size(demand: Demand) -> usize
    ensures few { result ≤ 2 }
    ensures nodes { (integers : Integers) (n line at : ℕ) (e : Expression) → nodes_in
        (core_of integers n (node_of (demand_of demand) e at line))
        ≡ length (condition_of integers n line e).prelude + result }
{
    match demand {
        Demand::Assumes => 1,
        Demand::Asserts => 2,
    }
}

// An assumption or an assertion that stands at `at`.
fn push_demand(
    alloc: Global,
    demand: Demand,
    at: u32,
    line: u32,
    test: Test,
    out: &mut Vec<Stmt>,
) -> Result<(), AllocError>
    ensures { OnOk result ((integers : Integers) (n : ℕ) (e : Expression) → IsTest test (condition_of integers n line e)
        → WasPushed integers n out.old.items out.new.items (one (node_of (demand_of demand) e at line))) }
{
    push_deeds(out, test.prelude)?;
    let cond = test.cond;
    match demand {
        Demand::Assumes => out.push(Stmt::Assume { cond, line })?,
        Demand::Asserts => {
            let check = Check {
                kind: CheckKind::Assert,
                at,
            };
            let same = cond.again(alloc)?;
            out.push(Stmt::Check { check, cond, line })?;
            out.push(Stmt::Where { cond: same, line })?;
        }
    }
    Ok(())
}

// An assumption or an assertion.
pub(crate) fn demand(
    reader: &mut Reader,
    known: &mut Known,
    demand: Demand,
    out: &mut Vec<Stmt>,
) -> Result<(), Stop>
    ensures reads { (inside : Bool) (a b : ℕ) (e : Expr) (c d : ℕ) (rest : List Token) → Groups 0 e
        → reader.old.ahead ≡ token (demand_word (demand_of demand)) a ∷ token left_paren b
        ∷ (spell_expr e ++ token right_paren c ∷ token semicolon d ∷ rest)
        → Answers (λ _ r. WasRead reader.old.integers reader.old.variables rest reader.old reader.new
        known.new out.old.items out.new.items r)
        result (read_core reader.old.integers (line_at reader.old.text) reader.old.variables inside known.old
        (demands (demand_of demand) a b e c d)) }
    ensures shorter { OnOk result (length reader.new.ahead < length reader.old.ahead) }
{
    let at = reader.at();
    reader.skip();
    let test = parenthesised(reader, known, at)?;
    reader.take(Mark::Semicolon)?;
    known.count(at, test.prelude.len() + size(demand))?;
    push_demand(reader.alloc(), demand, at, reader.line(at), test, out)?;
    Ok(())
}

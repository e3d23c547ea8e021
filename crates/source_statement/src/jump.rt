//! Jumps.

ghost use Rattle.std.specs.Prelude.{◌≡◌, ◌≤◌, ◌<◌, ◌∷◌, ℕ, Bool, List, length, OnOk};
ghost use Rattle.base_integers.specs.declared.integers.Integers.{Integers};
ghost use Rattle.lang_tokens.specs.Lines.{line_at};
ghost use Rattle.lang_tree.specs.View.{statement_of};
ghost use Rattle.source_grammar.specs.Symbols.{jump_of};
ghost use Rattle.source_grammar.specs.Tokens.{Token, token, jump_word, return_word, semicolon};
ghost use Rattle.source_grammar.specs.Grammar.{Optional, GoodOptional, jumps, returns};
ghost use Rattle.source_core.specs.Core.{core_of, one};
ghost use Rattle.source_meaning.specs.Statements.{jump_of as node_of, read_core, read_returned};
ghost use Rattle.source_reader.specs.Answers.{Answers};
ghost use Rattle.source_change.specs.Tests.{WasRead};
ghost use Rattle.source_statement.specs.Onto.{onto_optional};

use crate::starts::{Start, coming};
use lang_tree::Stmt;
use source_change::push_evaluated;
use source_expression::expression;
use source_grammar::Jump;
use source_meaning::FunctionFault;
use source_names::Known;
use source_reader::{Mark, Reader, Stop};
use source_value::Evaluated;

fn jump_node(jump: Jump, line: u32) -> Stmt
    ensures { (integers : Integers) (n : ℕ) → one (statement_of result) ≡ core_of integers n (node_of (jump_of jump) line) }
{
    match jump {
        Jump::Breaks => Stmt::Break { line },
        Jump::Continues => Stmt::Continue { line },
    }
}

// A `break` or a `continue`, which has to stand in a loop's body.
pub(crate) fn jump(
    reader: &mut Reader,
    known: &mut Known,
    inside: bool,
    jump: Jump,
    out: &mut Vec<Stmt>,
) -> Result<(), Stop>
    ensures reads { (a b : ℕ) (rest : List Token) → reader.old.ahead ≡ token (jump_word (jump_of jump)) a ∷ token semicolon b ∷ rest
        → Answers (λ _ r. WasRead reader.old.integers reader.old.variables rest reader.old reader.new
        known.new out.old.items out.new.items r)
        result (read_core reader.old.integers (line_at reader.old.text) reader.old.variables inside known.old (jumps (jump_of jump) a b)) }
    ensures shorter { OnOk result (length reader.new.ahead < length reader.old.ahead) }
{
    let at = reader.at();
    reader.skip();
    if !inside {
        return Err(Stop::Fault(FunctionFault::OutsideLoop { at }));
    }
    known.count(at, 1)?;
    reader.take(Mark::Semicolon)?;
    out.push(jump_node(jump, reader.line(at)))?;
    Ok(())
}

// What the `return` at `at` returns.
fn returned(
    reader: &mut Reader,
    known: &mut Known,
    at: u32,
    out: &mut Vec<Stmt>,
) -> Result<(), Stop>
    ensures reads { (t : Optional) (b : ℕ) (rest : List Token) → GoodOptional t → reader.old.ahead ≡ onto_optional t
        (token semicolon b ∷ rest)
        → Answers (λ _ r. WasRead reader.old.integers reader.old.variables
        (token semicolon b ∷ rest) reader.old reader.new known.new out.old.items out.new.items r)
        result (read_returned reader.old.integers (line_at reader.old.text) reader.old.variables known.old at t) }
    ensures shorter { OnOk result (length reader.new.ahead ≤ length reader.old.ahead) }
{
    if let Start::Semicolon = coming(reader) {
        return Ok(());
    }
    let scope = reader.scope(known);
    let site = reader.site(at);
    let value = expression(reader, &scope, site, site.variables)?;
    let all = Evaluated {
        prelude: value.prelude,
        next: value.next,
    };
    push_evaluated(known, site, at, all, out)
}

// A `return`.
pub(crate) fn return_statement(
    reader: &mut Reader,
    known: &mut Known,
    out: &mut Vec<Stmt>,
) -> Result<(), Stop>
    ensures reads { (inside : Bool) (a : ℕ) (t : Optional) (b : ℕ) (rest : List Token) → GoodOptional t
        → reader.old.ahead ≡ token return_word a ∷ onto_optional t (token semicolon b ∷ rest)
        → Answers (λ _ r. WasRead reader.old.integers reader.old.variables rest reader.old reader.new
        known.new out.old.items out.new.items r)
        result (read_core reader.old.integers (line_at reader.old.text) reader.old.variables inside known.old (returns a t b)) }
    ensures shorter { OnOk result (length reader.new.ahead < length reader.old.ahead) }
{
    let at = reader.at();
    reader.skip();
    returned(reader, known, at, out)?;
    known.count(at, 1)?;
    reader.take(Mark::Semicolon)?;
    out.push(Stmt::Return {
        line: reader.line(at),
    })?;
    Ok(())
}

//! Loops.

ghost use Rattle.std.specs.Prelude.{◌≡◌, ◌<◌, ◌++◌, ◌∷◌, ℕ, Bool, List, length, OnOk};
ghost use Rattle.lang_tokens.specs.Lines.{line_at};
ghost use Rattle.lang_tree.specs.DeedView.{deeds_of};
ghost use Rattle.source_grammar.specs.Tokens.{Token};
ghost use Rattle.source_grammar.specs.Grammar.{Core, GoodCore, Expr, Sub, ForFirst, Optional, Updates, ending_core, repeat, repeat_after};
ghost use Rattle.source_grammar.specs.Grammar.{repeat_for};
ghost use Rattle.source_grammar.proofs.grammar.Follow.{AfterCore};
ghost use Rattle.source_meaning.specs.Statements.{read_core};
ghost use Rattle.source_reader.specs.Answers.{Answers};
ghost use Rattle.source_reader.specs.Reading.{first_kind};
ghost use Rattle.source_change.specs.Tests.{WasRead};
ghost use Rattle.source_statement.specs.Onto.{onto_core};
ghost use Rattle.source_statement.specs.Starts.{a_do, start_in};

use crate::body::body;
use crate::head::for_head;
use lang_tree::{Deeds, Stmt};
use source_change::parenthesised;
use source_names::Known;
use source_reader::{Mark, Reader, Stop};

// A `while`.
#[cycle(statement)]
pub(crate) fn while_loop(
    reader: &mut Reader,
    known: &mut Known,
    out: &mut Vec<Stmt>,
) -> Result<(), Stop>
    ensures reads { (inside : Bool) (a b : ℕ) (e : Expr) (c : ℕ) (s : Sub) (rest : List Token) → GoodCore (repeat a b e c s)
        → reader.old.ahead ≡ onto_core (repeat a b e c s) rest → AfterCore (ending_core (repeat a b e c s)) (first_kind rest)
        → Answers (λ _ r. WasRead reader.old.integers reader.old.variables rest reader.old reader.new
        known.new out.old.items out.new.items r)
        result (read_core reader.old.integers (line_at reader.old.text) reader.old.variables inside known.old (repeat a b e c s)) }
    ensures shorter { OnOk result (length reader.new.ahead < length reader.old.ahead) }
{
    let at = reader.at();
    reader.skip();
    let test = parenthesised(reader, known, at)?;
    known.count(at, test.prelude.len() + 1)?;
    let body = body(reader, known, true)?;
    out.push(Stmt::While {
        prelude: Deeds::new(test.prelude),
        cond: test.cond,
        body,
        line: reader.line(at),
    })?;
    Ok(())
}

// A `do`.
#[cycle(statement)]
pub(crate) fn do_loop(
    reader: &mut Reader,
    known: &mut Known,
    out: &mut Vec<Stmt>,
) -> Result<(), Stop>
    requires { start_in (first_kind reader.old.ahead) ≡ a_do }
    ensures reads { (inside : Bool) (a : ℕ) (s : Sub) (b c : ℕ) (e : Expr) (d i : ℕ) (rest : List Token) → GoodCore
        (repeat_after a s b c e d i)
        → reader.old.ahead ≡ onto_core (repeat_after a s b c e d i) rest
        → Answers (λ _ r. WasRead reader.old.integers reader.old.variables rest reader.old reader.new
        known.new out.old.items out.new.items r)
        result (read_core reader.old.integers (line_at reader.old.text) reader.old.variables inside known.old
        (repeat_after a s b c e d i)) }
    ensures shorter { OnOk result (length reader.new.ahead < length reader.old.ahead) }
{
    let at = reader.at();
    reader.skip();
    known.count(at, 1)?;
    let body = body(reader, known, true)?;
    reader.take(Mark::While)?;
    let test = parenthesised(reader, known, at)?;
    reader.take(Mark::Semicolon)?;
    known.count(at, test.prelude.len())?;
    out.push(Stmt::Do {
        prelude: Deeds::new(test.prelude),
        cond: test.cond,
        body,
        line: reader.line(at),
    })?;
    Ok(())
}

// A `for`.
#[cycle(statement)]
pub(crate) fn for_loop(
    reader: &mut Reader,
    known: &mut Known,
    out: &mut Vec<Stmt>,
) -> Result<(), Stop>
    ensures reads { (inside : Bool) (a b : ℕ) (f : ForFirst) (c : ℕ) (t : Optional) (d : ℕ) (us : Updates) (i : ℕ) (s : Sub)
        (rest : List Token)
        → GoodCore (repeat_for a b f c t d us i s) → reader.old.ahead ≡ onto_core (repeat_for a b f c t d us i s) rest
        → AfterCore (ending_core (repeat_for a b f c t d us i s)) (first_kind rest)
        → Answers (λ _ r. WasRead reader.old.integers reader.old.variables rest reader.old reader.new
        known.new out.old.items out.new.items r)
        result (read_core reader.old.integers (line_at reader.old.text) reader.old.variables inside known.old
        (repeat_for a b f c t d us i s)) }
    ensures shorter { OnOk result (length reader.new.ahead < length reader.old.ahead) }
{
    let at = reader.at();
    reader.skip();
    let before = known.mark();
    let head = for_head(reader, known, at, out)?;
    let body = body(reader, known, true)?;
    known.close(before);
    out.push(Stmt::For {
        prelude: Deeds::new(head.test.prelude),
        cond: head.test.cond,
        change: Deeds::new(head.change),
        body,
        line: reader.line(at),
    })?;
    Ok(())
}

//! Statements without statements in them.

ghost use Rattle.std.specs.Prelude.{◌≡◌, ◌<◌, ◌≤◌, ◌∷◌, ℕ, Bool, List, length, OnOk};
ghost use Rattle.lang_tokens.specs.Lines.{line_at};
ghost use Rattle.lang_tree.specs.Tree.{nil};
ghost use Rattle.lang_tree.specs.View.{deeds_of, statements_of};
ghost use Rattle.source_grammar.specs.Tokens.{Token, token, semicolon};
ghost use Rattle.source_grammar.specs.Grammar.{Core, GoodCore, Update, GoodUpdate, updates};
ghost use Rattle.source_core.specs.Core.{followed_by, behind};
ghost use Rattle.source_meaning.specs.Statements.{read_core};
ghost use Rattle.source_reader.specs.Answers.{Answers};
ghost use Rattle.source_change.specs.Tests.{WasRead};
ghost use Rattle.source_statement.specs.Onto.{onto_core};
ghost use Rattle.source_statement.specs.Headed.{no_fault};
ghost use Rattle.source_statement.specs.Parts.{IsNamed, IsSimple};
ghost use Rattle.source_change.specs.Onto.{onto_update};
ghost use Rattle.source_reader.specs.Reading.{at_tokens};

use crate::call::call;
use crate::demand::demand;
use crate::jump::{jump, return_statement};
use crate::starts::{Start, behind, coming};
use lang_tree::{Deed, Stmt};
use source_change::{push_deeds, update};
use source_names::Known;
use source_reader::{Mark, Reader, Stop};

// The `;` behind a change, whose deeds are these.
fn push_update(reader: &mut Reader, deeds: Vec<Deed>, out: &mut Vec<Stmt>) -> Result<(), Stop>
    ensures pushed { OnOk result (statements_of out.new.items ≡ followed_by (statements_of out.old.items) (behind
        (deeds_of deeds.items) nil)) }
    ensures reads { (c : ℕ) (rest : List Token) → reader.old.ahead ≡ token semicolon c ∷ rest
        → Answers (λ _ _. reader.new ≡ at_tokens reader.old rest) result no_fault }
    ensures shorter { OnOk result (length reader.new.ahead < length reader.old.ahead) }
{
    reader.take(Mark::Semicolon)?;
    push_deeds(out, deeds)?;
    Ok(())
}

// A change and its `;`.
fn update_statement(reader: &mut Reader, known: &mut Known, out: &mut Vec<Stmt>) -> Result<(), Stop>
    ensures reads { (inside : Bool) (u : Update) (c : ℕ) (rest : List Token) → GoodUpdate u
        → reader.old.ahead ≡ onto_update u (token semicolon c ∷ rest)
        → Answers (λ _ r. WasRead reader.old.integers reader.old.variables rest reader.old reader.new
        known.new out.old.items out.new.items r)
        result (read_core reader.old.integers (line_at reader.old.text) reader.old.variables inside known.old (updates u c)) }
    ensures shorter { OnOk result (length reader.new.ahead < length reader.old.ahead) }
{
    let deeds = update(reader, known)?;
    push_update(reader, deeds, out)
}

// A statement without labels that begins with a name: a call or a change.
fn named_statement(reader: &mut Reader, known: &mut Known, out: &mut Vec<Stmt>) -> Result<(), Stop>
    ensures reads { (inside : Bool) (c : Core) (rest : List Token) → IsNamed c → GoodCore c → reader.old.ahead ≡ onto_core c rest
        → Answers (λ _ r. WasRead reader.old.integers reader.old.variables rest reader.old reader.new
        known.new out.old.items out.new.items r)
        result (read_core reader.old.integers (line_at reader.old.text) reader.old.variables inside known.old c) }
    ensures shorter { OnOk result (length reader.new.ahead < length reader.old.ahead) }
{
    match behind(reader) {
        Start::Paren => call(reader, known, out),
        _ => update_statement(reader, known, out),
    }
}

// A statement without labels, and without statements in it.
pub(crate) fn simple(
    reader: &mut Reader,
    known: &mut Known,
    inside: bool,
    out: &mut Vec<Stmt>,
) -> Result<(), Stop>
    ensures reads { (c : Core) (rest : List Token) → IsSimple c → GoodCore c → reader.old.ahead ≡ onto_core c rest
        → Answers (λ _ r. WasRead reader.old.integers reader.old.variables rest reader.old reader.new
        known.new out.old.items out.new.items r)
        result (read_core reader.old.integers (line_at reader.old.text) reader.old.variables inside known.old c) }
    ensures shorter { OnOk result (length reader.new.ahead < length reader.old.ahead) }
{
    match coming(reader) {
        Start::Semicolon => {
            reader.skip();
            Ok(())
        }
        Start::Jump(which) => jump(reader, known, inside, which, out),
        Start::Return => return_statement(reader, known, out),
        Start::Demand(which) => demand(reader, known, which, out),
        Start::Name => named_statement(reader, known, out),
        _ => update_statement(reader, known, out),
    }
}

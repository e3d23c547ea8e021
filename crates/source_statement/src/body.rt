//! Statements with their labels, and those in them.

ghost use Rattle.std.specs.Prelude.{◌≡◌, ◌<◌, ◌≤◌, ◌∷◌, ℕ, Bool, List, Ok, length, OnOk};
ghost use Rattle.lang_tokens.specs.Lines.{line_at};
ghost use Rattle.source_grammar.specs.Tokens.{Name, Token, token, a_name, colon, else_word};
ghost use Rattle.source_grammar.specs.Grammar.{Core, GoodCore, Sub, GoodSub, ending_core, ending_sub};
ghost use Rattle.source_grammar.proofs.grammar.Follow.{AfterCore};
ghost use Rattle.source_meaning.specs.Statements.{read_core, read_sub};
ghost use Rattle.source_reader.specs.Answers.{Answers};
ghost use Rattle.source_reader.specs.Reading.{first_kind};
ghost use Rattle.source_change.specs.Tests.{WasRead};
ghost use Rattle.source_statement.specs.Headed.{WasBlock};
ghost use Rattle.source_statement.specs.Onto.{onto_core, onto_sub};
ghost use Rattle.source_statement.specs.Parts.{Other, onto_other, GoodOther, AfterOther, read_label, read_other};

use crate::branch::branch;
use crate::items::block;
use crate::loops::{do_loop, for_loop, while_loop};
use crate::simple::simple;
use crate::starts::{Start, coming, has_label};
use lang_tree::{Block, Stmt};
use source_change::take_name;
use source_names::Known;
use source_reader::{Mark, Reader, Stop};

// The label that comes next, and its `:`.
pub(crate) fn label(reader: &mut Reader, known: &mut Known, out: &mut Vec<Stmt>) -> Result<(), Stop>
    ensures reads { (x : Name) (a b : ℕ) (rest : List Token) → reader.old.ahead ≡ token (a_name x) a ∷ token colon b ∷ rest
        → Answers (λ _ r. WasRead reader.old.integers reader.old.variables rest reader.old reader.new
        known.new out.old.items out.new.items r) result
        (read_label reader.old.integers (line_at reader.old.text) reader.old.variables known.old x a) }
    ensures shorter { OnOk result (length reader.new.ahead < length reader.old.ahead) }
{
    let first = take_name(reader)?;
    reader.take(Mark::Colon)?;
    known.add_label(&first.name, first.at)?;
    out.push(Stmt::Label {
        name: first.name,
        line: reader.line(first.at),
    })?;
    Ok(())
}

// A statement without labels.
#[cycle(statement)]
pub(crate) fn core(
    reader: &mut Reader,
    known: &mut Known,
    inside: bool,
    out: &mut Vec<Stmt>,
) -> Result<(), Stop>
    ensures reads { (c : Core) (rest : List Token) → GoodCore c → reader.old.ahead ≡ onto_core c rest
        → AfterCore (ending_core c) (first_kind rest)
        → Answers (λ _ r. WasRead reader.old.integers reader.old.variables rest reader.old reader.new
        known.new out.old.items out.new.items r)
        result (read_core reader.old.integers (line_at reader.old.text) reader.old.variables inside known.old c) }
    ensures shorter { OnOk result (length reader.new.ahead < length reader.old.ahead) }
{
    match coming(reader) {
        Start::Block => block(reader, known, inside, out),
        Start::If => branch(reader, known, inside, out),
        Start::While => while_loop(reader, known, out),
        Start::Do => do_loop(reader, known, out),
        Start::For => for_loop(reader, known, out),
        _ => simple(reader, known, inside, out),
    }
}

// A statement with its labels.
#[cycle(statement)]
pub(crate) fn sub(
    reader: &mut Reader,
    known: &mut Known,
    inside: bool,
    out: &mut Vec<Stmt>,
) -> Result<(), Stop>
    ensures reads { (s : Sub) (rest : List Token) → GoodSub s → reader.old.ahead ≡ onto_sub s rest
        → AfterCore (ending_sub s) (first_kind rest)
        → Answers (λ _ r. WasRead reader.old.integers reader.old.variables rest reader.old reader.new
        known.new out.old.items out.new.items r)
        result (read_sub reader.old.integers (line_at reader.old.text) reader.old.variables inside known.old s) }
    ensures shorter { OnOk result (length reader.new.ahead < length reader.old.ahead) }
{
    if has_label(reader) {
        label(reader, known, out)?;
        sub(reader, known, inside, out)
    } else {
        core(reader, known, inside, out)
    }
}

// A statement with its labels, as a block of its own.
#[cycle(statement)]
pub(crate) fn body(reader: &mut Reader, known: &mut Known, inside: bool) -> Result<Block, Stop>
    ensures reads { (s : Sub) (rest : List Token) → GoodSub s → reader.old.ahead ≡ onto_sub s rest
        → AfterCore (ending_sub s) (first_kind rest)
        → Answers (λ b r. WasBlock reader.old.integers reader.old.variables rest reader.old reader.new known.new b r)
        result (read_sub reader.old.integers (line_at reader.old.text) reader.old.variables inside known.old s) }
    ensures shorter { OnOk result (length reader.new.ahead < length reader.old.ahead) }
{
    let mut list = Vec::new(reader.alloc());
    sub(reader, known, inside, &mut list)?;
    Ok(Block::new(list))
}

// What stands behind an `else`, if there is one.
#[cycle(statement)]
pub(crate) fn other(reader: &mut Reader, known: &mut Known, inside: bool) -> Result<Block, Stop>
    ensures reads { (s : Sub) (o : Other) (rest : List Token) → GoodOther s o → reader.old.ahead ≡ onto_other o rest
        → AfterOther o (first_kind rest)
        → Answers (λ b r. WasBlock reader.old.integers reader.old.variables rest reader.old reader.new known.new b r)
        result (read_other reader.old.integers (line_at reader.old.text) reader.old.variables inside known.old o) }
    ensures shorter { OnOk result (length reader.new.ahead ≤ length reader.old.ahead) }
{
    match coming(reader) {
        Start::Else => {
            reader.skip();
            body(reader, known, inside)
        }
        _ => Ok(Block::new(Vec::new(reader.alloc()))),
    }
}

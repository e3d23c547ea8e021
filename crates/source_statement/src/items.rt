//! Blocks.

ghost use Rattle.std.specs.Prelude.{◌≡◌, ◌<◌, ◌≤◌, ◌∷◌, ℕ, Bool, List, length, OnOk};
ghost use Rattle.lang_tokens.specs.Lines.{line_at};
ghost use Rattle.source_grammar.specs.Tokens.{Token, token, semicolon, right_brace};
ghost use Rattle.source_grammar.specs.Grammar.{Items, GoodItems, block, IntType, Declarators, GoodDeclarators};
ghost use Rattle.source_meaning.specs.Statements.{read_core, read_items, read_declarators};
ghost use Rattle.source_change.specs.Onto.{onto_declarators};
ghost use Rattle.source_reader.specs.Answers.{Answers};
ghost use Rattle.source_change.specs.Tests.{WasRead};
ghost use Rattle.source_statement.specs.Onto.{onto_core, onto_items, onto_type};
ghost use Rattle.source_statement.specs.Parts.{GoodOne, others, read_one};

use crate::body::{core, label};
use crate::parameters::pass_type;
use crate::starts::{Start, coming, has_label, is_closing};
use lang_tree::Stmt;
use source_change::declarators;
use source_names::Known;
use source_reader::{Mark, Reader, Stop};

// A declaration and its `;`.
fn declaration(reader: &mut Reader, known: &mut Known, out: &mut Vec<Stmt>) -> Result<(), Stop>
    ensures reads { (t : IntType) (xs : Declarators) (b : ℕ) (rest : List Token) → GoodDeclarators xs
        → reader.old.ahead ≡ onto_type t (onto_declarators xs (token semicolon b ∷ rest))
        → Answers (λ _ r. WasRead reader.old.integers reader.old.variables rest reader.old reader.new
        known.new out.old.items out.new.items r)
        result (read_declarators reader.old.integers (line_at reader.old.text) reader.old.variables known.old xs) }
    ensures shorter { OnOk result (length reader.new.ahead < length reader.old.ahead) }
{
    pass_type(reader);
    declarators(reader, known, out)?;
    reader.take(Mark::Semicolon)?;
    Ok(())
}

// A statement, a label or a declaration.
#[cycle(statement)]
fn item(
    reader: &mut Reader,
    known: &mut Known,
    inside: bool,
    out: &mut Vec<Stmt>,
) -> Result<(), Stop>
    ensures reads { (is : Items) (b : ℕ) (rest : List Token) → GoodItems is → GoodOne is
        → reader.old.ahead ≡ onto_items is (token right_brace b ∷ rest)
        → Answers (λ _ r. WasRead reader.old.integers reader.old.variables
        (onto_items (others is) (token right_brace b ∷ rest)) reader.old reader.new known.new
        out.old.items out.new.items r)
        result (read_one reader.old.integers (line_at reader.old.text) reader.old.variables inside known.old is) }
    ensures shorter { OnOk result (length reader.new.ahead < length reader.old.ahead) }
{
    if has_label(reader) {
        return label(reader, known, out);
    }
    match coming(reader) {
        Start::Type => declaration(reader, known, out),
        _ => core(reader, known, inside, out),
    }
}

// The statements, labels and declarations up to a `}`.
#[cycle(statement)]
pub(crate) fn items(
    reader: &mut Reader,
    known: &mut Known,
    inside: bool,
    out: &mut Vec<Stmt>,
) -> Result<(), Stop>
    ensures reads { (is : Items) (b : ℕ) (rest : List Token) → GoodItems is → reader.old.ahead ≡ onto_items is (token right_brace b ∷ rest)
        → Answers (λ _ r. WasRead reader.old.integers reader.old.variables (token right_brace b ∷ rest) reader.old reader.new known.new
        out.old.items out.new.items r)
        result (read_items reader.old.integers (line_at reader.old.text) reader.old.variables inside known.old is) }
    ensures shorter { OnOk result (length reader.new.ahead ≤ length reader.old.ahead) }
{
    'all: while !is_closing(reader) {
        item(reader, known, inside, out)?;
    }
    Ok(())
}

// A block.
#[cycle(statement)]
pub(crate) fn block(
    reader: &mut Reader,
    known: &mut Known,
    inside: bool,
    out: &mut Vec<Stmt>,
) -> Result<(), Stop>
    ensures reads { (a : ℕ) (is : Items) (b : ℕ) (rest : List Token) → GoodItems is → reader.old.ahead ≡ onto_core (block a is b) rest
        → Answers (λ _ r. WasRead reader.old.integers reader.old.variables rest reader.old reader.new
        known.new out.old.items out.new.items r)
        result (read_core reader.old.integers (line_at reader.old.text) reader.old.variables inside known.old (block a is b)) }
    ensures shorter { OnOk result (length reader.new.ahead < length reader.old.ahead) }
{
    reader.take(Mark::LeftBrace)?;
    let before = known.mark();
    items(reader, known, inside, out)?;
    reader.take(Mark::RightBrace)?;
    known.close(before);
    Ok(())
}

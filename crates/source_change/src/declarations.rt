//! Names that are declared.

ghost use Rattle.std.specs.Prelude.{◌≡◌, ◌<◌, ◌≤◌, ◌++◌, ◌∷◌, ℕ, List, length, OnOk};
ghost use Rattle.lang_tokens.specs.Lines.{line_at};
ghost use Rattle.source_grammar.specs.Tokens.{Name, Token, token, a_name, change_sign, replaces};
ghost use Rattle.source_grammar.specs.Grammar.{Expr, Groups, bare, given};
ghost use Rattle.source_grammar.specs.Grammar.{Declarator, GoodDeclarator};
ghost use Rattle.source_grammar.specs.Grammar.{declarator, MoreDeclarators, GoodMoreDeclarators, Declarators, GoodDeclarators, spell_expr};
ghost use Rattle.source_grammar.proofs.grammar.Follow.{AfterPart, AfterList};
ghost use Rattle.source_meaning.specs.Statements.{read_declarator, read_more_declarators, read_declarators};
ghost use Rattle.source_reader.specs.Answers.{Answers};
ghost use Rattle.source_reader.specs.Reading.{first_kind};
ghost use Rattle.source_change.specs.Onto.{onto_declarator, onto_more_declarators, onto_declarators};
ghost use Rattle.source_change.specs.Tests.{WasRead, name_of};

use crate::arrays::array;
use crate::deeds::{Changed, counted_change};
use crate::names::{Named, take_name};
use crate::nexts::{Next, behind, has_comma};
use crate::pushed::push_deeds;
use lang_tree::Stmt;
use source_expression::expression;
use source_names::Known;
use source_reader::{Reader, Stop};
use source_value::declared;

/// A name that is declared without a value, or a parameter: the variable takes any of the integers.
pub fn bare(
    reader: &Reader,
    known: &mut Known,
    first: &Named,
    out: &mut Vec<Stmt>,
) -> Result<(), Stop>
    ensures { Answers (λ _ r. WasRead reader.now.integers reader.now.variables reader.now.ahead reader.now reader.now
        known.new out.old.items out.new.items r)
        result (read_declarator reader.now.integers (line_at reader.now.text) reader.now.variables known.old
        (declarator (name_of first.now) first.now.at bare)) }
{
    let var = known.add_variable(&first.name, first.value, first.at)?;
    let deeds = declared(reader.alloc(), reader.site(first.at), var)?;
    known.count(first.at, deeds.len())?;
    push_deeds(out, deeds)?;
    Ok(())
}

// A name that is declared with the value behind its `=`, which comes behind it.
fn given(reader: &mut Reader, known: &mut Known, out: &mut Vec<Stmt>) -> Result<(), Stop>
    ensures reads { (x : Name) (a b : ℕ) (e : Expr) (rest : List Token) → Groups 0 e
        → reader.old.ahead ≡ token (a_name x) a ∷ token (change_sign replaces) b ∷ (spell_expr e ++ rest) → AfterPart (first_kind rest)
        → Answers (λ _ r. WasRead reader.old.integers reader.old.variables rest reader.old reader.new
        known.new out.old.items out.new.items r)
        result (read_declarator reader.old.integers (line_at reader.old.text) reader.old.variables known.old (declarator x a (given b e))) }
    ensures shorter { OnOk result (length reader.new.ahead < length reader.old.ahead) }
{
    let scope = reader.scope(known);
    let first = take_name(reader)?;
    reader.skip();
    let site = reader.site(first.at);
    let value = expression(reader, &scope, site, site.variables)?;
    let var = known.add_variable(&first.name, first.value, first.at)?;
    let changed = Changed::Sets { var, value };
    let deeds = counted_change(reader.alloc(), known, site, first.at, changed)?;
    push_deeds(out, deeds)?;
    Ok(())
}

// A name that is declared alone.
fn alone(reader: &mut Reader, known: &mut Known, out: &mut Vec<Stmt>) -> Result<(), Stop>
    ensures reads { (x : Name) (a : ℕ) (rest : List Token) → reader.old.ahead ≡ token (a_name x) a ∷ rest
        → Answers (λ _ r. WasRead reader.old.integers reader.old.variables rest reader.old reader.new
        known.new out.old.items out.new.items r)
        result (read_declarator reader.old.integers (line_at reader.old.text) reader.old.variables known.old (declarator x a bare)) }
    ensures shorter { OnOk result (length reader.new.ahead < length reader.old.ahead) }
{
    let first = take_name(reader)?;
    bare(reader, known, &first, out)
}

// A name that is declared.
fn declarator(reader: &mut Reader, known: &mut Known, out: &mut Vec<Stmt>) -> Result<(), Stop>
    ensures reads { (x : Declarator) (rest : List Token) → GoodDeclarator x → reader.old.ahead ≡ onto_declarator x rest
        → AfterPart (first_kind rest)
        → Answers (λ _ r. WasRead reader.old.integers reader.old.variables rest reader.old reader.new
        known.new out.old.items out.new.items r)
        result (read_declarator reader.old.integers (line_at reader.old.text) reader.old.variables known.old x) }
    ensures shorter { OnOk result (length reader.new.ahead < length reader.old.ahead) }
{
    match behind(reader) {
        Next::Change(_) => given(reader, known, out),
        Next::Bracket => array(reader, known, out),
        _ => alone(reader, known, out),
    }
}

// The names behind the first, each with its comma.
fn more_declarators(reader: &mut Reader, known: &mut Known, out: &mut Vec<Stmt>) -> Result<(), Stop>
    ensures reads { (xs : MoreDeclarators) (rest : List Token) → GoodMoreDeclarators xs → reader.old.ahead ≡ onto_more_declarators xs rest
        → AfterList (first_kind rest)
        → Answers (λ _ r. WasRead reader.old.integers reader.old.variables rest reader.old reader.new
        known.new out.old.items out.new.items r)
        result (read_more_declarators reader.old.integers (line_at reader.old.text) reader.old.variables known.old xs) }
    ensures shorter { OnOk result (length reader.new.ahead ≤ length reader.old.ahead) }
{
    'names: while has_comma(reader) {
        reader.skip();
        declarator(reader, known, out)?;
    }
    Ok(())
}

/// Names that are declared with commas between them, the first next; their statements come behind those that are there
/// (docs/MEANING.md, "Functions of C").
pub fn declarators(reader: &mut Reader, known: &mut Known, out: &mut Vec<Stmt>) -> Result<(), Stop>
    ensures reads { (xs : Declarators) (rest : List Token) → GoodDeclarators xs → reader.old.ahead ≡ onto_declarators xs rest
        → AfterList (first_kind rest)
        → Answers (λ _ r. WasRead reader.old.integers reader.old.variables rest reader.old reader.new
        known.new out.old.items out.new.items r)
        result (read_declarators reader.old.integers (line_at reader.old.text) reader.old.variables known.old xs) }
    ensures shorter { OnOk result (length reader.new.ahead < length reader.old.ahead) }
{
    declarator(reader, known, out)?;
    more_declarators(reader, known, out)
}

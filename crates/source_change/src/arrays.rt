//! Arrays that are declared: their sizes and their values.

ghost use Rattle.std.specs.Prelude.{◌≡◌, ◌<◌, ◌≤◌, ◌∷◌, ℕ, List, length, Option, OnOk};
ghost use Rattle.lang_tokens.specs.Lines.{line_at};
ghost use Rattle.source_grammar.specs.Tokens.{Name, Token, token, a_name};
ghost use Rattle.source_grammar.specs.Grammar.{Size, Sizes, Values, GoodValues, Initialiser, GoodInitialiser, declarator};
ghost use Rattle.source_grammar.proofs.grammar.Follow.{NoBracket, AfterPart};
ghost use Rattle.source_tree.specs.Extents.{extent_of};
ghost use Rattle.source_core.specs.Elaborated.{evaluated};
ghost use Rattle.source_meaning.specs.Arrays.{read_size};
ghost use Rattle.source_meaning.specs.Expressions.{read_values};
ghost use Rattle.source_meaning.specs.Statements.{read_declarator};
ghost use Rattle.source_value.specs.Stands.{StandsEvaluated};
ghost use Rattle.source_reader.specs.Answers.{Answers};
ghost use Rattle.source_reader.specs.Reading.{at_tokens, first_kind};
ghost use Rattle.source_change.specs.Onto.{onto_size, onto_values, onto_initialiser};
ghost use Rattle.source_change.specs.Arrays.{IsArray, WereSized, onto_some_sizes, read_some_sizes};
ghost use Rattle.source_change.specs.Tests.{WasRead};

use crate::names::take_name;
use crate::nexts::{Next, coming, has_assignment, has_bracket};
use crate::pushed::push_evaluated;
use lang_tree::Stmt;
use source_expression::values;
use source_names::{Known, sized};
use source_reader::{Mark, Reader, Scope, Stop};
use source_tree::Extent;
use source_value::{Evaluated, Site};

// A size: a number, or the name of a constant.
fn size(reader: &mut Reader, known: &Known) -> Result<Extent, Stop>
    ensures reads { (s : Size) (rest : List Token) → reader.old.ahead ≡ onto_size s rest
        → Answers (λ e x. (extent_of e ≡ x) × (reader.new ≡ at_tokens reader.old rest)) result (read_size known.now s) }
    ensures shorter { OnOk result (length reader.new.ahead ≤ length reader.old.ahead) }
{
    let at = reader.at();
    let extent = match coming(reader) {
        Next::Name => known.size(reader.name(), reader.constant(), at)?,
        _ => sized(reader.number(), at)?,
    };
    reader.skip();
    Ok(extent)
}

/// The sizes of an array that come next, of which there may be none; their extents come behind those that are there
/// (docs/MEANING.md, "Functions of C").
pub fn sizes(reader: &mut Reader, known: &Known, extents: &mut Vec<Extent>) -> Result<(), Stop>
    ensures reads { (ss : Option Sizes) (rest : List Token) → reader.old.ahead ≡ onto_some_sizes ss rest → NoBracket (first_kind rest)
        → Answers (λ _ es. WereSized rest reader.old reader.new extents.old.items extents.new.items es) result
        (read_some_sizes known.now ss) }
    ensures shorter { OnOk result (length reader.new.ahead ≤ length reader.old.ahead) }
{
    'sizes: while has_bracket(reader) {
        reader.skip();
        let extent = size(reader, known)?;
        reader.take(Mark::RightBracket)?;
        extents.push(extent)?;
    }
    Ok(())
}

// The values of an array, from their `=` on, which are evaluated.
fn filled(reader: &mut Reader, scope: &Scope, site: Site) -> Result<Evaluated, Stop>
    ensures reads { (a b : ℕ) (vs : Values) (c : ℕ) (rest : List Token) → GoodValues vs → reader.old.ahead ≡ onto_values a b vs c rest
        → Answers (λ all es. StandsEvaluated site.variables all (evaluated site.integers site.line es site.variables)
        × (reader.new ≡ at_tokens reader.old rest))
        result (read_values site.integers site.line scope.now vs site.variables) }
    ensures shorter { OnOk result (length reader.new.ahead ≤ length reader.old.ahead) }
{
    reader.skip();
    reader.take(Mark::LeftBrace)?;
    let all = values(reader, scope, site, site.variables)?;
    reader.take(Mark::RightBrace)?;
    Ok(all)
}

// An array that is declared, from its name on: its sizes, and its values, in which it isn't known.
pub(crate) fn array(reader: &mut Reader, known: &mut Known, out: &mut Vec<Stmt>) -> Result<(), Stop>
    ensures reads { (x : Name) (a : ℕ) (i : Initialiser) (rest : List Token) → IsArray i → GoodInitialiser i
        → reader.old.ahead ≡ token (a_name x) a ∷ onto_initialiser i rest → AfterPart (first_kind rest)
        → Answers (λ _ r. WasRead reader.old.integers reader.old.variables rest reader.old reader.new
        known.new out.old.items out.new.items r)
        result (read_declarator reader.old.integers (line_at reader.old.text) reader.old.variables known.old (declarator x a i)) }
    ensures shorter { OnOk result (length reader.new.ahead < length reader.old.ahead) }
{
    let scope = reader.scope(known);
    let first = take_name(reader)?;
    known.fresh_array(first.name.bytes(), first.value, first.at)?;
    let mut extents = Vec::new(reader.alloc());
    sizes(reader, known, &mut extents)?;
    if has_assignment(reader) {
        let site = reader.site(first.at);
        let all = filled(reader, &scope, site)?;
        push_evaluated(known, site, first.at, all, out)?;
    }
    known.add_array(&first.name, extents)?;
    Ok(())
}

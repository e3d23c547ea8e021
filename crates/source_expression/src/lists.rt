//! Arguments of calls.

ghost use Rattle.std.specs.Prelude.{◌≡◌, ◌++◌, ◌&&◌, ℕ, List, true};
ghost use Rattle.std.specs.Option.{option_map};
ghost use Rattle.source_tree.specs.Expressions.{Expressions};
ghost use Rattle.source_grammar.specs.Tokens.{Token, right_paren};
ghost use Rattle.source_grammar.specs.Grammar.{Expr, Arguments, Groups, GoodArguments, MoreArguments, GoodMoreArguments};
ghost use Rattle.source_grammar.specs.Grammar.{spell_arguments, spell_expr, spell_more_arguments};
ghost use Rattle.source_grammar.proofs.grammar.Follow.{AfterExpr};
ghost use Rattle.source_meaning.specs.Expressions.{is_array, is_array_name, read_arguments};
ghost use Rattle.source_names.specs.Entries.{thing_of};
ghost use Rattle.source_reader.specs.Reading.{GoesOn, first_kind};
ghost use Rattle.source_expression.specs.Sides.{IsEvaluatedOf};
ghost use Rattle.source_expression.specs.Readings.{ReadsAll};
ghost use Rattle.source_expression.specs.Joins.{read_behind};
ghost use Rattle.source_expression.specs.Lists.{ends_argument, read_argument, read_one};

use crate::expressions::expression;
use crate::signs::{ends_argument, is_closing, is_comma, is_name};
use source_names::Thing;
use source_reader::{Reader, Scope, Stop};
use source_value::{Evaluated, Site};

/// The arguments that come next, up to the `)` of their call, with the names that are known; hidden variables are taken from `next` on. Of
/// their faults it tells the first.
#[cycle(expressions)]
pub fn arguments(
    reader: &mut Reader<'_>,
    known: &Scope<'_>,
    site: Site,
    next: u32,
) -> Result<Evaluated, Stop>
    ensures reads { (es : Arguments) (rest : List Token) → GoodArguments es → first_kind rest ≡ right_paren
        → reader.old.ahead ≡ spell_arguments es ++ rest
        → ReadsAll site next (read_arguments site.integers site.line known.now es next) rest result reader.new }
    ensures goes { GoesOn reader.old reader.new }
{
    let none = Evaluated::none(reader.alloc(), site, next);
    if is_closing(reader.symbol()) {
        return Ok(none);
    }
    let first = argument(reader, known, site, none)?;
    more_arguments(reader, known, site, first)
}

// Whether a name is an array.
fn is_array(thing: Option<Thing<'_>>) -> bool
    ensures { result ≡ is_array (option_map thing_of thing.entry) }
{
    matches!(thing, Some(Thing::Array(_)))
}

// Whether these are all true.
fn are_all(first: bool, second: bool, third: bool) -> bool
    ensures { result ≡ ((first && second) && third) }
{
    first && second && third
}

// Whether the name of an array alone comes next as an argument.
fn is_array_alone(reader: &Reader<'_>, known: &Scope<'_>) -> bool
    ensures { (e : Expr) (rest : List Token) → reader.now.ahead ≡ spell_expr e ++ rest → ends_argument (first_kind rest) ≡ true
        → result ≡ is_array_name known.now e }
{
    let array = is_array(known.thing(reader.name(), reader.constant()));
    are_all(
        is_name(reader.symbol()),
        ends_argument(reader.second()),
        array,
    )
}

// An argument, behind some that were read; the name of an array alone is passed over.
#[cycle(expressions)]
fn argument(
    reader: &mut Reader<'_>,
    known: &Scope<'_>,
    site: Site,
    before: Evaluated,
) -> Result<Evaluated, Stop>
    ensures reads { (xs : Expressions) (h : ℕ) (e : Expr) (rest : List Token) → IsEvaluatedOf site h before xs → Groups 0 e
        → ends_argument (first_kind rest) ≡ true → reader.old.ahead ≡ spell_expr e ++ rest
        → ReadsAll site h (read_argument site.integers site.line known.now xs e h) rest result reader.new }
    ensures goes { GoesOn reader.old reader.new }
{
    if is_array_alone(reader, known) {
        reader.skip();
        Ok(before)
    } else {
        one(reader, known, site, before)
    }
}

/// An expression, behind some that were read.
#[cycle(expressions)]
pub(crate) fn one(
    reader: &mut Reader<'_>,
    known: &Scope<'_>,
    site: Site,
    before: Evaluated,
) -> Result<Evaluated, Stop>
    ensures reads { (xs : Expressions) (h : ℕ) (e : Expr) (rest : List Token) → IsEvaluatedOf site h before xs → Groups 0 e
        → AfterExpr (first_kind rest) → reader.old.ahead ≡ spell_expr e ++ rest
        → ReadsAll site h (read_one site.integers site.line known.now xs e h) rest result reader.new }
    ensures goes { GoesOn reader.old reader.new }
{
    let value = expression(reader, known, site, before.next)?;
    Ok(before.with(value)?)
}

// The arguments behind some that were read, each with the comma before it.
#[cycle(expressions)]
fn more_arguments(
    reader: &mut Reader<'_>,
    known: &Scope<'_>,
    site: Site,
    before: Evaluated,
) -> Result<Evaluated, Stop>
    ensures reads { (xs : Expressions) (h : ℕ) (es : MoreArguments) (rest : List Token) → IsEvaluatedOf site h before xs
        → GoodMoreArguments es → first_kind rest ≡ right_paren → reader.old.ahead ≡ spell_more_arguments es ++ rest
        → ReadsAll site h (read_behind site.integers site.line known.now xs es h) rest result reader.new }
    ensures goes { GoesOn reader.old reader.new }
{
    let mut all = before;
    'commas: while is_comma(reader.symbol()) {
        reader.skip();
        all = argument(reader, known, site, all)?;
    }
    Ok(all)
}

//! Values of arrays.

ghost use Rattle.std.specs.Prelude.{◌≡◌, ◌∷◌, ◌++◌, ℕ, List};
ghost use Rattle.source_tree.specs.Expressions.{Expressions};
ghost use Rattle.source_grammar.specs.Tokens.{Token, token, left_brace, right_brace};
ghost use Rattle.source_grammar.specs.Grammar as spelled;
ghost use Rattle.source_grammar.specs.Grammar.{Values, GoodValue, GoodValues, MoreValues, GoodMoreValues};
ghost use Rattle.source_grammar.specs.Grammar.{spell_value, spell_values, spell_more_values};
ghost use Rattle.source_grammar.proofs.grammar.Follow.{AfterExpr};
ghost use Rattle.source_meaning.specs.Expressions.{read_values};
ghost use Rattle.source_reader.specs.Reading.{GoesOn, first_kind};
ghost use Rattle.source_expression.specs.Sides.{IsEvaluatedOf};
ghost use Rattle.source_expression.specs.Readings.{ReadsAll};
ghost use Rattle.source_expression.specs.Lists.{read_listed, read_values_behind};

use crate::lists::one;
use crate::signs::{is_brace, is_brace_end, is_comma};
use source_reader::{Mark, Reader, Scope, Stop};
use source_value::{Evaluated, Site};

/// The values of an array that come next, up to the `}` of their list, with the names that are known; hidden variables are taken from
/// `next` on. Of their faults it tells the first.
#[cycle(values)]
pub fn values(
    reader: &mut Reader<'_>,
    known: &Scope<'_>,
    site: Site,
    next: u32,
) -> Result<Evaluated, Stop>
    ensures reads { (vs : Values) (rest : List Token) → GoodValues vs → first_kind rest ≡ right_brace
        → reader.old.ahead ≡ spell_values vs ++ rest
        → ReadsAll site next (read_values site.integers site.line known.now vs next) rest result reader.new }
    ensures goes { GoesOn reader.old reader.new }
{
    let none = Evaluated::none(reader.alloc(), site, next);
    if is_brace_end(reader.symbol()) {
        return Ok(none);
    }
    let first = value(reader, known, site, none)?;
    more_values(reader, known, site, first)
}

// A value, behind some that were read: an expression, or a list of values in braces.
#[cycle(values)]
fn value(
    reader: &mut Reader<'_>,
    known: &Scope<'_>,
    site: Site,
    before: Evaluated,
) -> Result<Evaluated, Stop>
    ensures reads { (xs : Expressions) (h : ℕ) (v : spelled.Value) (rest : List Token) → IsEvaluatedOf site h before xs → GoodValue v
        → AfterExpr (first_kind rest) → reader.old.ahead ≡ spell_value v ++ rest
        → ReadsAll site h (read_listed site.integers site.line known.now xs v h) rest result reader.new }
    ensures goes { GoesOn reader.old reader.new }
{
    if is_brace(reader.symbol()) {
        listed(reader, known, site, before)
    } else {
        one(reader, known, site, before)
    }
}

// A list of values in braces, behind some that were read.
#[cycle(values)]
fn listed(
    reader: &mut Reader<'_>,
    known: &Scope<'_>,
    site: Site,
    before: Evaluated,
) -> Result<Evaluated, Stop>
    ensures reads { (xs : Expressions) (h a : ℕ) (vs : Values) (b : ℕ) (rest : List Token) → IsEvaluatedOf site h before xs → GoodValues vs
        → reader.old.ahead ≡ token left_brace a ∷ (spell_values vs ++ token right_brace b ∷ rest)
        → ReadsAll site h (read_listed site.integers site.line known.now xs (spelled.braced a vs b) h) rest result reader.new }
    ensures goes { GoesOn reader.old reader.new }
{
    let _open = reader.take(Mark::LeftBrace)?;
    let inner = values(reader, known, site, before.next)?;
    let _close = reader.take(Mark::RightBrace)?;
    Ok(before.with(inner.into_any())?)
}

// The values behind some that were read, each with the comma before it; a comma may stand behind the last.
#[cycle(values)]
fn more_values(
    reader: &mut Reader<'_>,
    known: &Scope<'_>,
    site: Site,
    before: Evaluated,
) -> Result<Evaluated, Stop>
    ensures reads { (xs : Expressions) (h : ℕ) (vs : MoreValues) (rest : List Token) → IsEvaluatedOf site h before xs
        → GoodMoreValues vs → first_kind rest ≡ right_brace → reader.old.ahead ≡ spell_more_values vs ++ rest
        → ReadsAll site h (read_values_behind site.integers site.line known.now xs vs h) rest result reader.new }
    ensures goes { GoesOn reader.old reader.new }
{
    let mut all = before;
    'commas: while is_comma(reader.symbol()) {
        reader.skip();
        if is_brace_end(reader.symbol()) {
            return Ok(all);
        }
        all = value(reader, known, site, all)?;
    }
    Ok(all)
}

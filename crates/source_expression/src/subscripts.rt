//! Elements of arrays: their indexes.

ghost use Rattle.std.specs.Prelude.{◌≡◌, ◌∷◌, ◌++◌, ℕ, List, length, map};
ghost use Rattle.source_tree.specs.Expressions as tree;
ghost use Rattle.source_tree.specs.Extents.{extent_of};
ghost use Rattle.source_grammar.specs.Tokens.{Token, token, left_bracket, right_bracket};
ghost use Rattle.source_grammar.specs.Grammar.{Expr, Subscripts, Groups, GoodSubscripts, spell_expr, spell_subscripts};
ghost use Rattle.source_meaning.specs.Expressions.{subscript_count};
ghost use Rattle.source_reader.specs.Reading.{GoesOn};
ghost use Rattle.source_expression.specs.Sides.{IsIndexedOf};
ghost use Rattle.source_expression.specs.Readings.{Reads, ReadsIndexes};
ghost use Rattle.source_expression.specs.Lists.{read_element, read_index};

use crate::expressions::expression;
use source_reader::{Mark, Reader, Scope, Stop, placed};
use source_tree::Extent;
use source_value::{Evaluated, Site, Value, indexed};

/// The element of an array with these extents whose indexes come next, as many of them, with the names that are known; hidden variables
/// are taken from `next` on. Of their faults it tells the first.
#[cycle(expressions)]
pub fn element(
    reader: &mut Reader<'_>,
    known: &Scope<'_>,
    site: Site,
    next: u32,
    extents: &[Extent],
) -> Result<Value, Stop>
    ensures reads { (at : ℕ) (is : Subscripts) (rest : List Token) → GoodSubscripts is → subscript_count is ≡ length extents.now
        → reader.old.ahead ≡ spell_subscripts is ++ rest
        → Reads site next (read_element site.integers site.line known.now at (map extent_of extents.now) is next) rest result reader.new }
    ensures goes { GoesOn reader.old reader.new }
{
    let mut all = Evaluated::none(reader.alloc(), site, next);
    for extent in extents {
        all = index(reader, known, site, *extent, all)?;
    }
    Ok(all.into_any())
}

// An index within this extent, in its brackets, behind those that were read.
#[cycle(expressions)]
fn index(
    reader: &mut Reader<'_>,
    known: &Scope<'_>,
    site: Site,
    extent: Extent,
    before: Evaluated,
) -> Result<Evaluated, Stop>
    ensures reads { (at : ℕ) (ys : tree.Subscripts) (h b c : ℕ) (e : Expr) (rest : List Token) → IsIndexedOf site h before ys → Groups 0 e
        → reader.old.ahead ≡ token left_bracket b ∷ (spell_expr e ++ token right_bracket c ∷ rest)
        → ReadsIndexes site h (read_index site.integers site.line known.now at ys (extent_of extent) b e h) rest result reader.new }
    ensures goes { GoesOn reader.old reader.new }
{
    let bracket = reader.take(Mark::LeftBracket)?;
    let value = expression(reader, known, site, before.next)?;
    let _close = reader.take(Mark::RightBracket)?;
    let alloc = reader.alloc();
    let number = value.into_number(alloc, site)?;
    let checked = placed(indexed(alloc, site, extent, bracket, number), bracket)?;
    Ok(before.joined(checked)?)
}

//! The ends of calls, behind their arguments.

ghost use Rattle.std.specs.Prelude.{◌≡◌, ◌∷◌, ℕ, List};
ghost use Rattle.source_tree.specs.Expressions as tree;
ghost use Rattle.source_tree.specs.Expressions.{Expressions};
ghost use Rattle.source_grammar.specs.Tokens.{Token, token, right_paren};
ghost use Rattle.source_reader.specs.Reading.{GoesOn};
ghost use Rattle.source_expression.specs.Sides.{IsEvaluatedOf};
ghost use Rattle.source_expression.specs.Readings.{ReadsOk};

use source_reader::{Mark, Reader, Stop};
use source_value::{Evaluated, Site, Value};

/// A call, behind its arguments.
pub(crate) fn call_behind(
    reader: &mut Reader<'_>,
    site: Site,
    given: Evaluated,
) -> Result<Value, Stop>
    ensures reads { (xs : Expressions) (h at close : ℕ) (rest : List Token) → IsEvaluatedOf site h given xs
        → reader.old.ahead ≡ token right_paren close ∷ rest → ReadsOk site h (tree.call xs at) rest result reader.new }
    ensures goes { GoesOn reader.old reader.new }
{
    let _close = reader.take(Mark::RightParen)?;
    Ok(given.into_any())
}

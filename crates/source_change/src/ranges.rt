//! Numbers that have to be in their ranges.

ghost use Rattle.std.specs.Prelude.{ℕ};
ghost use Rattle.base_integers.specs.declared.integers.Integers.{Integers};
ghost use Rattle.source_tree.specs.Expressions.{Expression};
ghost use Rattle.source_core.specs.Elaborated.{elaborated};
ghost use Rattle.source_core.specs.Fits.{fits};
ghost use Rattle.source_meaning.specs.Expressions.{ranged};
ghost use Rattle.source_value.specs.Answers as value;
ghost use Rattle.source_value.specs.Stands.{Stands};
ghost use Rattle.source_reader.specs.Answers.{Answers};

use source_reader::{Stop, placed};
use source_value::{OperationFault, Value};

// What an operation whose sign stands at `sign` answers, or the fault that a number leaves its range.
pub(crate) fn ranged(made: Result<Value, OperationFault>, sign: u32) -> Result<Value, Stop>
    ensures { (integers : Integers) (n line h : ℕ) (e : Expression) → value.Answers (Stands n) fits made (elaborated integers line e h)
        → Answers (λ v x. Stands n v (elaborated integers line x h)) result (ranged integers line sign h e) }
{
    placed(made, sign)
}

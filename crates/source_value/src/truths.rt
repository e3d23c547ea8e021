//! Comparisons, `!`, `&&`, `||` and `?:`.

ghost use Rattle.std.specs.Prelude.{◌≡◌, ◌≤◌, ◌++◌, ℕ, IfOk};
ghost use Rattle.lang_tree.specs.Tree as tree;
ghost use Rattle.source_core.specs.Elaborated.{Numbered as CoreNumber, Tested as CoreTested, a_truth, related, choice};
ghost use Rattle.source_core.specs.Preludes.{all_under};
ghost use Rattle.source_value.specs.Answers.{Answers};
ghost use Rattle.source_core.specs.Fits.{fits};
ghost use Rattle.source_value.specs.Stands.{Stands, StandsNumber, StandsTested};

use crate::conditions::related;
use crate::fault::OperationFault;
use crate::forms::variable_form;
use crate::hidden::{behind, one_of, taken_where};
use crate::site::Site;
use crate::truth::Truth;
use crate::value::{Evaluated, Number, Outcome, Tested, Value};
use lang_tree::Rel;
use std::alloc::{AllocError, Global};

/// A comparison of two numbers, the right one read behind the left one. Their difference has to be in the range of what may be compared.
pub fn compared(
    alloc: Global,
    site: Site,
    rel: Rel,
    left: Number,
    right: Number,
) -> Result<Value, OperationFault>
    ensures { (a b : CoreNumber) → a.next ≤ b.next → StandsNumber site.variables left a → StandsNumber site.variables right b
        → Answers (Stands site.variables) fits result
        (record { prelude = a.prelude ++ b.prelude; result = a_truth (related rel a.form b.form); next = b.next }) }
{
    let cond = related(alloc, rel, &left.form, &right.form)?;
    Ok(Value {
        prelude: left.prelude.joined(right.prelude)?,
        result: Outcome::Truth(Truth::of(site, right.next, cond)),
        next: right.next,
    })
}

/// `!` of a condition.
pub fn inverse(alloc: Global, inner: Tested) -> Result<Value, AllocError>
    ensures { IfOk result (λ value. (n : ℕ) (a : CoreTested) → StandsTested n inner a
        → Stands n value (record { prelude = a.prelude; result = a_truth (tree.negation a.condition); next = a.next })) }
{
    Ok(Value {
        prelude: inner.prelude,
        result: Outcome::Truth(inner.condition.inverse(alloc)?),
        next: inner.next,
    })
}

/// `&&` of two conditions, the right one read behind the left one. The checks of the right one stand under the left one.
pub fn both(alloc: Global, site: Site, left: Tested, right: Tested) -> Result<Value, AllocError>
    ensures { IfOk result (λ value. (a b : CoreTested) → a.next ≤ b.next → StandsTested site.variables left a
        → StandsTested site.variables right b → Stands site.variables value
        (record {
          prelude = a.prelude ++ all_under a.condition b.prelude;
          result = a_truth (tree.both a.condition b.condition);
          next = b.next;
        })) }
{
    let under = right.prelude.under(alloc, &left.condition)?;
    let truth = Truth::both(alloc, site, right.next, left.condition, right.condition)?;
    Ok(Value {
        prelude: left.prelude.joined(under)?,
        result: Outcome::Truth(truth),
        next: right.next,
    })
}

/// `||` of two conditions, the right one read behind the left one. The checks of the right one stand under "not" of the left one.
pub fn either(alloc: Global, site: Site, left: Tested, right: Tested) -> Result<Value, AllocError>
    ensures { IfOk result (λ value. (a b : CoreTested) → a.next ≤ b.next → StandsTested site.variables left a
        → StandsTested site.variables right b → Stands site.variables value
        (record {
          prelude = a.prelude ++ all_under (tree.negation a.condition) b.prelude;
          result = a_truth (tree.either a.condition b.condition);
          next = b.next;
        })) }
{
    let not_left = left.condition.again(alloc)?.inverse(alloc)?;
    let under = right.prelude.under(alloc, &not_left)?;
    let truth = Truth::either(alloc, site, right.next, left.condition, right.condition)?;
    Ok(Value {
        prelude: left.prelude.joined(under)?,
        result: Outcome::Truth(truth),
        next: right.next,
    })
}

/// `?:`: one of two numbers by a condition, each read behind the one before it, as the value of a hidden variable. The checks of each stand
/// under the condition. What is compared has to be in range.
pub fn chosen(
    alloc: Global,
    site: Site,
    condition: Tested,
    yes: Number,
    no: Number,
) -> Result<Value, OperationFault>
    ensures { (c : CoreTested) (f g : CoreNumber) → c.next ≤ f.next → f.next ≤ g.next → StandsTested site.variables condition c
        → StandsNumber site.variables yes f → StandsNumber site.variables no g
        → Answers (Stands site.variables) fits result (choice site.line c f g) }
{
    let hidden = variable_form(alloc, no.next)?;
    let is_yes = related(alloc, Rel::Eq, &hidden, &yes.form)?;
    let is_no = related(alloc, Rel::Eq, &hidden, &no.form)?;
    let truth = condition.condition;
    let not_truth = truth.again(alloc)?.inverse(alloc)?;
    let of_yes = yes.prelude.under(alloc, &truth)?;
    let of_no = no.prelude.under(alloc, &not_truth)?;
    let prelude = condition.prelude.joined(of_yes)?.joined(of_no)?;
    let one = one_of(alloc, site, behind(no.next)?, truth, is_yes, is_no)?;
    let before = Evaluated {
        prelude,
        next: no.next,
    };
    let after = taken_where(site, before, one)?;
    Ok(Value {
        prelude: after.prelude,
        result: Outcome::Form(hidden),
        next: after.next,
    })
}

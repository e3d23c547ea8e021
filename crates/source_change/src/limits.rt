//! The limits of a statement.

ghost use Rattle.std.specs.Prelude.{◌≡◌, List, [], ◌∷◌};
ghost use Rattle.lang_tree.specs.Tree.{Deed as Tree};
ghost use Rattle.lang_tree.specs.DeedView.{deeds_of, condition_of};
ghost use Rattle.source_core.specs.Elaborated as core;
ghost use Rattle.source_meaning.specs.Limits.{limited};
ghost use Rattle.source_value.specs.Kept.{kept_deeds};
ghost use Rattle.source_value.specs.Stands.{StandsEvaluated, StandsTested};
ghost use Rattle.source_reader.specs.Answers.{Answers};
ghost use Rattle.source_change.specs.Tests.{IsTest};

use crate::conditions::Test;
use lang_tree::Deed;
use source_meaning::{FunctionFault, Limit};
use source_reader::Stop;
use source_value::{Evaluated, Prelude, Site, Tested};

// The statement that begins at `at` passes this limit.
fn past(at: u32, which: Limit) -> Stop
    ensures { result ≡ Stop.Fault (FunctionFault.Limit at which) }
{
    Stop::Fault(FunctionFault::Limit { at, which })
}

// The deeds of the statement that begins at `at`, within its limits; `next` is the next hidden variable.
pub(crate) fn limited_deeds(
    site: Site,
    at: u32,
    prelude: Prelude,
    next: u32,
) -> Result<Vec<Deed>, Stop>
    ensures { (ds : List Tree) → prelude ≡ kept_deeds site.variables next ds
        → Answers (λ deeds es. deeds_of deeds.items ≡ es) result (limited site.variables at next ds [] ds) }
{
    if !site.is_within(next) {
        return Err(past(at, Limit::Hidden));
    }
    match prelude.into_list() {
        Some(deeds) => Ok(deeds),
        None => Err(past(at, Limit::Leaves)),
    }
}

// The deeds of what the statement that begins at `at` evaluates, within its limits (docs/FORMATS.md, "Functions").
pub(crate) fn evaluated(site: Site, at: u32, evaluated: Evaluated) -> Result<Vec<Deed>, Stop>
    ensures { (e : core.Evaluated) → StandsEvaluated site.variables evaluated e
        → Answers (λ deeds ds. deeds_of deeds.items ≡ ds) result (limited site.variables at e.next e.prelude [] e.prelude) }
{
    limited_deeds(site, at, evaluated.prelude, evaluated.next)
}

// The condition of the statement that begins at `at`, within its limits.
pub(crate) fn limited_test(site: Site, at: u32, tested: Tested) -> Result<Test, Stop>
    ensures { (t : core.Tested) → StandsTested site.variables tested t
        → Answers IsTest result (limited site.variables at t.next t.prelude (t.condition ∷ []) t) }
{
    if !site.is_within(tested.next) {
        return Err(past(at, Limit::Hidden));
    }
    let cond = match tested.condition.into_cond() {
        Some(cond) => cond,
        None => return Err(past(at, Limit::Leaves)),
    };
    match tested.prelude.into_list() {
        Some(prelude) => Ok(Test { prelude, cond }),
        None => Err(past(at, Limit::Leaves)),
    }
}

//! Changes as deeds.

ghost use Rattle.std.specs.Prelude.{◌≡◌, ◌↔◌, true};
ghost use Rattle.lang_tree.specs.DeedView.{deeds_of};
ghost use Rattle.source_tree.specs.Statements.{Change as Tree, sets};
ghost use Rattle.source_tree.specs.Expressions.{Expression};
ghost use Rattle.source_core.specs.Elaborated.{elaborated};
ghost use Rattle.source_core.specs.Core.{change_deeds};
ghost use Rattle.source_meaning.specs.Changes.{few};
ghost use Rattle.source_value.specs.Stands.{Stands};
ghost use Rattle.source_reader.specs.Answers.{Answers};
ghost use Rattle.source_change.specs.Changed.{StandsChange, counted_change};
ghost use Rattle.source_change.specs.Tests.{WasCounted};

use crate::limits::{evaluated, limited_deeds};
use lang_tree::Deed;
use source_names::Known;
use source_reader::Stop;
use source_value::{Evaluated, Outcome, Site, Value};
use std::alloc::Global;

// A change that was read: of a variable, or what is evaluated without use of its value.
#[derive(Drop)]
pub(crate) enum Changed {
    Sets { var: u32, value: Value },
    Evaluates(Evaluated),
}

fn is_any(outcome: &Outcome) -> bool
    ensures { (result ≡ true) ↔ (outcome.now ≡ Outcome.Any) }
{
    matches!(outcome, Outcome::Any)
}

// The variable takes the value: any without a hidden variable.
fn sets(alloc: Global, site: Site, at: u32, var: u32, value: Value) -> Result<Vec<Deed>, Stop>
    ensures { (e : Expression) → Stands site.variables value (elaborated site.integers site.line e site.variables)
        → Answers (λ deeds h. deeds_of deeds.items ≡ change_deeds site.integers site.variables h) result
        (few site.integers site.variables site.line at (sets var e site.line) (sets var e site.line)) }
{
    if is_any(&value.result) {
        let before = Evaluated {
            prelude: value.prelude,
            next: value.next,
        };
        return evaluated(site, at, before.with_any(alloc, site, var)?);
    }
    let number = value.into_number(alloc, site)?;
    let mut deeds = limited_deeds(site, at, number.prelude, number.next)?;
    deeds.push(Deed::Set {
        var,
        form: number.form,
        line: site.line,
    })?;
    Ok(deeds)
}

// The change as deeds, within the limits of the statement that begins at `at`.
fn limited_change(alloc: Global, site: Site, at: u32, changed: Changed) -> Result<Vec<Deed>, Stop>
    ensures { (g : Tree) → StandsChange site.integers site.variables site.line changed g
        → Answers (λ deeds h. deeds_of deeds.items ≡ change_deeds site.integers site.variables h) result
        (few site.integers site.variables site.line at g g) }
{
    match changed {
        Changed::Sets { var, value } => sets(alloc, site, at, var, value),
        Changed::Evaluates(all) => evaluated(site, at, all),
    }
}

// The change as deeds, which count as statements.
pub(crate) fn counted_change(
    alloc: Global,
    known: &mut Known,
    site: Site,
    at: u32,
    changed: Changed,
) -> Result<Vec<Deed>, Stop>
    ensures { (g : Tree) → StandsChange site.integers site.variables site.line changed g
        → Answers (λ deeds r. WasCounted site.integers site.variables known.new deeds.items r) result
        (counted_change site.integers site.variables site.line at known.old g) }
{
    let deeds = limited_change(alloc, site, at, changed)?;
    known.count(at, deeds.len())?;
    Ok(deeds)
}

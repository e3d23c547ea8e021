//! Why a certificate isn't accepted.

ghost use Rattle.std.specs.Prelude.{◌≡◌, ◌↔◌, [], ◌∷◌, ◌++◌, List, Ok, Err, IsTrue, IsOk, IfErr, MatchResult, MatchOption};
ghost use Rattle.base_fractions.specs.Operation.{operation_of};
ghost use Rattle.base_numbers.specs.Rational.{ℚ};
ghost use Rattle.flow_systems.specs.declared.spot.Site.{Site};
ghost use Rattle.theory_validity.specs.Decide.{dec_le_ℚ};
ghost use Rattle.theory_validity.specs.Faults.{Fault};
ghost use Rattle.cert_checker.specs.StepEvents.{at_item};
ghost use Rattle.cert_checker.specs.Events.{Answers, Event, IsRun, Test, decided, fault_answer, wide_answer};

use base_fractions::{Frac, Wide};
use flow_systems::{Site, Spot};

/// The first test of a certificate that fails, or the first sum that is too wide. Steps, items, unknowns and edges are
/// numbered from 0.
#[derive(Clone, Copy, Debug, PartialEq, Eq, Drop)]
pub enum CheckFault {
    /// The bounds aren't points times rows, or there is more evidence than is needed.
    Size,
    /// An item's unknown, edge or lengths, or a start that doesn't fit, or a guard that fails.
    Trace { step: u32, item: u32 },
    /// The value at the vector that the step finds.
    Low { step: u32, item: u32 },
    /// What a jump shows where its new bounds are in place.
    High { step: u32, item: u32 },
    /// The rate or the direction of a ray.
    Ray { step: u32, item: u32 },
    /// The evidence for this unknown and edge is absent or fails.
    Upper { unknown: u32, edge: u32 },
    /// The steps lead to another bound than the certificate's at this unknown, the lowest one.
    Final { unknown: u32 },
    /// A sum has a part above the limit of fractions.
    Wide(Spot),
}

/// The fault of an operation that was too wide at a site, outside rounds.
pub fn wide_at(site: Site, wide: Wide<Frac>) -> CheckFault
    ensures { result ≡ wide_answer site (operation_of (λ (q : ℚ). q) wide) }
{
    CheckFault::Wide(Spot {
        round: 0,
        site,
        wide,
    })
}

/// The site of an item of a step.
pub fn item_site(step: u32, item: u32) -> Site
    ensures { result ≡ at_item step item }
{
    Site::Step { step, item }
}

/// Ends a check with the fault unless the test passes.
pub fn ensure(passes: bool, fault: CheckFault) -> Result<(), CheckFault>
    ensures passed { IsOk result ↔ IsTrue passes }
    ensures fault { IfErr result (λ f. f ≡ fault) }
{
    if passes { Ok(()) } else { Err(fault) }
}

/// The value of a trace or a direction that was followed; the fault where it ended before, and that of the site where an
/// operation was too wide.
pub fn value_or(
    followed: Result<Option<Frac>, Wide<Frac>>,
    site: Site,
    fault: CheckFault,
) -> Result<Frac, CheckFault>
    ensures { MatchResult followed (λ o. MatchOption o (result ≡ Err fault) (λ v. result ≡ Ok v))
        (λ w. result ≡ Err (wide_answer site (operation_of (λ (q : ℚ). q) w))) }
{
    match followed {
        Ok(Some(value)) => Ok(value),
        Ok(None) => Err(fault),
        Err(wide) => Err(wide_at(site, wide)),
    }
}

/// Ends a check unless a trace or a direction was followed to its end and has at least this value there: with the fault, or with
/// that of the site where an operation was too wide.
pub fn ensure_reached(
    followed: Result<Option<Frac>, Wide<Frac>>,
    least: Frac,
    site: Site,
    fault: CheckFault,
) -> Result<(), CheckFault>
    ensures { (value : ℚ) (f : Fault) (events : Site → Fault → List Event) → Answers (λ v. v ≡ value) events followed
        → fault ≡ fault_answer f →
        IsRun (λ u. Unit {0}) (events site f ++ Test (decided (dec_le_ℚ least value)) f ∷ []) result }
{
    match followed {
        Ok(found) => match found {
            Some(value) => ensure(least <= value, fault),
            None => Err(fault),
        },
        Err(wide) => Err(wide_at(site, wide)),
    }
}

//! The tests of a certificate's evidence of upper bounds, in the order in which it is needed.

ghost use Rattle.std.specs.Prelude.{◌≡◌, ◌*◌, ◌<◌, ◌/◌, [], ◌∷◌, length, map};
ghost use Rattle.flow_systems.specs.Equations.{Vector};
ghost use Rattle.flow_systems.specs.View.{equations_of};
ghost use Rattle.solve_composition.specs.Composed.{AreComposed};
ghost use Rattle.cert_types.specs.Certificates.{evidence_of};
ghost use Rattle.theory_validity.specs.Certificates.{needs};
ghost use Rattle.cert_checker.specs.Events.{IsRun};
ghost use Rattle.cert_checker.specs.CheckEvents.{uppers_events};
ghost use Rattle.cert_checker.specs.Needs.{need_of, needs_left};
ghost use Rattle.cert_checker.specs.Stands.{Stands};

use crate::evidence::passes;
use crate::fault::{CheckFault, wide_at};
use crate::needs::Needed;
use cert_types::Upper;
use flow_systems::{Bounds, Site, System};
use solve_composition::Paths;

/// The tests of a piece of evidence for what is needed.
///
/// # Errors
///
/// The first test that fails, or the first sum that is too wide, whichever comes first. Takes no memory.
pub fn check_upper(
    system: &System,
    paths: &Paths,
    bounds: &Bounds,
    needed: Needed,
    upper: &Upper,
) -> Result<(), CheckFault>
    requires paths { AreComposed (equations_of system.now) paths.now }
    requires bounds { length bounds.now ≡ length system.now.flow.points * length system.now.template }
    requires unknown { needed.unknown < length bounds.now }
    requires edge { needed.edge < length system.now.flow.edges }
    ensures { (z : Vector) → Stands (equations_of system.now) bounds.now z →
        (need_of (equations_of system.now) needed).edge.to ≡ needed.unknown / length system.now.template →
        IsRun (λ u. Unit {0}) (uppers_events (equations_of system.now) z (need_of (equations_of system.now) needed ∷ [])
        (evidence_of upper.now ∷ [])) result }
{
    let Needed { unknown, edge } = needed;
    match passes(system, paths, bounds, unknown, edge, upper) {
        Ok(Some(())) => Ok(()),
        Ok(None) => Err(CheckFault::Upper { unknown, edge }),
        Err(wide) => Err(wide_at(Site::Upper { unknown, edge }, wide)),
    }
}

/// The test that from a place on no evidence is needed.
///
/// # Errors
///
/// The first evidence that is absent, if some is needed.
pub fn check_end(system: &System, bounds: &Bounds, from: Needed) -> Result<(), CheckFault>
    requires { length bounds.now ≡ length system.now.flow.points * length system.now.template }
    ensures { (z : Vector) → Stands (equations_of system.now) bounds.now z →
        IsRun (λ u. Unit {0}) (uppers_events (equations_of system.now) z (needs_left (equations_of system.now) z from) []) result }
{
    match from.next(system, bounds) {
        None => Ok(()),
        Some(Needed { unknown, edge }) => Err(CheckFault::Upper { unknown, edge }),
    }
}

/// The tests of all evidence that the bounds need, in order.
pub fn check_uppers(
    system: &System,
    paths: &Paths,
    bounds: &Bounds,
    uppers: &[Upper],
) -> Result<(), CheckFault>
    requires paths { AreComposed (equations_of system.now) paths.now }
    requires bounds { length bounds.now ≡ length system.now.flow.points * length system.now.template }
    ensures { (z : Vector) → Stands (equations_of system.now) bounds.now z →
        IsRun (λ u. Unit {0}) (uppers_events (equations_of system.now) z (needs (equations_of system.now) z) (map evidence_of uppers.now))
        result }
{
    let mut from = Needed::first(system);
    for upper in uppers {
        match from.next(system, bounds) {
            None => return Ok(()),
            Some(needed) => {
                check_upper(system, paths, bounds, needed, upper)?;
                from = needed.after();
            }
        }
    }
    check_end(system, bounds, from)
}

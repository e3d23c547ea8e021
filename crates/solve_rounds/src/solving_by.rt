//! The rounds by the two policies.

ghost use Rattle.std.specs.Prelude.{◌≤◌, IfOk, IfErr};
ghost use Rattle.base_limits.specs.declared.limits.TheConstants.{MOST_IMPROVEMENTS};
ghost use Rattle.flow_systems.specs.Equations.{Least};
ghost use Rattle.flow_systems.specs.View.{equations_of};
ghost use Rattle.theory_validity.specs.Certificates.{ValidCertificate};
ghost use Rattle.cert_types.specs.Shaped.{IsShaped};
ghost use Rattle.solve_offers.specs.AtBounds.{vector_at};
ghost use Rattle.solve_rounds.specs.Halts.{IsHalt};
ghost use Rattle.solve_offers.specs.Policies.{by_best, by_first};
ghost use Rattle.solve_rounds.specs.Solutions.{IsSolved, AreNumbered, cert_with, made_certificate};

use crate::halt::Halt;
use crate::solution::Solved;
use crate::solving::least;
use base_watch::Watch;
use flow_systems::System;
use solve_offers::{Chooser, best, first};
use std::alloc::Global;

/// The least bounds of a system as `least` finds them, each unknown taking the first edge whose transformer is greatest.
///
/// # Errors
///
/// As `least`.
#[tactic(auto, using(solve_offers::proofs::offers::Offered::best_exceeds))]
pub fn least_by_best<W: Watch>(
    alloc: Global,
    system: &System,
    limit: u32,
    watch: &mut W,
) -> Result<Solved, Halt>
    requires limit { limit ≤ MOST_IMPROVEMENTS }
    ensures solved { IfOk result (IsSolved system.now by_best limit) }
    ensures least { IfOk result (λ solved. Least (equations_of system.now) (vector_at system.now solved.bounds)) }
    ensures valid { IfOk result (λ solved. ValidCertificate (equations_of system.now) (made_certificate system.now solved)) }
    ensures shaped { IfOk result (λ solved. IsShaped (cert_with system.now solved)) }
    ensures numbered { IfOk result (λ solved. AreNumbered system.now solved.steps) }
    ensures halt { IfErr result (IsHalt system.now by_best limit) }
{
    least(alloc, system, limit, &Chooser::new(best), watch)
}

/// The least bounds of a system as `least` finds them, each unknown taking the first edge whose transformer exceeds its bound.
///
/// # Errors
///
/// As `least`.
pub fn least_by_first<W: Watch>(
    alloc: Global,
    system: &System,
    limit: u32,
    watch: &mut W,
) -> Result<Solved, Halt>
    requires limit { limit ≤ MOST_IMPROVEMENTS }
    ensures solved { IfOk result (IsSolved system.now by_first limit) }
    ensures least { IfOk result (λ solved. Least (equations_of system.now) (vector_at system.now solved.bounds)) }
    ensures valid { IfOk result (λ solved. ValidCertificate (equations_of system.now) (made_certificate system.now solved)) }
    ensures shaped { IfOk result (λ solved. IsShaped (cert_with system.now solved)) }
    ensures numbered { IfOk result (λ solved. AreNumbered system.now solved.steps) }
    ensures halt { IfErr result (IsHalt system.now by_first limit) }
{
    least(alloc, system, limit, &Chooser::new(first), watch)
}

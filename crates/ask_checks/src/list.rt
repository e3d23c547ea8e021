//! What bounds say of a list of checks.

ghost use Rattle.std.specs.Prelude.{◌+◌, ◌↔◌, List, IfOk, IfErr, OnOk, IsTrue, Contains, length};
ghost use Rattle.std.specs.List.{list_all};
ghost use Rattle.base_numbers.specs.Rational.{ℚ};
ghost use Rattle.flow_systems.specs.View.{equations_of, vector_at, IsVectorOf};
ghost use Rattle.ask_verdicts.specs.Breaking.{is_case};
ghost use Rattle.ask_checks.specs.Verdicts.{AreCheckVerdicts, ChecksFit, IsChecksFault};
ghost use Rattle.lang_tree.specs.declared.limits.TheConstants.{MOST_HIDDEN};

use crate::judge::check_verdict;
use crate::outcome::{CheckFault, ChecksFault};
use ask_verdicts::{Verdict, capped, is_proved};
use flow_edges::CheckCases;
use flow_systems::{Bounds, System};
use std::alloc::Global;

/// The verdicts of bounds on the checks of a program, one for each, in order: a check is `Open` where at some place of it, in
/// order of the edges, and for some case, in order, there is a state that breaks it, with the state of the first of these; else,
/// also where it has no place, it is `Proved` (docs/FORMATS.md, "Checks").
///
/// # Errors
///
/// `Wide` exactly where there is no verdict on some check since an operation is too wide for a fraction, with the first such
/// operation of the first such check.
pub fn check_verdicts(
    alloc: Global,
    system: &System,
    bounds: &Bounds,
    checks: &[CheckCases],
) -> Result<Vec<Verdict>, ChecksFault>
    requires bounds { IsVectorOf system.now bounds.now }
    requires against { IsTrue (list_all (λ check. list_all (is_case (length system.now.flow.names + MOST_HIDDEN)) check.against)
        checks.now) }
    ensures verdicts { IfOk result (λ list. AreCheckVerdicts (equations_of system.now) (vector_at system.now bounds.now) checks.now
        list.items) }
    ensures fits { OnOk result (ChecksFit (equations_of system.now) (vector_at system.now bounds.now) checks.now) }
    ensures refused { IfErr result (IsChecksFault (equations_of system.now) (vector_at system.now bounds.now) checks.now) }
{
    let mut list = Vec::new(alloc);
    for (number, check) in checks.iter().enumerate() {
        match check_verdict(alloc, system, bounds, check) {
            Ok(verdict) => list.push(verdict)?,
            Err(
                CheckFault::Wide {
                    edge,
                    case,
                    part,
                    wide,
                },
            ) => {
                return Err(ChecksFault::Wide {
                    check: capped(number),
                    edge,
                    case,
                    part,
                    wide,
                });
            }
            Err(CheckFault::NoMemory) => return Err(ChecksFault::NoMemory),
        }
    }
    Ok(list)
}

/// Whether a check is open.
pub fn has_open(verdicts: &[Verdict]) -> bool
    ensures { IsTrue result ↔ ((state : List ℚ) × Contains verdicts.now (Verdict.Open state)) }
{
    verdicts.iter().any(|verdict| !is_proved(verdict))
}

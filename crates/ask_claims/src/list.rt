//! What bounds say of a list of claims.

ghost use Rattle.std.specs.Prelude.{IfOk, IfErr, OnOk, All};
ghost use Rattle.flow_systems.specs.View.{equations_of, vector_at, IsVectorOf};
ghost use Rattle.ask_claims.specs.AllVerdicts.{AreVerdicts, ClaimsFit, IsClaimsFault};
ghost use Rattle.ask_claims.specs.Claims.{IsClaimOf};

use crate::claim::Claim;
use crate::outcome::ClaimsFault;
use ask_verdicts::{Verdict, VerdictFault, capped, verdict};
use flow_systems::{Bounds, System};
use std::alloc::Global;

/// The verdicts of bounds on claims, one for each, in order.
///
/// # Errors
///
/// `Wide` exactly where there is no verdict on some claim since an operation is too wide for a fraction, with the first such
/// operation of the first such claim.
pub fn verdicts(
    alloc: Global,
    system: &System,
    bounds: &Bounds,
    claims: &[Claim],
) -> Result<Vec<Verdict>, ClaimsFault>
    requires bounds { IsVectorOf system.now bounds.now }
    requires claims { All (IsClaimOf system.now.flow) claims.now }
    ensures verdicts { IfOk result (λ list. AreVerdicts (equations_of system.now) (vector_at system.now bounds.now) claims.now list.items) }
    ensures fits { OnOk result (ClaimsFit (equations_of system.now) (vector_at system.now bounds.now) claims.now) }
    ensures refused { IfErr result (IsClaimsFault (equations_of system.now) (vector_at system.now bounds.now) claims.now) }
{
    let mut list = Vec::new(alloc);
    for (number, claim) in claims.iter().enumerate() {
        match verdict(
            alloc,
            system,
            bounds,
            claim.point,
            &[],
            claim.against.as_slice(),
        ) {
            Ok(verdict) => list.push(verdict)?,
            Err(VerdictFault::Wide { case, part, wide }) => {
                return Err(ClaimsFault::Wide {
                    claim: capped(number),
                    case,
                    part,
                    wide,
                });
            }
            Err(VerdictFault::NoMemory) => return Err(ClaimsFault::NoMemory),
        }
    }
    Ok(list)
}

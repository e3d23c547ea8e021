//! Whether the steps lead to the certificate's bounds.

ghost use Rattle.std.specs.Prelude.{◌≡◌, ◌<◌, ◌^◌, length};
ghost use Rattle.flow_systems.specs.Equations.{Equations, Vector};
ghost use Rattle.theory_validity.specs.Faults.{unknowns};
ghost use Rattle.cert_checker.specs.Events.{IsRun};
ghost use Rattle.cert_checker.specs.CheckEvents.{final_events};
ghost use Rattle.cert_checker.specs.Stands.{Stands};

use crate::fault::CheckFault;
use flow_systems::Bounds;

/// Compares the vector that the steps lead to with the bounds, unknown by unknown.
pub fn compare(reached: &Bounds, bounds: &Bounds) -> Result<(), CheckFault>
    requires few { length bounds.now < 2 ^ 32 }
    requires size { length reached.now ≡ length bounds.now }
    ensures { (system : Equations) (z goal : Vector) → Stands system reached.now z → Stands system bounds.now goal →
        IsRun (λ u. Unit {0}) (final_events system z goal (unknowns system)) result }
{
    for unknown in 0..bounds.as_slice().len() as u32 {
        if reached.at(unknown) != bounds.at(unknown) {
            return Err(CheckFault::Final { unknown });
        }
    }
    Ok(())
}

//! What is read from the point of a joint problem.

ghost use Rattle.std.specs.Prelude.{◌≡◌, ◌∷◌, ◌++◌, [], ◌<◌, None, MatchResult, length, map, get_or};
ghost use Rattle.base_numbers.specs.Rational.{◌+ℚ◌};
ghost use Rattle.base_fractions.specs.declared.wide.Op.TheVariants.{Add};
ghost use Rattle.flow_systems.specs.declared.spot.PartFault.TheVariants.{NoMemory};
ghost use Rattle.solve_ray.specs.Answers.{PartAnswers};
ghost use Rattle.solve_ray.specs.Ranges.{AreWithin, IsWithin};
ghost use Rattle.solve_ray.specs.Reading.{direction_operations};
ghost use Rattle.solve_joint.specs.Layouts.{AreBounded, number_at, number_operation, number_operations, trace_at, trace_operations};

use crate::problem::finite;
use base_fractions::{Frac, OrderedField};
use base_list::Sequence;
use flow_systems::{Bounds, Fracs, Part, PartFault, Trace};
use solve_ray::{Rise, entries};
use std::alloc::Global;

/// Traces in order.
pub type Traces = Sequence<Trace>;

// Puts a value behind the others.
fn append<T: Drop>(list: &mut Vec<T>, value: T) -> Result<(), PartFault>
    ensures { MatchResult result (λ u. list.new.items ≡ list.old.items ++ value ∷ []) (λ f. f ≡ NoMemory) }
{
    match list.push(value) {
        Ok(()) => Ok(()),
        Err(_) => Err(PartFault::NoMemory),
    }
}

// The sum of a bound and a rise.
fn sum(bound: Frac, rise: Frac) -> Result<Frac, PartFault>
    ensures { PartAnswers (bound +ℚ rise) (record { op = Add; left = bound; right = rise } ∷ []) result }
{
    match bound.plus(rise) {
        Ok(value) => Ok(value),
        Err(wide) => Err(PartFault::Wide {
            part: Part::Reading,
            wide,
        }),
    }
}

/// The numbers of the list at the point: base plus rise.
pub fn numbers(
    alloc: Global,
    base: &Bounds,
    rises: &[Rise],
    point: &[Frac],
) -> Result<Fracs, PartFault>
    requires within { AreWithin (length point.now) rises.now }
    requires bounded { AreBounded (length base.now) rises.now }
    ensures { PartAnswers (map (number_at base.now point.now) rises.now) (number_operations base.now point.now rises.now) result }
{
    let mut list = Vec::new(alloc);
    for rise in rises {
        let value = sum(finite(base.at(rise.unknown)), point[rise.col as usize])?;
        append(&mut list, value)?;
    }
    Ok(Fracs::new(list))
}

// The trace of one unknown.
fn trace(alloc: Global, rise: &Rise, point: &[Frac]) -> Result<Trace, PartFault>
    requires { IsWithin (length point.now) rise.now }
    ensures { PartAnswers (trace_at point.now rise.now) (direction_operations point.now rise.now) result }
{
    let start = entries(alloc, point, rise.starts.as_slice())?;
    let free = entries(alloc, point, rise.frees.as_slice())?;
    Ok(Trace { start, free })
}

/// The traces of the list at the point: each entry is the positive column minus the negative one.
pub fn high_traces(alloc: Global, rises: &[Rise], point: &[Frac]) -> Result<Traces, PartFault>
    requires { AreWithin (length point.now) rises.now }
    ensures { PartAnswers (map (trace_at point.now) rises.now) (trace_operations point.now rises.now) result }
{
    let mut list = Vec::new(alloc);
    for rise in rises {
        let trace = trace(alloc, rise, point)?;
        append(&mut list, trace)?;
    }
    Ok(Traces::new(list))
}

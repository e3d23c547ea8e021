//! What the outcome of a joint problem says of the listed unknowns.

ghost use Rattle.std.specs.Prelude.{◌≡◌, length};
ghost use Rattle.solve_ray.specs.Answers.{PartAnswers};
ghost use Rattle.solve_ray.specs.Ranges.{AreWithin};
ghost use Rattle.solve_joint.specs.Layouts.{AreBounded};
ghost use Rattle.solve_joint.specs.Readings.{point_read, point_operations, ray_read, ray_operations, IsReadable, ReadsOutcome};

use crate::joined::Joined;
use crate::point::{high_traces, numbers};
use base_fractions::Frac;
use flow_systems::{Bounds, PartFault};
use lp_simplex::Outcome;
use solve_ray::{Layout, Rise, Rises, rates};
use std::alloc::Global;

// The numbers and the traces at a point.
fn read_point(
    alloc: Global,
    base: &Bounds,
    rises: &[Rise],
    point: &[Frac],
) -> Result<Joined, PartFault>
    requires within { AreWithin (length point.now) rises.now }
    requires bounded { AreBounded (length base.now) rises.now }
    ensures { PartAnswers (point_read base.now point.now rises.now) (point_operations base.now point.now rises.now) result }
{
    let to = numbers(alloc, base, rises, point)?;
    let highs = high_traces(alloc, rises, point)?;
    Ok(Joined::Point { to, highs })
}

// The rates and directions of a ray.
fn read_ray(alloc: Global, rises: Vec<Rise>, ray: &[Frac]) -> Result<Joined, PartFault>
    requires { AreWithin (length ray.now) rises.items }
    ensures { PartAnswers (ray_read ray.now rises.items) (ray_operations ray.now rises.items) result }
{
    let layout = Layout {
        rises: Rises::new(rises),
    };
    let found = rates(alloc, &layout, ray)?;
    Ok(Joined::Ray(found))
}

/// What is read from an outcome that isn't empty.
pub fn read(
    alloc: Global,
    base: &Bounds,
    rises: Vec<Rise>,
    outcome: Outcome<Frac>,
) -> Result<Joined, PartFault>
    requires bounded { AreBounded (length base.now) rises.items }
    requires readable { IsReadable rises.items outcome }
    ensures { ReadsOutcome base.now rises.items outcome result }
{
    match outcome {
        Outcome::Best { point, .. } => {
            read_point(alloc, base, rises.as_slice(), point.as_slice())
        }
        Outcome::Unbounded { ray, .. } => read_ray(alloc, rises, ray.as_slice()),
        Outcome::Empty { .. } => unreachable!(),
    }
}

//! The step that raises one unknown.

ghost use Rattle.std.specs.Prelude.{◌≡◌, ℕ, ◌*◌, ◌<◌, List, [], ◌∷◌, None, IfOk, IfErr, OnOk, length};
ghost use Rattle.base_numbers.specs.Rational.{ℚ};
ghost use Rattle.base_numbers.specs.Extended.{◌<ᴱ◌};
ghost use Rattle.base_fractions.specs.Fits.{long_limit};
ghost use Rattle.base_fractions.specs.Extended.{extended};
ghost use Rattle.base_fractions.specs.Operation.{first_wide};
ghost use Rattle.flow_systems.specs.Equations.{Equations};
ghost use Rattle.flow_systems.specs.Faults.{AnswersBy, IsFaultOf};
ghost use Rattle.flow_systems.specs.View.{equations_of};
ghost use Rattle.cert_types.specs.declared.step.Step.TheVariants.{Plain as PlainStep, Ray as RayStep};
ghost use Rattle.cert_types.specs.Certificates.{step_of};
ghost use Rattle.solve_composition.specs.declared.value.Value.TheVariants.{Best, Unbounded};
ghost use Rattle.solve_composition.specs.Value.{number_of};
ghost use Rattle.solve_raise.specs.Raises.{HasSizes, Rises, choice_of, raised, raise_operations};

use crate::carry::carried;
use crate::fault::RaiseFault;
use crate::low::low;
use crate::number::raised_number;
use base_fractions::{Ext, Frac};
use cert_types::{Item, Items, RayItem, RayItems, Step};
use flow_systems::{Constants, System, Trace};
use solve_composition::Value;
use std::alloc::Global;

// The step of one item that gives the unknown this bound.
fn plain(alloc: Global, unknown: u32, edge: u32, low: Trace, to: Frac) -> Result<Step, RaiseFault>
    ensures { AnswersBy (λ step. step ≡ PlainStep (record { unknown = unknown; edge = edge; low = low; to = to } ∷ [])) [] result }
{
    let item = Item {
        unknown,
        edge,
        low,
        to,
    };
    Ok(Step::Plain(Items::new(vec![in alloc; item]?)))
}

// The step of one item that gives the unknown `+inf`.
fn ray(
    alloc: Global,
    unknown: u32,
    edge: u32,
    low: Trace,
    direction: Trace,
    rate: Frac,
) -> Result<Step, RaiseFault>
    ensures { AnswersBy (λ step. step ≡ RayStep (record { unknown = unknown; edge = edge; low = low; direction = direction; rate = rate }
        ∷ [])) [] result }
{
    let item = RayItem {
        unknown,
        edge,
        low,
        direction,
        rate,
    };
    Ok(Step::Ray(RayItems::new(vec![in alloc; item]?)))
}

// The step that raises an unknown towards a best value.
fn raise_towards(
    alloc: Global,
    unknown: u32,
    edge: u32,
    bound: Ext,
    value: Frac,
    trace: Trace,
) -> Result<Step, RaiseFault>
    ensures { (system : Equations) (n : ℕ) (rows guards : List ℚ) →
        AnswersBy (λ step. step_of n step ≡ raised system (choice_of n unknown edge) (extended bound) (Best value trace rows guards))
        (raise_operations system (choice_of n unknown edge) (extended bound) (Best value trace rows guards)) result }
{
    let to = raised_number(bound, value)?;
    plain(alloc, unknown, edge, trace, to)
}

// The step that raises an unknown to `+inf`.
fn raise_for_ever(
    alloc: Global,
    system: &System,
    unknown: u32,
    edge: u32,
    bound: Ext,
    trace: Trace,
    direction: Trace,
) -> Result<Step, RaiseFault>
    requires unknown { unknown < length system.now.flow.points * length system.now.template }
    requires edge { edge < length system.now.flow.edges }
    requires sizes { HasSizes (equations_of system.now) (choice_of (length system.now.template) unknown edge) (Unbounded trace direction) }
    requires rises { Rises (equations_of system.now) (choice_of (length system.now.template) unknown edge) (Unbounded trace direction) }
    ensures { AnswersBy (λ step. step_of (length system.now.template) step ≡ raised (equations_of system.now)
        (choice_of (length system.now.template) unknown edge) (extended bound) (Unbounded trace direction))
        (raise_operations (equations_of system.now) (choice_of (length system.now.template) unknown edge) (extended bound)
        (Unbounded trace direction)) result }
{
    let row = unknown % system.template.as_slice().len() as u32;
    let rate = carried(system, edge, row, Constants::Zero, &direction)?;
    let low = low(alloc, system, edge, row, bound, trace, &direction, rate)?;
    ray(alloc, unknown, edge, low, direction, rate)
}

/// The step of a certificate that raises the unknown of this number, whose bound is this, towards the value of the transformer
/// of an edge into its point and of its row. `docs/METHOD.md` says how unknowns grow.
///
/// Towards a best value it is a plain step by the value's trace: from `-inf` to one less than the value; from a fraction to
/// the least whole number above it where that fits a fraction and is below the value, and else to the middle between both.
/// Where there is no bound it is a ray along the value's direction, at the rate at which the row rises along it when every
/// constant is taken as 0. Its trace is the value's where the bound is `-inf` or that trace exceeds the bound; else it is moved
/// along the direction, so many times as the gap to the bound has rates, rounded down, and once more.
///
/// Unknowns and edges are numbered from 0. The trace is moved into the step.
///
/// # Errors
///
/// `Wide` with the first of these operations that is wide. For a best value: from `-inf` the value minus 1; for a middle the sum
/// and its half. Where there is no bound: the sums of the rate, assignment by assignment and then the row; from a fraction those
/// of the trace's value likewise; then, if the trace is moved, the difference of bound and value, the quotient by the rate, the
/// sum with 1, and for each entry of the trace, the start before the free values, its product and its sum. `NoMemory`.
pub fn raise(
    alloc: Global,
    system: &System,
    unknown: u32,
    edge: u32,
    bound: Ext,
    value: Value,
) -> Result<Step, RaiseFault>
    requires unknown { unknown < length system.now.flow.points * length system.now.template }
    requires edge { edge < length system.now.flow.edges }
    requires exceeds { extended bound <ᴱ number_of value }
    requires sizes { HasSizes (equations_of system.now) (choice_of (length system.now.template) unknown edge) value }
    requires rises { Rises (equations_of system.now) (choice_of (length system.now.template) unknown edge) value }
    ensures step { IfOk result (λ step. step_of (length system.now.template) step ≡ raised (equations_of system.now)
        (choice_of (length system.now.template) unknown edge) (extended bound) value) }
    ensures fits { OnOk result (first_wide long_limit
        (raise_operations (equations_of system.now) (choice_of (length system.now.template) unknown edge) (extended bound) value) ≡ None) }
    ensures refused { IfErr result (IsFaultOf
        (raise_operations (equations_of system.now) (choice_of (length system.now.template) unknown edge) (extended bound) value)) }
{
    match value {
        Value::Best { value, trace, .. } => {
            raise_towards(alloc, unknown, edge, bound, value, trace)
        }
        Value::Unbounded { trace, direction } => {
            raise_for_ever(alloc, system, unknown, edge, bound, trace, direction)
        }
        Value::Unreached { .. } | Value::Empty { .. } => unreachable!(),
    }
}

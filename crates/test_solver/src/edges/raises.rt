//! Raises on one edge: towards values, without end, and with an operation that is wide.

ghost use Rattle.std.specs.Prelude.{◌≡◌, ◌<◌, ◌^◌, [], IfOk, IsTrue, Some, length, nat_abs, slice_get};
ghost use Rattle.base_numbers.specs.Extended.{fin, ◌<ᴱ◌};
ghost use Rattle.lang_tree.specs.Limits.{is_form};
ghost use Rattle.flow_edges.specs.declared.edge.Edge.{Edge as EdgeOf};
ghost use Rattle.base_fractions.specs.Extended.{extended};
ghost use Rattle.flow_systems.specs.FreeValues.{free_count};
ghost use Rattle.solve_composition.specs.declared.value.Value.TheVariants.{Best};

use crate::cases::{Case, Fail, first_wrong};
use base_fractions::{Ext, Frac, Op, OrderedField, Wide};
use cert_types::{Item, RayItem, Step};
use flow_edges::{Action, Actions, Edge, Edges, Flow, Place, Point, Points};
use flow_systems::{Constants, Fracs, System, Trace};
use flow_templates::intervals;
use lang_tree::{Coeffs, Form, Name, Names};
use solve_composition::Value;
use solve_raise::{RaiseFault, carried, raise};
use std::alloc::{AllocError, Global};

/// A numerator and a denominator.
type Number = (i64, i64);

fn frac(number: Number) -> Result<Frac, Fail> {
    Ok(Frac::make(number.0, number.1).ok_or("a fraction")?)
}

// A bound; nothing stands for -inf.
fn bound_of(bound: Option<Number>) -> Result<Ext, Fail> {
    match bound {
        Some(number) => Ok(Ext::Fin(frac(number)?)),
        None => Ok(Ext::NegInf),
    }
}

// A trace of one start value and no free values.
fn trace_from(alloc: Global, start: Frac) -> Result<Trace, AllocError>
    ensures { IfOk result (λ trace. (length trace.start ≡ 1) × (length trace.free ≡ 0)) }
{
    Ok(Trace {
        start: Fracs::new(vec![in alloc; start]?),
        free: Fracs::new(Vec::new(alloc)),
    })
}

// A form over x.
fn form(alloc: Global, coeff: i64, constant: i64) -> Result<Form, AllocError>
    requires coeff { nat_abs coeff < 2 ^ 63 }
    requires constant { nat_abs constant < 2 ^ 63 }
    ensures { IfOk result (λ f. IsTrue (is_form 1 f)) }
{
    Ok(Form {
        coeffs: Coeffs::new(vec![in alloc; coeff]?),
        constant,
    })
}

// int x; assume(0 <= (2^63 - 1) * x); x = x + 1; over x and -x.
fn counter(alloc: Global) -> Result<System, Fail>
    ensures names { IfOk result (λ s. length s.flow.names ≡ 1) }
    ensures points { IfOk result (λ s. length s.flow.points ≡ 2) }
    ensures rows { IfOk result (λ s. length s.template ≡ 2) }
    ensures edges { IfOk result (λ s. length s.flow.edges ≡ 1) }
    ensures free { IfOk result (λ s. (e : EdgeOf) → slice_get s.flow.edges 0 ≡ Some e → free_count e.actions ≡ 0) }
{
    let actions = Vec::from_array(
        alloc,
        [
            Action::Guard(form(alloc, -9223372036854775807, 0)?),
            Action::Assign {
                var: 0,
                form: form(alloc, 1, 1)?,
            },
        ],
    )?;
    let names = Vec::from_array(alloc, [Name::new(b"x").ok_or("a word")?])?;
    let points = Vec::from_array(alloc, [point(Place::Entry), point(Place::Exit)])?;
    let edges = Vec::from_array(
        alloc,
        [Edge {
            from: 0,
            to: 1,
            actions: Actions::new(actions),
        }],
    )?;
    let flow = Flow {
        names: Names::new(names),
        points: Points::new(points),
        edges: Edges::new(edges),
    };
    let template = intervals(alloc, 1)?;
    Ok(System { flow, template })
}

// A point.
fn point(place: Place) -> Point
    ensures place { result.place ≡ place }
    ensures line { result.line ≡ 0 }
{
    Point { place, line: 0 }
}

// Whether a bound is below a value.
fn is_below(bound: &Ext, value: Frac) -> bool
    ensures { IsTrue result → extended bound.now <ᴱ fin value }
{
    match bound {
        Ext::NegInf => true,
        Ext::Fin(limit) => *limit < value,
        Ext::PosInf => false,
    }
}

// A best value without multipliers.
fn best(alloc: Global, value: Frac, trace: Trace) -> Value
    ensures { result ≡ Best value trace [] [] }
{
    Value::Best {
        value,
        trace,
        rows: Fracs::new(Vec::new(alloc)),
        guards: Fracs::new(Vec::new(alloc)),
    }
}

// The raise of x at the exit towards a value that a start value reaches.
fn towards(
    alloc: Global,
    bound: Ext,
    value: Frac,
    start: Frac,
) -> Result<Result<Step, RaiseFault>, Fail> {
    let system = counter(alloc)?;
    if !is_below(&bound, value) {
        return Err("a bound below the value".into());
    }
    let trace = trace_from(alloc, start)?;
    Ok(raise(alloc, &system, 2, 0, bound, best(alloc, value, trace)))
}

// The raise of x at the exit by a start value and a slope.
fn for_ever(
    alloc: Global,
    bound: Ext,
    start: Frac,
    slope: Frac,
) -> Result<Result<Step, RaiseFault>, Fail> {
    let system = counter(alloc)?;
    let trace = trace_from(alloc, start)?;
    let direction = trace_from(alloc, slope)?;
    let Ok(rate) = carried(&system, 0, 0, Constants::Zero, &direction) else {
        return Err("a small rate".into());
    };
    if rate <= Frac::zero() {
        return Err("a rate above 0".into());
    }
    if matches!(bound, Ext::PosInf) {
        return Err("a bound below +inf".into());
    }
    let value = Value::Unbounded { trace, direction };
    Ok(raise(alloc, &system, 2, 0, bound, value))
}

// Whether an item raises x at the exit by the edge to this number, with this start value.
fn is_item(item: &Item, start: Frac, to: Frac) -> bool {
    item.unknown == 2
        && item.edge == 0
        && item.to == to
        && item.low.start.as_slice() == [start].as_slice()
}

// Whether a raise is a plain step of this one item.
fn is_plain(found: &Result<Step, RaiseFault>, start: Frac, to: Frac) -> bool {
    match found {
        Ok(Step::Plain(items)) => {
            let items = items.as_slice();
            items.len() == 1 && is_item(&items[0], start, to)
        }
        _ => false,
    }
}

// Whether an item raises x at the exit by the edge along this slope, from this start value.
fn is_ray_item(item: &RayItem, start: Frac, slope: Frac) -> bool {
    item.unknown == 2
        && item.edge == 0
        && item.rate == slope
        && item.low.start.as_slice() == [start].as_slice()
        && item.direction.start.as_slice() == [slope].as_slice()
}

// Whether a raise is a ray of this one item.
fn is_ray(found: &Result<Step, RaiseFault>, start: Frac, slope: Frac) -> bool {
    match found {
        Ok(Step::Ray(items)) => {
            let items = items.as_slice();
            items.len() == 1 && is_ray_item(&items[0], start, slope)
        }
        _ => false,
    }
}

// The operation that was wide.
fn wide_of(found: &Result<Step, RaiseFault>) -> Option<Wide<Frac>> {
    match found {
        Err(RaiseFault::Wide(wide)) => Some(*wide),
        _ => None,
    }
}

/// What a raise answers: a plain step to a number, a ray from a low start value, a wide operation with its operands, or no
/// wide operation.
#[derive(Clone, Copy)]
enum Answer {
    To(Number),
    From(Number),
    Wide(Op, Number, Number),
    NotWide,
}

// Whether a raise with this start value, or along this slope, answers so.
fn answers(
    found: &Result<Step, RaiseFault>,
    start: Frac,
    slope: Frac,
    answer: Answer,
) -> Result<bool, Fail> {
    match answer {
        Answer::To(to) => Ok(is_plain(found, start, frac(to)?)),
        Answer::From(low) => Ok(is_ray(found, frac(low)?, slope)),
        Answer::Wide(op, left, right) => {
            let (left, right) = (frac(left)?, frac(right)?);
            Ok(wide_of(found) == Some(Wide { op, left, right }))
        }
        Answer::NotWide => Ok(wide_of(found).is_none()),
    }
}

/// A raise towards a value: the bound, the value, the start value, and the answer.
struct RaiseTowards(Option<Number>, Number, Number, Answer);

fn is_raised_towards(alloc: Global, case: &RaiseTowards) -> Result<bool, Fail> {
    let (bound, value, start) = (bound_of(case.0)?, frac(case.1)?, frac(case.2)?);
    let found = towards(alloc, bound, value, start)?;
    answers(&found, start, start, case.3)
}

impl Case for RaiseTowards {
    fn is_right(&self, alloc: Global) -> bool {
        matches!(is_raised_towards(alloc, self), Ok(true))
    }
}

/// A raise without end: the bound, the start value, the slope, and the answer.
struct RaiseForEver(Option<Number>, Number, Number, Answer);

fn is_raised_for_ever(alloc: Global, case: &RaiseForEver) -> Result<bool, Fail> {
    let (bound, start, slope) = (bound_of(case.0)?, frac(case.1)?, frac(case.2)?);
    let found = for_ever(alloc, bound, start, slope)?;
    answers(&found, start, slope, case.3)
}

impl Case for RaiseForEver {
    fn is_right(&self, alloc: Global) -> bool {
        matches!(is_raised_for_ever(alloc, self), Ok(true))
    }
}

const ZERO: Number = (0, 1);

const ONE: Number = (1, 1);

const TWO: Number = (2, 1);

const HALF: Number = (1, 2);

const FIVE: Number = (5, 1);

const MOST: Number = (9223372036854775807, 1);

const LEAST: Number = (-9223372036854775807, 1);

const CLOSE: Number = (9223372036854775806, 1);

const SECOND: Number = (-9223372036854775806, 1);

// The number of the raise: from -inf one less, else the next whole number below the value or the middle.
const VALUES: &[RaiseTowards] = &[
    RaiseTowards(None, (7, 1), ONE, Answer::To((6, 1))),
    RaiseTowards(Some(ZERO), (100, 1), ONE, Answer::To(ONE)),
    RaiseTowards(Some(ZERO), HALF, ONE, Answer::To((1, 4))),
    RaiseTowards(Some(ZERO), ONE, ONE, Answer::To(HALF)),
    RaiseTowards(Some(HALF), (13, 3), ONE, Answer::To(ONE)),
    RaiseTowards(Some((-7, 2)), ONE, ONE, Answer::To((-3, 1))),
];

#[test]
fn raises_towards_values(rt: HostRuntime) {
    assert_eq!(rt; first_wrong(rt.alloc(), VALUES), None);
}

// The low trace from 0. The end value of 0 is 1.
const RAYS: &[RaiseForEver] = &[
    RaiseForEver(None, ZERO, ONE, Answer::From(ZERO)),
    RaiseForEver(Some(ZERO), ZERO, ONE, Answer::From(ZERO)),
    RaiseForEver(Some(ONE), ZERO, ONE, Answer::From(ONE)),
    RaiseForEver(Some(FIVE), ZERO, ONE, Answer::From(FIVE)),
    RaiseForEver(Some(FIVE), ZERO, TWO, Answer::From((6, 1))),
    RaiseForEver(Some((7, 2)), ZERO, TWO, Answer::From((4, 1))),
];

#[test]
fn raises_without_end(rt: HostRuntime) {
    assert_eq!(rt; first_wrong(rt.alloc(), RAYS), None);
}

const WIDE_VALUES: &[RaiseTowards] = &[
    RaiseTowards(None, LEAST, ZERO, Answer::Wide(Op::Sub, LEAST, ONE)),
    RaiseTowards(Some(CLOSE), MOST, ZERO, Answer::Wide(Op::Add, CLOSE, MOST)),
];

#[test]
fn wide_values(rt: HostRuntime) {
    assert_eq!(rt; first_wrong(rt.alloc(), WIDE_VALUES), None);
}

// The operation that is wide, if any. The end value is one more than the start value.
const WIDE_RAYS: &[RaiseForEver] = &[
    RaiseForEver(None, MOST, ONE, Answer::NotWide),
    RaiseForEver(Some(ZERO), MOST, ONE, Answer::Wide(Op::Add, MOST, ONE)),
    RaiseForEver(Some(ZERO), LEAST, ONE, Answer::NotWide),
    RaiseForEver(Some(ONE), LEAST, ONE, Answer::Wide(Op::Add, MOST, ONE)),
    RaiseForEver(Some(MOST), LEAST, ONE, Answer::Wide(Op::Sub, MOST, SECOND)),
];

#[test]
fn wide_rays(rt: HostRuntime) {
    assert_eq!(rt; first_wrong(rt.alloc(), WIDE_RAYS), None);
}

//! Operations on operands that were read.

ghost use Rattle.std.specs.Prelude.{◌≡◌, ℕ, true, false};
ghost use Rattle.source_tree.specs.Expressions.{Expression};
ghost use Rattle.source_meaning.specs.Expressions as meaning;
ghost use Rattle.source_meaning.specs.Expressions.{behind, behind_number, behind_side};
ghost use Rattle.source_reader.specs.Answers.{Answers};
ghost use Rattle.source_expression.specs.Signs.{asks_conditions, prefix_of};
ghost use Rattle.source_expression.specs.Sides.{IsNumberOf, IsRead, IsTestedOf, StandsSide, next_of, sides_worked, worked};

use crate::signs::{Prefix, Work};
use source_reader::{Stop, placed};
use source_value::{
    Number, Site, Tested, Value, both, compared, either, inverse, negative, operated, positive,
};
use std::alloc::Global;

/// What a sign between two sides does, and its place.
#[derive(Clone, Copy)]
pub(crate) struct Sign {
    pub work: Work,
    pub at: u32,
}

/// A side of an operation, as the number or the condition that the operation asks for.
#[derive(Drop)]
pub(crate) enum Side {
    Number(Number),
    Condition(Tested),
}

impl Side {
    /// The next hidden variable.
    pub fn next(&self) -> u32
        ensures { result ≡ next_of self.now }
    {
        match self {
            Side::Number(number) => number.next,
            Side::Condition(condition) => condition.next,
        }
    }
}

/// A value as a side of an operation; its first token stands at `first`.
pub(crate) fn as_side(
    alloc: Global,
    site: Site,
    work: Work,
    first: u32,
    value: Value,
) -> Result<Side, Stop>
    ensures { (x : Expression) (h : ℕ) → IsRead site h value x
        → Answers (StandsSide site.integers site.variables site.line (asks_conditions work) h) result
        (meaning.side site.integers site.line (asks_conditions work) first h x) }
{
    if work.asks_conditions() {
        Ok(Side::Condition(placed(value.into_condition(site), first)?))
    } else {
        Ok(Side::Number(value.into_number(alloc, site)?))
    }
}

// `&&` or `||` of two conditions, the right one read behind the left one.
fn of_conditions(
    alloc: Global,
    site: Site,
    work: Work,
    left: Tested,
    right: Tested,
) -> Result<Value, Stop>
    ensures { (x y : Expression) (h sign : ℕ) → asks_conditions work ≡ true → IsTestedOf site h left x
        → IsTestedOf site (behind site.integers site.line x h) right y
        → Answers (IsRead site h) result (worked site.integers site.line work sign h x y) }
{
    match work {
        Work::Either => Ok(either(alloc, site, left, right)?),
        Work::Both => Ok(both(alloc, site, left, right)?),
        Work::Compare(_) => Err(Stop::Unlike),
        Work::Operate(_) => Err(Stop::Unlike),
    }
}

// An operation on two numbers, or a comparison of them, the right one read behind the left one.
fn of_numbers(
    alloc: Global,
    site: Site,
    sign: Sign,
    left: Number,
    right: Number,
) -> Result<Value, Stop>
    ensures { (x y : Expression) (h : ℕ) → asks_conditions sign.work ≡ false → IsNumberOf site h left x
        → IsNumberOf site (behind_number site.integers site.line x h) right y
        → Answers (IsRead site h) result (worked site.integers site.line sign.work sign.at h x y) }
{
    match sign.work {
        Work::Compare(rel) => placed(compared(alloc, site, rel, left, right), sign.at),
        Work::Operate(operation) => placed(
            operated(alloc, site, operation, sign.at, left, right),
            sign.at,
        ),
        Work::Either => Err(Stop::Unlike),
        Work::Both => Err(Stop::Unlike),
    }
}

/// An operation, the right side of which was read behind the left one; the first token of the right side stands at `first`.
pub(crate) fn joined(
    alloc: Global,
    site: Site,
    sign: Sign,
    left: Side,
    first: u32,
    right: Value,
) -> Result<Value, Stop>
    ensures { (x y : Expression) (h : ℕ) → StandsSide site.integers site.variables site.line (asks_conditions sign.work) h left x
        → IsRead site (behind_side site.integers site.line (asks_conditions sign.work) x h) right y
        → Answers (IsRead site h) result (sides_worked site.integers site.line sign.work sign.at first h x y) }
{
    let right = as_side(alloc, site, sign.work, first, right)?;
    match left {
        Side::Condition(left) => match right {
            Side::Condition(right) => of_conditions(alloc, site, sign.work, left, right),
            Side::Number(_) => Err(Stop::Unlike),
        },
        Side::Number(left) => match right {
            Side::Number(right) => of_numbers(alloc, site, sign, left, right),
            Side::Condition(_) => Err(Stop::Unlike),
        },
    }
}

/// A sign before an operand, whose first token stands at `first`; `sign` is the sign's place.
pub(crate) fn signed(
    alloc: Global,
    site: Site,
    prefix: Prefix,
    sign: u32,
    first: u32,
    value: Value,
) -> Result<Value, Stop>
    ensures { (x : Expression) (h : ℕ) → IsRead site h value x
        → Answers (IsRead site h) result (meaning.prefixed site.integers site.line (prefix_of prefix) sign first h x) }
{
    match prefix {
        Prefix::Negative => placed(
            negative(alloc, site, sign, value.into_number(alloc, site)?),
            sign,
        ),
        Prefix::Positive => Ok(positive(value.into_number(alloc, site)?)),
        Prefix::Negation => Ok(inverse(alloc, placed(value.into_condition(site), first)?)?),
    }
}

//! The first fault of written equations.

ghost use Rattle.std.specs.Prelude.{◌≡◌, ◌≤◌, ◌<◌, ◌++◌, ◌^◌, List, length};
ghost use Rattle.flow_rationals.specs.declared.fault.EquFault.{EquFault};
ghost use Rattle.std.specs.List.{flat_map, list_any, enumerate_from};
ghost use Rattle.flow_rationals.specs.WrittenSums.{is_named, part_below};
ghost use Rattle.flow_rationals.specs.EquFaults.{below_faults, name_faults, names_faults, part_faults, part_at, sum_faults, nth_sum_faults};
ghost use Rattle.flow_rationals.specs.EquFaults.{choice_faults, equation_faults};
ghost use Rattle.flow_rationals.specs.EquFaults.{twice_faults, count_faults, alternatives_faults, choice_count, faults_of, FirstOf};

use crate::fault::EquFault;
use crate::limits::{MOST_ALTERNATIVES, MOST_EQUATIONS, MOST_SUMS};
use crate::reading::scaled::is_small;
use crate::reading::written::{Addends, Below, Choice, Part, Written};
use base_list::Sequence;
use lang_tree::Name;

// A second number that is 0.
fn below_fault(below: &Option<Below>) -> Option<EquFault>
    ensures { FirstOf result (below_faults below.now) }
{
    match below {
        Some(below) => {
            if below.den.value() == 0 {
                Some(EquFault::ZeroBelow { at: below.at })
            } else {
                None
            }
        }
        None => None,
    }
}

// Whether an equation has this name.
fn is_known(equations: &[Written], name: &Name) -> bool
    ensures { result ≡ list_any (is_named name.now) equations.now }
{
    equations.iter().any(|e| e.name.bytes() == name.bytes())
}

// A name without an equation.
fn name_fault(equations: &[Written], part: &Part) -> Option<EquFault>
    ensures { FirstOf result (names_faults equations.now part.now) }
{
    match part {
        Part::Multiple { name, at, .. } => {
            if is_known(equations, name) {
                None
            } else {
                Some(EquFault::UnknownName { at: *at })
            }
        }
        Part::Constant { .. } => None,
    }
}

// A part's second number that is 0.
fn zero_fault(part: &Part) -> Option<EquFault>
    ensures { FirstOf result (below_faults (part_below part.now)) }
{
    match part {
        Part::Multiple { factor, .. } => match factor {
            Some(ratio) => below_fault(&ratio.below),
            None => None,
        },
        Part::Constant { ratio, .. } => below_fault(&ratio.below),
    }
}

// The first of two faults.
fn earlier(first: Option<EquFault>, second: Option<EquFault>) -> Option<EquFault>
    ensures { (left right : List EquFault) → FirstOf first left → FirstOf second right → FirstOf result (left ++ right) }
{
    match first {
        Some(fault) => Some(fault),
        None => second,
    }
}

// The first fault of a part.
fn part_fault(equations: &[Written], part: &Part) -> Option<EquFault>
    ensures { FirstOf result (part_faults equations.now part.now) }
{
    earlier(zero_fault(part), name_fault(equations, part))
}

// The first fault of parts.
fn parts_fault(equations: &[Written], parts: &[Part]) -> Option<EquFault>
    ensures { FirstOf result (flat_map (part_faults equations.now) parts.now) }
{
    for part in parts {
        let fault = part_fault(equations, part);
        if fault.is_some() {
            return fault;
        }
    }
    None
}

// The place of a part's first token.
fn part_at(part: &Part) -> u32
    ensures { result ≡ part_at part.now }
{
    match part {
        Part::Multiple { factor, at, .. } => match factor {
            Some(ratio) => ratio.at,
            None => *at,
        },
        Part::Constant { minus, ratio } => match minus {
            Some(at) => *at,
            None => ratio.at,
        },
    }
}

// The first fault of a sum.
fn sum_fault(equations: &[Written], sum: &Addends) -> Option<EquFault>
    requires { length equations.now ≤ MOST_EQUATIONS }
    ensures { FirstOf result (sum_faults equations.now sum.now) }
{
    let first = part_fault(equations, &sum.first);
    let fault = earlier(first, parts_fault(equations, sum.more.as_slice()));
    if fault.is_some() {
        return fault;
    }
    if is_small(equations, sum) {
        None
    } else {
        Some(EquFault::Big {
            at: part_at(&sum.first),
        })
    }
}

// The first fault of the sum of this number in its alternative.
fn nth_fault(equations: &[Written], number: usize, sum: &Addends) -> Option<EquFault>
    requires { length equations.now ≤ MOST_EQUATIONS }
    ensures { FirstOf result (nth_sum_faults equations.now (number, sum.now)) }
{
    if number == MOST_SUMS {
        return Some(EquFault::Terms {
            at: part_at(&sum.first),
        });
    }
    sum_fault(equations, sum)
}

// The first fault of the sums after the first one of a minimum.
fn more_fault(equations: &[Written], sums: &[Addends]) -> Option<EquFault>
    requires few { length equations.now ≤ MOST_EQUATIONS }
    ensures { FirstOf result (flat_map (nth_sum_faults equations.now) (enumerate_from 1 sums.now)) }
{
    for (i, sum) in sums.iter().enumerate() {
        let fault = nth_fault(equations, i + 1, sum);
        if fault.is_some() {
            return fault;
        }
    }
    None
}

// The first fault of an alternative.
fn choice_fault(equations: &[Written], choice: &Choice) -> Option<EquFault>
    requires { length equations.now ≤ MOST_EQUATIONS }
    ensures { FirstOf result (choice_faults equations.now choice.now) }
{
    match choice {
        Choice::Alone(sum) => nth_fault(equations, 0, sum),
        Choice::Least { first, more } => {
            let fault = nth_fault(equations, 0, first);
            if fault.is_some() {
                return fault;
            }
            more_fault(equations, more.as_slice())
        }
    }
}

// The first fault of alternatives.
fn choices_fault(equations: &[Written], choices: &[Choice]) -> Option<EquFault>
    requires { length equations.now ≤ MOST_EQUATIONS }
    ensures { FirstOf result (flat_map (choice_faults equations.now) choices.now) }
{
    for choice in choices {
        let fault = choice_fault(equations, choice);
        if fault.is_some() {
            return fault;
        }
    }
    None
}

// The first fault of an equation's right side.
fn equation_fault(equations: &[Written], equation: &Written) -> Option<EquFault>
    requires { length equations.now ≤ MOST_EQUATIONS }
    ensures { FirstOf result (equation_faults equations.now equation.now) }
{
    let start = below_fault(&equation.start.below);
    earlier(start, choices_fault(equations, equation.choices.as_slice()))
}

// The first fault of the right sides.
fn sides_fault(equations: &[Written]) -> Option<EquFault>
    requires { length equations.now ≤ MOST_EQUATIONS }
    ensures { FirstOf result (flat_map (equation_faults equations.now) equations.now) }
{
    for equation in equations {
        let fault = equation_fault(equations, equation);
        if fault.is_some() {
            return fault;
        }
    }
    None
}

// The first name that an equation before has.
fn twice_fault(equations: &[Written]) -> Option<EquFault>
    ensures { FirstOf result (flat_map (twice_faults equations.now) (enumerate_from 0 equations.now)) }
{
    for (i, equation) in equations.iter().enumerate() {
        if is_known(&equations[..i], &equation.name) {
            return Some(EquFault::NameTwice { at: equation.at });
        }
    }
    None
}

// Too many equations.
fn count_fault(count: u32) -> Option<EquFault>
    ensures { FirstOf result (count_faults count) }
{
    if count as usize <= MOST_EQUATIONS {
        None
    } else {
        Some(EquFault::Count { count })
    }
}

// Too many alternatives.
fn alternatives_fault(count: u32) -> Option<EquFault>
    ensures { FirstOf result (alternatives_faults count) }
{
    if count as usize <= MOST_ALTERNATIVES {
        None
    } else {
        Some(EquFault::Alternatives { count })
    }
}

// How many alternatives there are in all.
fn choice_count(equations: &[Written]) -> u32
    requires { choice_count equations.now < 2 ^ 32 }
    ensures { result ≡ choice_count equations.now }
{
    let mut count = 0;
    for equation in equations {
        count += equation.choices.as_slice().len() as u32;
    }
    count
}

// The first fault of the right sides and of the number of their alternatives.
fn late_fault(equations: &[Written]) -> Option<EquFault>
    requires few { length equations.now ≤ MOST_EQUATIONS }
    requires short { choice_count equations.now < 2 ^ 32 }
    ensures { FirstOf result (flat_map (equation_faults equations.now) equations.now ++ alternatives_faults (choice_count equations.now)) }
{
    earlier(
        sides_fault(equations),
        alternatives_fault(choice_count(equations)),
    )
}

/// The first fault of written equations.
pub(crate) fn first_fault(equations: &[Written]) -> Option<EquFault>
    requires few { length equations.now < 2 ^ 32 }
    requires short { choice_count equations.now < 2 ^ 32 }
    ensures { FirstOf result (faults_of equations.now) }
{
    let fault = twice_fault(equations);
    if fault.is_some() {
        return fault;
    }
    let fault = count_fault(equations.len() as u32);
    if fault.is_some() {
        return fault;
    }
    late_fault(equations)
}

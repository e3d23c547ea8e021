//! The steps of the rounds, growth and turns of one round after those of the other.

use crate::cases::{Case, Fail, first_wrong};
use crate::rounds::lines::add_step;
use crate::rounds::systems::{COUNTER, Domain, ENDLESS, TOGETHER, system_of};
use base_watch::Unwatched;
use solve_rounds::{Solved, least_by_first};
use std::alloc::Global;

// What the rounds by the first edge that exceeds end with.
fn solved_by_first(alloc: Global, text: &[u8], domain: Domain) -> Result<Solved, Fail> {
    let system = system_of(alloc, text, domain)?;
    match least_by_first(alloc, &system, 9, &mut Unwatched) {
        Ok(solved) => Ok(solved),
        Err(_) => Err("small numbers and few rounds".into()),
    }
}

// The line of the steps from a number on and up to another one.
fn line_of(alloc: Global, solved: &Solved, from: usize, to: usize) -> Result<Vec<u8>, Fail> {
    let mut line = Vec::new(alloc);
    for (number, step) in solved.steps.as_slice().iter().enumerate() {
        if number >= from && number < to {
            add_step(&mut line, step)?;
        }
    }
    Ok(line)
}

/// A text, its domain, and the line of the steps of its rounds from a number on and up to another one.
#[derive(Drop)]
struct Steps<'a> {
    text: &'a [u8],
    domain: Domain,
    from: usize,
    to: usize,
    line: &'a [u8],
}

fn is_line(alloc: Global, case: &Steps) -> Result<bool, Fail> {
    let solved = solved_by_first(alloc, case.text, case.domain)?;
    let line = line_of(alloc, &solved, case.from, case.to)?;
    Ok(line.as_slice() == case.line)
}

impl Case for Steps<'_> {
    fn is_right(&self, alloc: Global) -> bool {
        matches!(is_line(alloc, self), Ok(true))
    }
}

// The first two rounds of the counter, with four and two steps: its loop starts at 0 and 0, and both rows are parts of their own.
// Then the upper bound is raised half way to 1, and the joint problem finds 100, from 99 before.
const COUNTED: &[u8] = b"; plain 2 by 0 low 0 to -1; plain 3 by 0 low 0 to -1; \
      jump 2 by 0 low 0 high 0 to 0; jump 3 by 0 low 0 high 0 to 0; \
      plain 2 by 1 low 0 to 1/2; jump 2 by 1 low 0 high 99 to 100";

// All steps of the loop without a guard, four and then six: in the second round three unknowns are raised, the exit after the loop
// and by its new bound, each a part of its own. The loop's ray comes first, and then the exit sees +inf.
const UNENDED: &[u8] = b"; plain 2 by 0 low 0 to -1; plain 3 by 0 low 0 to -1; \
      jump 2 by 0 low 0 high 0 to 0; jump 3 by 0 low 0 high 0 to 0; \
      plain 2 by 1 low 0 to 1/2; plain 4 by 2 low 1/2 to -1/2; plain 5 by 2 low 0 to -1; \
      ray 2 by 1 low 0 along 1 rate 1; ray 4 by 2 low 1/2 along 1 rate 1; jump 5 by 2 low 0 high 0 to 0";

// The second round of two counters over zones; the first one has twelve steps. x and y are raised one after the other and are one
// part, whose bounds solve a = min(a, b, 9) + 1 and b = min(a, b, 9) + 1 with x = y. Then the exit is raised.
const JOINED: &[u8] = b"; plain 6 by 1 low 0 0 to 1/2; plain 8 by 1 low 0 0 to 1/2; \
      jump 6 by 1 low 0 0 high 9 9 to 10 8 by 1 low 0 0 high 9 9 to 10";

const STEPS: &[Steps] = &[
    Steps {
        text: COUNTER,
        domain: Domain::Intervals,
        from: 0,
        to: 6,
        line: COUNTED,
    },
    Steps {
        text: ENDLESS,
        domain: Domain::Intervals,
        from: 0,
        to: 99,
        line: UNENDED,
    },
    Steps {
        text: TOGETHER,
        domain: Domain::Zones,
        from: 12,
        to: 15,
        line: JOINED,
    },
];

#[test]
fn rounds_have_their_steps(rt: HostRuntime) {
    assert_eq!(rt; first_wrong(rt.alloc(), STEPS), None);
}

//! Whole solutions, and how many picks there are.

ghost use Rattle.std.specs.Prelude.{◌≤◌};

use crate::cases::{Case, Fail, first_wrong};
use crate::rounds::lines::{add_bounds, add_number};
use crate::rounds::offers::last;
use crate::rounds::systems::{
    CASES, COUNTER, Domain, ENDLESS, FAST, GROWING, IDLE, INNER_LOOPS, TOGETHER, system_of,
};
use base_watch::{Unwatched, Watch};
use flow_systems::System;
use solve_offers::{Chooser, picks};
use solve_rounds::{Halt, Solved, least, least_by_best, least_by_first};
use std::alloc::Global;

// A loop in a loop over three variables: five edges.
const NESTED: &[u8] =
    b"int main() { int i = 0, j = 0, k = 0; while (i < 10) { j = 0; while (j < i) { j++; k += 1; } i++; } }";

/// Which calls solve a system.
#[derive(Clone, Copy, PartialEq, Eq, Drop)]
pub(crate) enum By {
    Best,
    First,
    Last,
}

/// What the rounds of a policy end with.
pub(crate) fn solve<W: Watch>(
    alloc: Global,
    system: &System,
    by: By,
    limit: u32,
    watch: &mut W,
) -> Result<Solved, Halt>
    requires limit { limit ≤ 1000000 }
{
    match by {
        By::Best => least_by_best(alloc, system, limit, watch),
        By::First => least_by_first(alloc, system, limit, watch),
        By::Last => least(alloc, system, limit, &Chooser::new(last), watch),
    }
}

// The line of a solution: the bounds, the numbers of rounds, of steps and of pieces of evidence; or the bounds where the rounds are spent.
fn line_of(alloc: Global, answer: Result<Solved, Halt>) -> Result<Vec<u8>, Fail> {
    let mut line = Vec::new(alloc);
    match answer {
        Ok(solved) => {
            add_bounds(&mut line, &solved.bounds)?;
            add_number(&mut line, b"improvements ", solved.improvements as u64)?;
            add_number(&mut line, b" steps ", solved.steps.as_slice().len() as u64)?;
            add_number(
                &mut line,
                b" uppers ",
                solved.uppers.as_slice().len() as u64,
            )?;
            Ok(line)
        }
        Err(Halt::Spent(bounds)) => {
            line.extend_from_slice(b"spent ")?;
            add_bounds(&mut line, &bounds)?;
            Ok(line)
        }
        Err(_) => Err("small numbers".into()),
    }
}

// The line of the solution of a text by the rounds of a policy.
fn solved_line(
    alloc: Global,
    text: &[u8],
    domain: Domain,
    by: By,
    limit: u32,
) -> Result<Vec<u8>, Fail> {
    let system = system_of(alloc, text, domain)?;
    if limit > 1_000_000 {
        return Err("a small limit".into());
    }
    line_of(alloc, solve(alloc, &system, by, limit, &mut Unwatched))
}

/// A text, its domain, the policy, the limit of its rounds, and the start of the line, or all of it.
#[derive(Drop)]
struct Rounds<'a> {
    text: &'a [u8],
    domain: Domain,
    by: By,
    limit: u32,
    start: &'a [u8],
    is_whole: bool,
}

impl Case for Rounds<'_> {
    fn is_right(&self, alloc: Global) -> bool {
        match solved_line(alloc, self.text, self.domain, self.by, self.limit) {
            Ok(line) => {
                line.as_slice().starts_with(self.start)
                    && (line.len() == self.start.len()) == self.is_whole
            }
            Err(_) => false,
        }
    }
}

// The counter needs three rounds: the loop at 0, the loop at 100, the exit. The first and the third raise two unknowns and have two
// parts, the second raises one. There are two edges into the loop and one into the exit, each with two rows. After two rounds the
// exit isn't reached yet. The loop without a guard needs two: its second round raises three unknowns, and rays set the two upper ones
// to +inf. Only the lower bounds need evidence then.
// Where the three counters have no guards, rays set all nine upper bounds to +inf, also where one counter is 2^43 times another, so
// that a guess is given up.
// Three counters through three loops need five rounds: one for each loop at its first values, then the three upper bounds of all three
// loops together, in nine raises and one jump, and the exit. All bounds but the entry's need evidence, from nine edges with six rows.
const COUNTERS: &[Rounds] = &[
    Rounds {
        text: COUNTER,
        domain: Domain::Intervals,
        by: By::First,
        limit: 1,
        start: b"spent +inf +inf 0 0 -inf -inf ",
        is_whole: true,
    },
    Rounds {
        text: COUNTER,
        domain: Domain::Intervals,
        by: By::Best,
        limit: 3,
        start: b"+inf +inf 100 0 100 -100 improvements 3 steps 10 uppers 6",
        is_whole: true,
    },
    Rounds {
        text: COUNTER,
        domain: Domain::Intervals,
        by: By::First,
        limit: 2,
        start: b"spent +inf +inf 100 0 -inf -inf ",
        is_whole: true,
    },
    Rounds {
        text: ENDLESS,
        domain: Domain::Intervals,
        by: By::First,
        limit: 1,
        start: b"spent +inf +inf 0 0 -inf -inf ",
        is_whole: true,
    },
    Rounds {
        text: ENDLESS,
        domain: Domain::Intervals,
        by: By::First,
        limit: 2,
        start: b"+inf +inf +inf 0 +inf 0 improvements 2 steps 10 uppers 3",
        is_whole: true,
    },
    Rounds {
        text: TOGETHER,
        domain: Domain::Zones,
        by: By::First,
        limit: 2,
        start: b"spent +inf +inf +inf +inf +inf +inf 10 0 10 0 0 0 -inf -inf -inf -inf -inf -inf ",
        is_whole: true,
    },
    Rounds {
        text: TOGETHER,
        domain: Domain::Zones,
        by: By::Best,
        limit: 3,
        start: b"+inf +inf +inf +inf +inf +inf 10 0 10 0 0 0 10 -10 10 -10 0 0 improvements 3 steps 27 uppers 18",
        is_whole: true,
    },
    Rounds {
        text: INNER_LOOPS,
        domain: Domain::Intervals,
        by: By::Best,
        limit: 9,
        start: b"+inf +inf +inf +inf +inf +inf 10 0 20 0 30 0 10 -1 20 -1 30 -1 10 -1 20 -1 30 -1 10 0 20 0 30 0 \
              improvements 5 steps 58 uppers 54",
        is_whole: true,
    },
    Rounds {
        text: INNER_LOOPS,
        domain: Domain::Intervals,
        by: By::First,
        limit: 9,
        start: b"+inf +inf +inf +inf +inf +inf 10 0 20 0 30 0 10 -1 20 -1 30 -1 10 -1 20 -1 30 -1 10 0 20 0 30 0 ",
        is_whole: false,
    },
    Rounds {
        text: GROWING,
        domain: Domain::Intervals,
        by: By::Best,
        limit: 9,
        start: b"+inf +inf +inf +inf +inf +inf +inf 0 +inf 0 +inf 0 +inf -1 +inf -1 +inf -1 +inf -1 +inf -1 +inf -1 +inf 0 +inf 0 +inf 0 ",
        is_whole: false,
    },
    Rounds {
        text: FAST,
        domain: Domain::Intervals,
        by: By::First,
        limit: 9,
        start: b"+inf +inf +inf +inf +inf +inf +inf 0 +inf 0 +inf 0 +inf -1 +inf -8796093022208 +inf -1 \
              +inf -1 +inf -8796093022208 +inf -1 +inf 0 +inf 0 +inf 0 ",
        is_whole: false,
    },
];

#[test]
fn a_counter_is_solved(rt: HostRuntime) {
    assert_eq!(rt; first_wrong(rt.alloc(), COUNTERS), None);
}

// x is at most 3 behind the assumption and at the exit, whichever function chooses. Its greatest case is the third, so that the greatest
// and the last
// value find it in round 1, and the exit
// follows in round 2. The first value that exceeds the bound is that of the first case in round 1, of the second in round 2 and of the
// third in round
// 3; the exit follows from round 2.
const POLICIES: &[(By, &[u8])] = &[
    (By::Best, b"+inf +inf 3 +inf 3 +inf improvements 2 "),
    (By::First, b"+inf +inf 3 +inf 3 +inf improvements 3 "),
    (By::Last, b"+inf +inf 3 +inf 3 +inf improvements 2 "),
];

// How picks are chosen, and how the line of the three cases starts.
impl Case for (By, &[u8]) {
    fn is_right(&self, alloc: Global) -> bool {
        let rounds = Rounds {
            text: CASES,
            domain: Domain::Intervals,
            by: self.0,
            limit: 9,
            start: self.1,
            is_whole: false,
        };
        rounds.is_right(alloc)
    }
}

#[test]
fn three_policies_find_the_same_bounds(rt: HostRuntime) {
    assert_eq!(rt; first_wrong(rt.alloc(), POLICIES), None);
}

// A text over intervals, and the number of its picks.
impl Case for (&[u8], Option<u32>) {
    fn is_right(&self, alloc: Global) -> bool {
        match system_of(alloc, self.0, Domain::Intervals) {
            Ok(system) => picks(&system) == self.1,
            Err(_) => false,
        }
    }
}

// A program with one edge, one with a loop, and one with more picks than 32 bits count.
const PICKS: &[(&[u8], Option<u32>)] = &[
    (b"int main() { int x; }", Some(4)),
    (IDLE, Some(36)),
    (NESTED, None),
];

#[test]
fn picks_are_counted(rt: HostRuntime) {
    assert_eq!(rt; first_wrong(rt.alloc(), PICKS), None);
}

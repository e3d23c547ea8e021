//! What a watch is told of rounds and turns.

use crate::cases::{Case, Fail, first_wrong};
use crate::rounds::lines::add_number;
use crate::rounds::solved::{By, solve};
use crate::rounds::systems::{COUNTER, Domain, ENDLESS, INNER_LOOPS, TOGETHER, system_of};
use base_watch::Watch;
use std::alloc::Global;

// Keeps what it is told, as one line, unless there is no memory for it.
#[derive(Drop)]
struct Kept {
    line: Vec<u8>,
    is_whole: bool,
}

impl Kept {
    fn add(&mut self, word: &[u8], number: u32) {
        if add_number(&mut self.line, word, number as u64).is_err() {
            self.is_whole = false;
        }
    }
}

impl Watch for Kept {
    fn round(&mut self, number: u32, raised: u32) {
        self.add(b"; round ", number);
        self.add(b" raised ", raised);
    }

    fn turn(&mut self, number: u32) {
        self.add(b" turn ", number);
    }

    fn pivots(&mut self, made: u32) {
        self.add(b" pivots ", made);
    }
}

// What is told of the rounds over a text.
fn told(alloc: Global, text: &[u8], domain: Domain, by: By, limit: u32) -> Result<Vec<u8>, Fail> {
    let system = system_of(alloc, text, domain)?;
    if limit > 1_000_000 {
        return Err("a small limit".into());
    }
    let mut kept = Kept {
        line: Vec::new(alloc),
        is_whole: true,
    };
    let _ended = solve(alloc, &system, by, limit, &mut kept);
    if kept.is_whole {
        Ok(kept.line)
    } else {
        Err("memory".into())
    }
}

/// A text, its domain, the policy, the limit of its rounds, and what is told of them.
#[derive(Drop)]
struct Watched<'a> {
    text: &'a [u8],
    domain: Domain,
    by: By,
    limit: u32,
    line: &'a [u8],
}

impl Case for Watched<'_> {
    fn is_right(&self, alloc: Global) -> bool {
        match told(alloc, self.text, self.domain, self.by, self.limit) {
            Ok(line) => line.as_slice() == self.line,
            Err(_) => false,
        }
    }
}

// The counter's first round finds the two bounds of the loop, each a part of its own; the second raises one of them; the third finds
// the two of the exit, when those of the loop have been raised. Of a round that isn't made nothing is told. The loop without a guard
// has three parts in its second round: the loop's bound, and the two of the exit. Two counters over zones find six bounds of the loop,
// and raise two of them together. Three counters through three loops find six bounds of each loop in its own round, and then raise
// the three upper ones of each loop together: one turn of nine unknowns.
const ROUNDS: &[Watched] = &[
    Watched {
        text: COUNTER,
        domain: Domain::Intervals,
        by: By::First,
        limit: 9,
        line: b"; round 1 raised 0 turn 0 turn 1; round 2 raised 2 turn 0; round 3 raised 2 turn 0 turn 1",
    },
    Watched {
        text: COUNTER,
        domain: Domain::Intervals,
        by: By::Best,
        limit: 2,
        line: b"; round 1 raised 0 turn 0 turn 1; round 2 raised 2 turn 0",
    },
    Watched {
        text: COUNTER,
        domain: Domain::Intervals,
        by: By::Last,
        limit: 0,
        line: b"",
    },
    Watched {
        text: ENDLESS,
        domain: Domain::Intervals,
        by: By::Last,
        limit: 9,
        line: b"; round 1 raised 0 turn 0 turn 1; round 2 raised 2 turn 0 turn 1 turn 2",
    },
    Watched {
        text: TOGETHER,
        domain: Domain::Zones,
        by: By::First,
        limit: 2,
        line: b"; round 1 raised 0 turn 0 turn 1 turn 2 turn 3 turn 4 turn 5; round 2 raised 6 turn 0",
    },
    Watched {
        text: INNER_LOOPS,
        domain: Domain::Intervals,
        by: By::Best,
        limit: 4,
        line: b"; round 1 raised 0 turn 0 turn 1 turn 2 turn 3 turn 4 turn 5; \
              round 2 raised 6 turn 0 turn 1 turn 2 turn 3 turn 4 turn 5; \
              round 3 raised 12 turn 0 turn 1 turn 2 turn 3 turn 4 turn 5; round 4 raised 18 turn 0",
    },
];

#[test]
fn rounds_and_turns_are_told(rt: HostRuntime) {
    assert_eq!(rt; first_wrong(rt.alloc(), ROUNDS), None);
}

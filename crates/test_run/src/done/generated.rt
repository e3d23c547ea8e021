//! Generated programs: the text, and the summary of its least bounds.

use crate::cases::{Case, Ending, ends, first_wrong};
use std::alloc::Global;
use top_run::generate;

// Whether the program of the seed 1 with one loop is this text.
fn is_generated(alloc: Global, wanted: &[u8]) -> bool {
    match generate(alloc, 1, 1) {
        Ok(text) => text.as_slice() == wanted,
        Err(_) => false,
    }
}

#[test]
fn a_seed_gives_a_program(rt: HostRuntime) {
    let wanted =
        b"int main() {\n  int a = 0, b = 0, c = 0;\n  c = 0;\n  while (c < 59) {\n    c += 7;\n    a = c;\n  }\n  return 0;\n}\n";
    assert!(rt; is_generated(rt.alloc(), wanted));
}

// A line of words, and the end of what it writes.
impl Case for (&str, &[u8]) {
    fn is_right(&self, alloc: Global) -> bool {
        ends(alloc, self.0, b"", b"", Ending::End(self.1))
    }
}

// The numbers come from a program of its own, in Python: it draws the loops, and iterates the chain of picks over intervals,
// where each next vector is found by rising from the last one until no picked edge exceeds its bound. For a loop
// `V = 0; while (V < B) { V += S; W = V; }` that gives at its head `V` from 0 to `B - 1 + S`, and after it from `B` on.
const SUMMARIES: &[(&str, &[u8])] = &[
    (
        "bench --seed 1 --loops 1",
        b"bench seed 1 loops 1\nprogram 109 bytes\npoints 3\nunknowns 18\nimprovements 3\npoint 2: exit\n  a <= 65\n  -a <= 0\n  b <= 0\n  -b <= 0\n  c <= 65\n  -c <= -59\n",
    ),
    (
        "bench --seed 1 --loops 8",
        b"bench seed 1 loops 8\nprogram 494 bytes\npoints 10\nunknowns 60\nimprovements 17\npoint 9: exit\n  a <= 69\n  -a <= -67\n  b <= 102\n  -b <= -96\n  c <= 102\n  -c <= -7\n",
    ),
    (
        "bench --seed 1 --loops 46",
        b"bench seed 1 loops 46\nprogram 2580 bytes\npoints 48\nunknowns 288\nimprovements 93\npoint 47: exit\n  a <= 94\n  -a <= -8\n  b <= 7\n  -b <= -1\n  c <= 28\n  -c <= -21\n",
    ),
];

#[test]
fn generated_programs_have_summaries(rt: HostRuntime) {
    assert_eq!(rt; first_wrong(rt.alloc(), SUMMARIES), None);
}

//! Which variables of a transition system stand together.

use crate::texts::{Case, first_wrong};
use flow_transitions::{groups, read};
use lang_groups::Groups;
use std::alloc::Global;

// The groups of a text; nothing where it is too long or no transition system.
fn groups_of(alloc: Global, text: &[u8]) -> Option<Groups> {
    if text.len() > 65_536 {
        return None;
    }
    match read(alloc, text) {
        Ok(auto) => groups(alloc, text, &auto).ok(),
        Err(_) => None,
    }
}

// The pairs of the first three variables.
const PAIRS: &[(u32, u32)] = &[(0, 1), (0, 2), (1, 2)];

// Whether a pair is one of these.
fn has_pair(pairs: &[(u32, u32)], x: u32, y: u32) -> bool {
    pairs.iter().any(|pair| pair.0 == x && pair.1 == y)
}

// Whether of the first three variables just these pairs stand together.
fn are_pairs(groups: &Groups, pairs: &[(u32, u32)]) -> bool {
    PAIRS.iter().all(|pair| groups.are_together(pair.0, pair.1) == has_pair(pairs, pair.0, pair.1))
}

// A text, and the pairs of its first three variables that stand together.
impl Case for (&[u8], &[(u32, u32)]) {
    fn is_right(&self, alloc: Global) -> bool {
        match groups_of(alloc, self.0) {
            Some(groups) => are_pairs(&groups, self.1),
            None => false,
        }
    }
}

const GROUPS: &[(&[u8], &[(u32, u32)])] = &[
    (b"vars x, y, z; points s, e; edge s e { }", &[]),
    (
        b"vars x, y, z; points s, e; edge s e { assume(x < 1 && y != z); }",
        &[(1, 2)],
    ),
    (
        b"vars x, y, z; points s, e; edge s e { assume(!(x - x <= y) || z > 0); }",
        &[(0, 1)],
    ),
    (
        b"vars x, y, z; points x, y; edge x y { z = 2 * (y + 1) - y; x = 3; }",
        &[(1, 2)],
    ),
    (
        b"vars x, y, z; points s, e; edge s e { x = nondet(); assume(y == 1); y = x; } edge s e { z = z; }",
        &[(0, 1)],
    ),
    (
        b"vars x, y, z; points s, e; edge s e { assume(x + (y - 2) >= z); }",
        &[(0, 1), (0, 2), (1, 2)],
    ),
];

#[test]
fn systems_have_the_groups_of_their_texts(rt: HostRuntime) {
    assert_eq!(rt; first_wrong(rt.alloc(), GROUPS), None);
}

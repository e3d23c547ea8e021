//! Which variables of a function stand together.

use crate::files::read_of;
use base_integers::Integers;
use base_limits::MOST_PROGRAM_BYTES;
use lang_groups::Groups;
use lang_tokens::{Lexicon, lex};
use lang_tree::{MOST_VARIABLES, Name};
use source_file::SourceFault;
use source_groups::groups;
use std::alloc::Global;

// A function, and the pairs of its variables that stand together, by their numbers from 0.
const FUNCTIONS: &[(&str, &[(u32, u32)])] = &[
    // A comparison holds what stands on both its sides, and no sign that holds looser.
    (
        "int f(int x, int y, int z) { if (x < y && z > 0) return x; }",
        &[(0, 1)],
    ),
    (
        "int f(int x, int y, int z) { if (x - y) return z; assert(!(x + z == 2)); }",
        &[(0, 2)],
    ),
    // What a comparison holds at any depth: in arguments, indexes and choices.
    (
        "int f(int x, int y, int z, int w) { int a[9]; if (a[x + 1] < g(y, z ? w : 1)) return 0; }",
        &[(0, 1), (0, 2), (0, 3), (1, 2), (1, 3), (2, 3)],
    ),
    (
        "int f(int x, int y, int z) { g(x < y, z); return (x ? y : z) != 3; }",
        &[(0, 1), (0, 2), (1, 2)],
    ),
    // Changes, with the index of the target; declarators with a value.
    (
        "int f(int x, int y, int z) { x = y && z; }",
        &[(0, 1), (0, 2), (1, 2)],
    ),
    (
        "int f(int x, int y, int z) { int a[9]; a[x] += y; a[y + z]++; }",
        &[(0, 1), (1, 2)],
    ),
    (
        "int f(int x) { int y, z = x, w; int a[2] = { x, { w } }; }",
        &[(0, 2), (0, 3)],
    ),
    (
        "#define N 3\nint f(int x, int y) { x = N; { int N2 = y; } int a[N] = { x }; }",
        &[(1, 2)],
    ),
    // A loop holds what its condition reads and what its body changes, also inside of expressions.
    (
        "int f(int x, int y, int z, int w) { while (x < 9) { y = 1; if (z) z = w; } }",
        &[(0, 1), (0, 2), (1, 2), (2, 3)],
    ),
    (
        "int f(int x, int y, int z) { do { x = 0; assert(y++ > 1); } while (z); }",
        &[(0, 1), (0, 2), (1, 2)],
    ),
    // The first part of a `for` is none of the loop, and its own change is.
    (
        "int f(int x, int y, int z) { for (x = 0; y < 1; z++) ; }",
        &[(1, 2)],
    ),
    // A loop inside counts with its first part alone.
    (
        "int f(int x, int y, int z, int w) { while (x) { for (int i = 0; y; z--) w = 1; } }",
        &[(0, 4), (1, 2), (1, 3), (2, 3)],
    ),
    // Names of calls and labels are no variables, and a name that is declared again is one.
    (
        "int f(int x) { { int g = x; } g(2); { int g = 3; l: assert(g < h(1)); } }",
        &[(0, 1)],
    ),
];

// How many variables a function with these names has.
fn count_of(names: &[Name]) -> u32 {
    if names.len() > MOST_VARIABLES {
        0
    } else {
        names.len() as u32
    }
}

// The groups of the only function of a text.
fn groups_of(alloc: Global, text: &[u8], names: &[Name]) -> Result<Groups, SourceFault> {
    if text.len() > MOST_PROGRAM_BYTES || names.len() > MOST_VARIABLES {
        return Err(SourceFault::NoMemory);
    }
    match lex(alloc, text, Lexicon::C) {
        Ok(tokens) => groups(alloc, &tokens, text, None, Integers::Mathematical, names),
        Err(_) => Err(SourceFault::NoMemory),
    }
}

// Whether the later variables with which this one stands together are those of the pairs.
fn row_is(groups: &Groups, x: u32, count: u32, wanted: &[(u32, u32)]) -> bool {
    for y in x..count {
        let listed = wanted.iter().any(|pair| *pair == (x, y));
        if groups.are_together(x, y) != listed {
            return false;
        }
    }
    true
}

// Whether these pairs, of this many variables, are the ones that stand together.
fn are(groups: &Groups, count: u32, wanted: &[(u32, u32)]) -> bool {
    for x in 0..count {
        if !row_is(groups, x, count, wanted) {
            return false;
        }
    }
    true
}

// Whether the variables of a text's only function that stand together are these pairs.
fn keeps(alloc: Global, text: &[u8], wanted: &[(u32, u32)]) -> bool {
    let program = match read_of(alloc, text, None, Integers::Mathematical) {
        Ok(program) => program,
        Err(_) => return false,
    };
    let names = program.names.as_slice();
    match groups_of(alloc, text, names) {
        Ok(groups) => are(&groups, count_of(names), wanted),
        Err(_) => false,
    }
}

#[test]
fn variables_stand_together(rt: HostRuntime) {
    for (text, wanted) in FUNCTIONS {
        assert!(rt; keeps(rt.alloc(), text.as_bytes(), wanted), "{text}");
    }
}

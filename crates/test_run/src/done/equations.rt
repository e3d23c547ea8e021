//! Equations: their least solutions, and texts that are none.

use crate::cases::{Case, Ending, Long, ends, first_long_taken, first_taken, first_wrong};
use std::alloc::Global;
use test_cases::joined;

// Equations, and their values with the number of improvements.
const SOLVED: &[(&[u8], &[u8])] = &[
    (b"a = max(0, 1:2*a + 1);", b"a = 2\nimprovements: 2\n"),
    (
        b"a = max(0, min(a + 1, b)); b = max(1:2, min(2*b, 10:3));",
        b"a = 10/3\nb = 10/3\nimprovements: 2\n",
    ),
    (b"a = max(1, 2*a);", b"a = +inf\nimprovements: 2\n"),
    (b"a = max(-1:2);", b"a = -1/2\nimprovements: 1\n"),
    // A coefficient 0 times +inf is 0.
    (
        b"a = max(1, 2*a); b = max(0, 0*a + 3);",
        b"a = +inf\nb = 3\nimprovements: 2\n",
    ),
];

const OPTIONS: &[(&str, &[u8], Ending)] = &[
    (
        "equations p --policy first",
        b"a = max(0, 2*a);",
        Ending::Report(b"a = 0\nimprovements: 1\n"),
    ),
    (
        "equations p --improvements 1",
        b"a = max(0, 1:2*a + 1);",
        Ending::Refused(6, b"spent: 1 improvements\n"),
    ),
];

#[test]
fn equations_have_least_solutions(rt: HostRuntime) {
    let wrong = SOLVED.iter().position(|row| !ends(
        rt.alloc(),
        "equations p",
        row.0,
        b"",
        Ending::Report(row.1),
    ));
    assert_eq!(rt; wrong, None);
    assert_eq!(rt; first_wrong(rt.alloc(), OPTIONS), None);
}

// Equations, and their values, whatever number of improvements leads to them.
impl Case for (&[u8], &[u8]) {
    fn is_right(&self, alloc: Global) -> bool {
        match joined(alloc, &[self.1, b"\nimprovements: "]) {
            Ok(start) => ends(alloc, "equations p", self.0, b"", Ending::Start(&start)),
            Err(_) => false,
        }
    }
}

// Values by hand.
const VALUES: &[(&[u8], &[u8])] = &[
    (b"a = max(0);", b"a = 0"),
    (b"a = max(3, a);", b"a = 3"),
    (b"a = max(0, a + 1);", b"a = +inf"),
    (b"a = max(0, 1:2*a + 1:2);", b"a = 1"),
    (b"a = max(5, 1:2*a + 1);", b"a = 5"),
    (b"a = max(-3, 1:3*a + -1);", b"a = -3/2"),
    (b"a = max(0, 2:3*a + 1:7);", b"a = 3/7"),
    (b"a = max(0, b + 1); b = max(0, 1:2*a);", b"a = 2\nb = 1"),
    (
        b"a = max(0, 1:2*b + 1:2); b = max(1, 1:2*a);",
        b"a = 1\nb = 1",
    ),
    (
        b"a = max(0, b); b = max(0, c); c = max(4:3);",
        b"a = 4/3\nb = 4/3\nc = 4/3",
    ),
    (b"a = max(0, min(a + 1, 7));", b"a = 7"),
    (b"a = max(0, min(2*a, 7));", b"a = 0"),
    (b"a = max(1, min(2*a, 7));", b"a = 7"),
    // Each bound of a cycle of minima grows until one of the numbers stops it.
    (
        b"a = max(0, min(b + 1, 10)); b = max(0, min(a + 1, 4));",
        b"a = 5\nb = 4",
    ),
    (
        b"a = max(0, min(b, 3)); b = max(0, min(a, 3));",
        b"a = 0\nb = 0",
    ),
    (
        b"a = max(0, min(b + 1, 3)); b = max(0, min(a, 3));",
        b"a = 3\nb = 3",
    ),
    (
        b"a = max(0, min(b, c)); b = max(1, min(c, 5)); c = max(2, min(a + 3, 9));",
        b"a = 5\nb = 5\nc = 8",
    ),
    (b"a = max(1, 2*a); b = max(0, a);", b"a = +inf\nb = +inf"),
    (
        b"a = max(1, 2*a); b = max(0, min(a, 4));",
        b"a = +inf\nb = 4",
    ),
    (b"a = max(1, 2*a); b = max(2, 0*a);", b"a = +inf\nb = 2"),
    // The denominators 6, 10 and 15 have 30 in common, and the sum is reduced.
    (b"a = max(0, 1:6 + 1:10 + 1:15);", b"a = 1/3"),
];

#[test]
fn values_are_least(rt: HostRuntime) {
    assert_eq!(rt; first_wrong(rt.alloc(), VALUES), None);
}

// Texts that are no equations, and why.
const REFUSED: &[(&[u8], &str)] = &[
    (b"a = max(0, 1:0*a);", "zero below at line 1"),
    (b"a = max(0, b);", "unknown name at line 1"),
    (b"a = max(0);\na = max(1);", "name twice at line 2"),
    (b"a = max(0,\n);", "unexpected token at line 2"),
    (b"a = max(0); $", "bad byte at line 1"),
    (
        b"a=max(0);b=max(0);c=max(0);d=max(0);e=max(0);f=max(0);g=max(0);h=max(0);i=max(0);j=max(0);k=max(0);l=max(0);",
        "12 equations",
    ),
    (
        b"a = max(0, 9223372036854775807*a + 1:2);",
        "big number at line 1",
    ),
];

#[test]
fn other_texts_are_no_equations(rt: HostRuntime) {
    assert_eq!(rt;
        first_taken(rt.alloc(), "equations p", "equations", None, REFUSED),
        None
    );
}

// Equations that are too large, and why.
const LARGE: &[Long] = &[
    (b"a = max(0", b", a", 256, b");", "256 alternatives"),
    (b"a = max(0, min(a", b", a", 16, b"));", "terms at line 1"),
];

#[test]
fn large_equations_are_refused(rt: HostRuntime) {
    assert_eq!(rt;
        first_long_taken(rt.alloc(), "equations p", "equations", LARGE),
        None
    );
}

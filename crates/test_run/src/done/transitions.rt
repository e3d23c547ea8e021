//! Transition systems: their reports, and texts that are none.

use crate::cases::{Ending, Long, first_long_taken, first_taken, first_wrong};

// Two counters that go up together.
const PAIR: &[u8] = b"vars x, y;
points start, loop, end;
edge start loop { x = 0; y = 0; }
edge loop loop { assume(x < 10); x = x + 1; y = y + 1; }
edge loop end { assume(x >= 10); }
";

const PAIR_REPORT: &[u8] = b"variables x y
point 0: entry
  x <= +inf
  -x <= +inf
  y <= +inf
  -y <= +inf
  x - y <= +inf
  -x + y <= +inf
point 1: label loop at line 2
  x <= 10
  -x <= 0
  y <= 10
  -y <= 0
  x - y <= 0
  -x + y <= 0
point 2: label end at line 2
  x <= 10
  -x <= -10
  y <= 10
  -y <= -10
  x - y <= 0
  -x + y <= 0
improvements: 3
";

// The counter of a loop to 100, whose program has the same bounds.
const COUNT: &[u8] = b"vars x;
points start,
  loop, // the head
  end;
edge start loop { x = 0; }
edge loop loop { assume(x < 100); x = x + 1; }
edge loop end { assume(x >= 100); }
";

const COUNT_REPORT: &[u8] = b"variables x
point 0: entry
  x <= +inf
  -x <= +inf
point 1: label loop at line 3
  x <= 100
  -x <= 0
point 2: label end at line 4
  x <= 100
  -x <= -100
improvements: 3
";

const UNREACHED: &[u8] = b"variables x
point 0: entry
  x <= +inf
  -x <= +inf
point 1: label a at line 1
  unreachable
point 2: label b at line 1
  unreachable
improvements: 0
";

// An assumption with two cases gives two edges, and a free choice any number.
const CHOICE: &[u8] =
    b"vars x; points s, a, b; edge s a { x = nondet(); assume(x >= 0 && x <= 5); } edge a b { assume(x != 3); }";

const CHOICE_REPORT: &[u8] = b"variables x
point 0: entry
  x <= +inf
  -x <= +inf
point 1: label a at line 1
  x <= 5
  -x <= 0
point 2: label b at line 1
  x <= 5
  -x <= 0
improvements: 2
";

const REPORTS: &[(&str, &[u8], Ending)] = &[
    (
        "transitions p --domain zones",
        PAIR,
        Ending::Report(PAIR_REPORT),
    ),
    (
        "transitions --domain=zones --policy first p",
        PAIR,
        Ending::Report(PAIR_REPORT),
    ),
    ("transitions p", COUNT, Ending::Report(COUNT_REPORT)),
    ("transitions p", CHOICE, Ending::Report(CHOICE_REPORT)),
    (
        "transitions p",
        b"vars x; points s, a, b; edge a b { x = 1; }",
        Ending::Report(UNREACHED),
    ),
    (
        "transitions p --improvements 2",
        COUNT,
        Ending::Refused(6, b"spent: 2 improvements\n"),
    ),
];

#[test]
fn systems_have_reports(rt: HostRuntime) {
    assert_eq!(rt; first_wrong(rt.alloc(), REPORTS), None);
}

// Texts that are no transition systems, and why.
const REFUSED: &[(&[u8], &str)] = &[
    (b"vars x;\npoints s, a; $", "bad byte at line 2"),
    (
        b"vars x;\npoints s, a;\nedge s a { x 1; }",
        "unexpected token at line 3",
    ),
    (b"vars x,\n x; points s, a;", "name twice at line 2"),
    (
        b"vars a, b, c, d, e, f, g, h, i, j, k, l,\n m; points s, t;",
        "variables at line 2",
    ),
    (
        b"vars x; points s, a; edge s a { y = 1; }",
        "unknown name at line 1",
    ),
    (
        b"vars x; points s, a; edge s a { x = x < 1; }",
        "not affine at line 1",
    ),
    (
        b"vars x; points s, a; edge s a { x = 1 + nondet(); }",
        "nondet at line 1",
    ),
    (
        b"vars x; points s, a; edge s a { assume(9223372036854775807); }",
        "big number at line 1",
    ),
    (
        b"vars x; points s, a; edge s q { }",
        "unknown point at line 1",
    ),
    (
        b"vars x; points s, a; edge a s { }",
        "into the entry at line 1",
    ),
    (b"vars x; points s;", "1 points"),
    // Seven conditions with two cases each make 128 cases.
    (
        b"vars x; points s, a;\nedge s a { assume(x != 1 && x != 2 && x != 3 && x != 4 && x != 5 && x != 6 && x != 7); }",
        "cases at line 2",
    ),
];

#[test]
fn other_texts_are_no_systems(rt: HostRuntime) {
    let rows = "transitions p --domain rows --rows f";
    let unknown: [(&[u8], &str); 1] = [(b"y", "unknown name at line 1")];
    assert_eq!(rt;
        first_taken(rt.alloc(), "transitions p", "system", None, REFUSED),
        None
    );
    assert_eq!(rt;
        first_taken(rt.alloc(), rows, "rows", Some(COUNT), &unknown),
        None
    );
}

// Systems that are too large, and why.
const LARGE: &[Long] = &[
    (b"vars x; points s, a;", b" edge s a { }", 257, b"", "edges"),
    (
        b"vars x; points s, a; edge s a {",
        b" x = 1;",
        257,
        b" }",
        "actions of edge 0",
    ),
];

#[test]
fn large_systems_are_refused(rt: HostRuntime) {
    assert_eq!(rt;
        first_long_taken(rt.alloc(), "transitions p", "system", LARGE),
        None
    );
}

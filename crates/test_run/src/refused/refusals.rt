//! Refused words, files, rows and programs, wide operations and spent improvements: the code, the message, and no output.

use crate::cases::{Case, Ending, Long, ends, first_long_taken, first_taken, first_wrong};
use crate::done::reports::{COUNT, LINE, ROWS};
use std::alloc::Global;
use test_cases::repeated;

pub(crate) const USAGE: &[u8] =
    b"usage: tmpl solve PROGRAM [--domain D] [--rows FILE] [--improvements N] [--policy P] | certify (the same) \
      | check PROGRAM CERT | bench --seed N --loops K | upgrade CERT \
      | prove PROGRAM CLAIMS (the options of solve) | transitions FILE (the options of solve) \
      | equations FILE [--improvements N] [--policy P] | points PROGRAM | verify PROGRAM (the options of solve) \
      | solve, check, transitions, equations, prove, verify: [--format F] \
      | solve, certify, prove, verify, transitions, equations: [--progress] | help [COMMAND] | functions PROGRAM \
      | solve, certify, check, prove, verify: [--function NAME] [--int N]\n";

// Lines of words that ask for nothing.
const NO_REQUESTS: &[&str] = &[
    "",
    "bench --seed 1 --loops 501",
    "check p f --progress",
    "equations p --domain zones",
    "equations",
    "functions",
    "functions p f",
    "functions p --function f",
    "solve p --function",
    "help annotate",
    "help solve p",
    "help --domain zones",
    "points p --domain zones",
    "points p f",
    "points",
    "prove p f f",
    "prove p",
    "points p --progress",
    "solve p --domain rows",
    "solve p --progress --progress",
    "solve p --progress=true",
    "solve p --improvements 1000001",
    "solve",
    "transitions",
    "verify p f",
    "verify",
];

#[test]
fn other_words_are_no_request(rt: HostRuntime) {
    let refused = Ending::Refused(2, USAGE);
    let wrong = NO_REQUESTS
        .iter()
        .position(|line| !ends(rt.alloc(), *line, LINE, b"", refused));
    assert_eq!(rt; wrong, None);
}

// A line of words, and which of its files isn't read first.
const UNREAD: &[(&str, &str)] = &[
    ("prove p q", "claims"),
    // The program is loaded before the claims, and the claims before the program is read.
    ("prove q q", "program"),
    ("transitions q", "system"),
    ("transitions p --domain rows --rows q", "rows"),
    ("equations q", "equations"),
    ("points q", "program"),
    ("verify q", "program"),
    ("verify p --domain rows --rows q", "rows"),
    ("certify q", "program"),
    ("check q q", "program"),
    ("solve q --policy first", "program"),
    ("solve q", "program"),
    ("solve q --domain rows --rows q", "program"),
    ("solve p --domain rows --rows q", "rows"),
];

// Whether the run of a line stops since this file isn't read.
fn is_unread(alloc: Global, line: &str, file: &str) -> bool {
    match format!(in alloc; "cannot read the {file}\n") {
        Ok(message) => ends(
            alloc,
            line,
            LINE,
            b"",
            Ending::Refused(3, message.as_bytes()),
        ),
        Err(_) => false,
    }
}

#[test]
fn files_are_absent(rt: HostRuntime) {
    let wrong = UNREAD
        .iter()
        .position(|row| !is_unread(rt.alloc(), row.0, row.1));
    assert_eq!(rt; wrong, None);
}

// Files of rows, and why they are refused.
const NO_ROWS: &[(&[u8], &str)] = &[
    (b"0*x", "zero row at line 1"),
    (b"", "0 rows"),
    (b"x\ny + z\n", "unknown name at line 2"),
    (b"x <= 1", "bad row at line 1"),
];

#[test]
fn rows_are_refused(rt: HostRuntime) {
    assert_eq!(rt;
        first_taken(rt.alloc(), ROWS, "rows", Some(LINE), NO_ROWS),
        None
    );
}

// How many blanks the program and the rows are, the code and the message.
impl Case for (usize, usize, u8, &[u8]) {
    fn is_right(&self, alloc: Global) -> bool {
        let text = repeated(alloc, b"", b" ", self.0, b"");
        let rows = repeated(alloc, b"", b" ", self.1, b"");
        match (text, rows) {
            (Ok(text), Ok(rows)) => {
                ends(alloc, ROWS, &text, &rows, Ending::Refused(self.2, self.3))
            }
            _ => false,
        }
    }
}

const BLANKS: &[(usize, usize, u8, &[u8])] = &[
    (1048577, 65537, 3, b"too long: the program\n"),
    (0, 65537, 3, b"too long: the rows\n"),
    (65537, 65537, 3, b"too long: the rows\n"),
    (65537, 65536, 4, b"program refused: which function\n"),
    (1048576, 65536, 4, b"program refused: which function\n"),
];

// A line of words, the piece of which the file is, how often it stands there, and what the file is.
const LONG: &[(&str, &[u8], usize, &str)] = &[
    ("equations p", b" ", 65537, "equations"),
    ("transitions p", b"          ", 6554, "system"),
];

// Whether the file of a line is too long.
fn is_too_long(alloc: Global, line: &str, piece: &[u8], count: usize, file: &str) -> bool {
    match (
        repeated(alloc, b"", piece, count, b""),
        format!(in alloc; "too long: the {file}\n"),
    ) {
        (Ok(text), Ok(message)) => {
            ends(
                alloc,
                line,
                &text,
                b"",
                Ending::Refused(3, message.as_bytes()),
            )
        }
        _ => false,
    }
}

#[test]
fn files_are_too_long(rt: HostRuntime) {
    let wrong = LONG
        .iter()
        .position(|row| !is_too_long(rt.alloc(), row.0, row.1, row.2, row.3));
    assert_eq!(rt; first_wrong(rt.alloc(), BLANKS), None);
    assert_eq!(rt; wrong, None);
}

// Texts that are no programs with points, and why.
const PROGRAMS: &[(&[u8], &str)] = &[
    (b"", "which function"),
    (b"int f(int x);", "which function"),
    (b"int f(int x) { } int g(int x) { }", "which function"),
    (
        b"int main() { int x; }\nint main() { }",
        "name twice at line 2",
    ),
    (b"int main() { int x;\n", "unexpected token at line 2"),
    (b"int main() { x = 1; }", "unknown name at line 1"),
    (b"int main() { int x, x; }", "name twice at line 1"),
    (b"int main() { int x[3];\nx = 1; }", "wrong kind at line 2"),
    (b"int main() { int x[0]; }", "array at line 1"),
    (b"int main() { int x = 07; }", "bad number at line 1"),
    (b"int main() { /* int x; }", "open comment at line 1"),
    (b"int main() { }", "no variables"),
    (b"int main() { int x; x = &x; }", "bad byte at line 1"),
    (
        b"int main() {\n int x = 9223372036854775808; }",
        "long number at line 2",
    ),
    (b"int main() {\n\n int x = 1 @ 2; }", "bad byte at line 3"),
    (
        b"int main() {\n int x = 1; // C joins this line \\ \r\n x = 2; }",
        "bad byte at line 2",
    ),
    (
        b"int main() { int x; x = (((((((((((((((((((((((((((((((((((((((((((((((((((((((((((((((((1))))))))))))))))))))))))))))))))))))))))))))))))))))))))))))))))); }",
        "nesting at line 1",
    ),
    (
        b"int main() { int a, b, c, d, e, f, g, h, i, j, k, l, m, n, o, p, q, r, s, t, u, v, w, x, y, z, A, B, C, D, E, F, G, H, I, J, K, L, M, N, O, P, Q, R, S, T, U, V, W, X, Y, Z, a0, a1, a2, a3, a4, a5, a6, a7, a8, a9, b0, b1, b2; }",
        "variables at line 1",
    ),
    (
        b"int main() { int x = 9223372036854775807; x += x; x = 2*(9223372036854775807*x); }",
        "big number at line 1",
    ),
    (
        b"int main() { int x; assume(x != 1 && x != 2 && x != 3 && x != 4 && x != 5 && x != 6 && x != 7); }",
        "cases at line 1",
    ),
    // A bad byte comes before a name that is unknown.
    (
        b"int main() { y = 1;\nint x = 2 # 3; }",
        "bad byte at line 2",
    ),
    (b"int main() { int x;\ny = 1; }", "unknown name at line 2"),
    (
        b"int main() { int x;\nassume(x != 1 && x != 2 && x != 3 && x != 4 && x != 5 && x != 6 && x != 7); }",
        "cases at line 2",
    ),
];

// Programs with a point too many, and the fault.
const POINTED: &[Long] = &[(
    b"int main() { int x;",
    b" if (x < 1) ;",
    1023,
    b" }",
    "1025 points",
)];

// Octagons over 32 variables have 2,048 rows, so that there may be 32 points; over 33 variables there are too many rows, which come before
// the unknowns.
const LARGE: &[(&[u8], &str)] = &[
    (
        b"int main() { int a, b, c, d, e, f, g, h, i, j, k, l, m, n, o, p, q, r, s, t, u, v, w, x, y, z, A, B, C, D, E, F; l1: l2: l3: l4: l5: l6: l7: l8: l9: l10: l11: l12: l13: l14: l15: l16: l17: l18: l19: l20: l21: l22: l23: l24: l25: l26: l27: l28: l29: l30: l31: ; }",
        "67584 unknowns",
    ),
    (
        b"int main() { int a, b, c, d, e, f, g, h, i, j, k, l, m, n, o, p, q, r, s, t, u, v, w, x, y, z, A, B, C, D, E, F, G; l1: l2: l3: l4: l5: l6: l7: l8: l9: l10: l11: l12: l13: l14: l15: l16: l17: l18: l19: l20: l21: l22: l23: l24: l25: l26: l27: l28: l29: l30: l31: ; }",
        "2178 rows",
    ),
];

// Zones have too many rows from 45 variables on.
const WIDE: &[(&[u8], &str)] = &[(
    b"int main() { int a, b, c, d, e, f, g, h, i, j, k, l, m, n, o, p, q, r, s, t, u, v, w, x, y, z, A, B, C, D, E, F, G, H, I, J, K, L, M, N, O, P, Q, R, S; }",
    "2070 rows",
)];

#[test]
fn programs_are_refused(rt: HostRuntime) {
    assert_eq!(rt;
        first_taken(rt.alloc(), "solve p", "program", None, PROGRAMS),
        None
    );
    assert_eq!(rt;
        first_taken(rt.alloc(), "points p", "program", None, PROGRAMS),
        None
    );
    assert_eq!(rt;
        first_long_taken(rt.alloc(), "points p", "program", POINTED),
        None
    );
}

#[test]
fn templates_are_too_large(rt: HostRuntime) {
    let octagons = "solve p --domain octagons";
    assert_eq!(rt;
        first_taken(rt.alloc(), octagons, "program", None, LARGE),
        None
    );
    let certified = "certify p --domain octagons";
    assert_eq!(rt;
        first_taken(rt.alloc(), certified, "program", None, LARGE),
        None
    );
    let zones = "verify p --domain zones";
    assert_eq!(rt; first_taken(rt.alloc(), zones, "program", None, WIDE), None);
}

const STOPPED: &[(&str, &[u8], Ending)] = &[
    (
        "solve p --improvements 0",
        LINE,
        Ending::Refused(6, b"spent: 0 improvements\n"),
    ),
    (
        "solve p --improvements 2",
        COUNT,
        Ending::Refused(6, b"spent: 2 improvements\n"),
    ),
    (
        "certify p --improvements 2",
        COUNT,
        Ending::Refused(6, b"spent: 2 improvements\n"),
    ),
    (
        "solve p",
        b"int main() { int x; x = 3037000500*x; x = 3037000500*x; }",
        Ending::Refused(5, b"wide: mul 3037000500 3037000500 at compose edge 0\n"),
    ),
    (
        "solve p",
        b"int main() { int x = 9223372036854775807; }",
        Ending::Refused(
            5,
            b"wide: sub -9223372036854775807 1 at raise 1 in round 1\n",
        ),
    ),
];

#[test]
fn operations_are_wide_and_improvements_are_spent(rt: HostRuntime) {
    assert_eq!(rt; first_wrong(rt.alloc(), STOPPED), None);
}

// The beginning of a program with 64 variables, of which `x`, `y` and `z` alone change.
const MANY_VARIABLES: &[u8] = b"int main() { int x = 0, y = 0, z = 0;
int a, b, c, d, e, f, g, h, i, j, k, l, m, n, o, p, q, r, s, t, u, v, w, A, B, C, D, E, F, G, H;
int I, J, K, L, M, N, O, P, Q, R, S, T, U, V, W, X, Y, Z, a1, a2, a3, a4, a5, a6, a7, a8, a9, a10, a11, a12;
while (nondet()) { x = x + 1; z = y + 1; y = nondet(); ";

// A program whose loop holds so many inner loops that do nothing, by as many rows of `x`, one of `z` and one of `y`: how the run over it
// ends. What `y` was before it takes any value, `z` is behind it.
impl Case for (usize, usize, Ending<'_>) {
    fn is_right(&self, alloc: Global) -> bool {
        let text = repeated(
            alloc,
            MANY_VARIABLES,
            b"while (nondet()) { } ",
            self.0,
            b"} }",
        );
        let rows = repeated(alloc, b"", b"x\n", self.1, b"z\ny\n");
        match (text, rows) {
            (Ok(text), Ok(rows)) => ends(alloc, ROWS, &text, &rows, self.2),
            _ => false,
        }
    }
}

// The rounds bring the first values to the loops, one by one. In the round then every row of `x` rises at each loop, and at the outer one
// `z`, too, before `y` is unbounded there; from then on nothing bounds `z` behind the body, so that no cut is found for it and the guess
// is given up. With one inner loop and 440 rows of `x` the joint problem has 881 unknowns, 441 at the outer loop and 440 at the inner
// one. Each has 130 cells in each of 442 rows, 129 in its own and 2 of its rise, which are 57,591, and those of the inner loop two more
// for the free value: 881 * 57,591 + 880. With 19 inner loops and 3 rows of `x` there are few, and the problem is solved: all first
// values are there after 20 rounds.
const LARGE_PROBLEMS: &[(usize, usize, Ending)] = &[
    (
        1,
        440,
        Ending::Refused(4, b"program refused: 50738551 cells\n"),
    ),
    (
        19,
        3,
        Ending::End(
            b"point 21: exit\n  x <= +inf\n  x <= +inf\n  x <= +inf\n  z <= +inf\n  y <= +inf\nimprovements: 21\n",
        ),
    ),
];

#[test]
fn joint_problems_have_a_size(rt: HostRuntime) {
    assert_eq!(rt; first_wrong(rt.alloc(), LARGE_PROBLEMS), None);
}

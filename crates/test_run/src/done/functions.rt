//! Functions of C files: their names, the one that is asked about, and what expressions and statements of C come to.

use crate::cases::{Ending, first_wrong};

const FILE: &[u8] = b"int limit = 10;
static int twice(int x) { return 2 * x; }
int half(int x) { int y = x / 2; return y; }
void loop(void) { int i = 0; while (i < 10) { i++; } }
";

const WHICH: Ending = Ending::Refused(4, b"program refused: which function\n");

const NAMED: &[(&str, &[u8], Ending)] = &[
    ("functions p", FILE, Ending::Report(b"twice\nhalf\nloop\n")),
    ("functions p", b"int limit = 10;", Ending::Report(b"")),
    (
        "functions p",
        b"int f() { }\nint f() { }",
        Ending::Refused(4, b"program refused: name twice at line 2\n"),
    ),
    (
        "functions p",
        b"int f() {\n",
        Ending::Refused(4, b"program refused: unexpected token at line 2\n"),
    ),
    (
        "functions p",
        b"int f() { int x = @; }",
        Ending::Refused(4, b"program refused: bad byte at line 1\n"),
    ),
    ("solve p", FILE, WHICH),
    ("points p", FILE, WHICH),
    ("verify p --function main", FILE, WHICH),
    (
        "solve p --function loop",
        FILE,
        Ending::Report(
            b"variables i\npoint 0: entry\n  i <= +inf\n  -i <= +inf\npoint 1: loop at line 4\n  i <= 10\n  -i <= 0\
                \npoint 2: exit\n  i <= 10\n  -i <= -10\nimprovements: 3\n",
        ),
    ),
    (
        "solve --function=twice p",
        FILE,
        Ending::Report(
            b"variables x\npoint 0: entry\n  x <= +inf\n  -x <= +inf\npoint 1: exit\n  x <= +inf\n  -x <= +inf\nimprovements: 1\n",
        ),
    ),
    // of more functions than one `main` is meant
    (
        "points p",
        b"int f() { int x; while (x) x--; }\nint main() { int y; }",
        Ending::Report(b"point 0: entry\npoint 1: exit\n"),
    ),
];

#[test]
fn functions_are_named(rt: HostRuntime) {
    assert_eq!(rt; first_wrong(rt.alloc(), NAMED), None);
}

const MEANT: &[(&str, &[u8], Ending)] = &[
    // 2*y is 7 or 6, which for fractions is all between
    (
        "solve p",
        b"int main() { int x = 7; int y = x / 2; }",
        Ending::End(
            b"point 1: exit\n  x <= 7\n  -x <= -7\n  y <= 7/2\n  -y <= -3\nimprovements: 1\n",
        ),
    ),
    (
        "solve p",
        b"int main() { int x = 3; int y = x > 2 ? 10 : 20; }",
        Ending::End(
            b"point 1: exit\n  x <= 3\n  -x <= -3\n  y <= 10\n  -y <= -10\nimprovements: 1\n",
        ),
    ),
    // a `return` leaves the function with 1, its end is reached with 2
    (
        "solve p",
        b"int main() { int x = 0; if (nondet()) { x = 1; return x; } x = 2; }",
        Ending::End(
            b"point 1: join at line 1\n  x <= 0\n  -x <= 0\npoint 2: exit\n  x <= 2\n  -x <= -1\nimprovements: 2\n",
        ),
    ),
    // nothing is known of what a call answers
    (
        "solve p",
        b"int main() { int x = f(3); assume(x >= 1 && x <= 3); }",
        Ending::End(b"point 1: exit\n  x <= 3\n  -x <= -1\nimprovements: 1\n"),
    ),
    // an index of 5 is none of an array of five
    (
        "verify p",
        b"int main() { int a[5]; int i = 0; while (i < 6) { a[i] = i; i++; } }",
        Ending::Open(b"check 0 at 1:52: index: open at i = 5\nproved 0 of 1\nimprovements: 3\n"),
    ),
    (
        "verify p",
        b"int main() { int a[5]; int i = 0; while (i < 5) { a[i] = i; i++; } }",
        Ending::Report(b"check 0 at 1:52: index: proved\nproved 1 of 1\nimprovements: 3\n"),
    ),
    (
        "verify p",
        b"int main() { int x = nondet(); int y = 6 / x; }",
        Ending::Open(
            b"check 0 at 1:42: divisor: open at x = 0, y = 0\nproved 0 of 1\nimprovements: 1\n",
        ),
    ),
];

#[test]
fn expressions_and_statements_of_c_are_meant(rt: HostRuntime) {
    assert_eq!(rt; first_wrong(rt.alloc(), MEANT), None);
}

const FAULTY: &[(&str, &[u8], Ending)] = &[
    (
        "solve p",
        b"int main() { int a[3]; int x = a; }",
        Ending::Refused(4, b"program refused: wrong kind at line 1\n"),
    ),
    (
        "solve p",
        b"int main() {\nint a[0]; }",
        Ending::Refused(4, b"program refused: array at line 2\n"),
    ),
    (
        "solve p",
        b"int main() { }",
        Ending::Refused(4, b"program refused: no variables\n"),
    ),
    (
        "solve p",
        b"int main() { int x;\n\nbreak; }",
        Ending::Refused(4, b"program refused: outside a loop at line 3\n"),
    ),
];

#[test]
fn functions_have_faults(rt: HostRuntime) {
    assert_eq!(rt; first_wrong(rt.alloc(), FAULTY), None);
}

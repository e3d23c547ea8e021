//! Loops of each kind, and jumps out of them.

use crate::cases::{Case, Ending, first_wrong, run_line};
use std::alloc::{AllocError, Global};

const LOOPS: &[(&str, &[u8], Ending)] = &[
    (
        "solve p",
        b"int main() { int x = 0; for (;;) { if (x >= 5) break; x++; } }",
        Ending::End(
            b"point 1: loop at line 1\n  x <= 5\n  -x <= 0\npoint 2: join at line 1\n  x <= 4\n  -x <= 0\npoint 3: exit\n  x <= 5\n  -x <= -5\nimprovements: 4\n",
        ),
    ),
    (
        "solve p",
        b"int main() { int x = 0; do { x = x + 2; } while (x < 5); }",
        Ending::End(
            b"point 1: loop at line 1\n  x <= 4\n  -x <= 0\npoint 2: exit\n  x <= 6\n  -x <= -5\nimprovements: 3\n",
        ),
    ),
    (
        "solve p",
        b"int main() { int x = 0; for (int i = 0; i < 4; i++) { if (i == 2) continue; x++; } }",
        Ending::End(
            b"point 1: loop at line 1\n  x <= +inf\n  -x <= 0\n  i <= 4\n  -i <= 0\npoint 2: join at line 1\n  x <= +inf\n  -x <= 0\n  i <= 3\n  -i <= 0\npoint 3: exit\n  x <= +inf\n  -x <= 0\n  i <= 4\n  -i <= -4\nimprovements: 7\n",
        ),
    ),
    // a body that runs once, and what stands behind a jump
    (
        "solve p",
        b"int main() { int x = 3; do { x = x + 1; break; behind: x = 9; } while (x < 10); }",
        Ending::End(
            b"point 1: loop at line 1\n  x <= 3\n  -x <= -3\npoint 2: label behind at line 1\n  unreachable\npoint 3: exit\n  x <= 4\n  -x <= -4\nimprovements: 2\n",
        ),
    ),
    // a `continue` of a `do` goes on with its condition
    (
        "solve p",
        b"int main() { int x = 0; do { x = x + 1; continue; } while (x < 3); }",
        Ending::End(
            b"point 1: loop at line 1\n  x <= 2\n  -x <= 0\npoint 2: exit\n  x <= 3\n  -x <= -3\nimprovements: 3\n",
        ),
    ),
    // a `break` leaves the inner loop alone
    (
        "solve p",
        b"int main() { int x = 0; while (x < 3) { while (0 <= 0) break; x = x + 1; } }",
        Ending::End(b"point 3: exit\n  x <= 3\n  -x <= -3\nimprovements: 4\n"),
    ),
];

#[test]
fn loops_of_each_kind_have_their_bounds(rt: HostRuntime) {
    assert_eq!(rt; first_wrong(rt.alloc(), LOOPS), None);
}

// Two spellings of a program, and between them the words over it. They make the same points on the same lines.
const SPELLINGS: &[(&[u8], &str, &[u8])] = &[
    (
        b"int main() { int x = 0; for (int i = 0; i < 10; i++) x = x + 1; }",
        "solve p",
        b"int main() { int x = 0; int i = 0; while (i < 10) { x = x + 1; i++; } }",
    ),
    (
        b"int main() { int x = 0; for (int i = 0; i < 10; ++i) x = x + 1; }",
        "solve p --domain zones",
        b"int main() { int x = 0; int i = 0; while (i < 10) { x = x + 1; ++i; } }",
    ),
    (
        b"int main() { int x = 9; for (int i = 0; i != 9; i += 3) x--; }",
        "solve p --domain octagons",
        b"int main() { int x = 9; int i = 0; while (i != 9) { x--; i += 3; } }",
    ),
    (
        b"int main() { int i; for (i = 20; i > 3; i -= 2) ; }",
        "solve p",
        b"int main() { int i; i = 20; while (i > 3) { i -= 2; } }",
    ),
    (
        b"int main() { int i; for (i = 7; i; i--) { } }",
        "solve p",
        b"int main() { int i; i = 7; while (i) { i--; } }",
    ),
    (
        b"int main() { int i = 1; for (; i <= 100; i = 2*i) ; }",
        "solve p",
        b"int main() { int i = 1; while (i <= 100) i = 2*i; }",
    ),
    (
        b"int main() { int i = 1; for (; i <= 100; ) i = 3*i + 1; }",
        "solve p",
        b"int main() { int i = 1; while (i <= 100) i = 3*i + 1; }",
    ),
    (
        b"int main() { int i = 0; for (;;) i++; }",
        "solve p",
        b"int main() { int i = 0; while (0 <= 0) i++; }",
    ),
    (
        b"int main() { int i = 0; for (;; i++) assume(i < 5); }",
        "solve p",
        b"int main() { int i = 0; while (0 <= 0) { assume(i < 5); i++; } }",
    ),
    (
        b"int main() { int x = 0; for (int i = nondet(); nondet(); i = nondet()) x = i; }",
        "solve p",
        b"int main() { int x = 0; int i = nondet(); while (nondet()) { x = i; i = nondet(); } }",
    ),
    (
        b"int main() { int n = 4; for (int i = 0, j = 10; i < j; i++) j--; }",
        "solve p --domain zones",
        b"int main() { int n = 4; int i = 0, j = 10; while (i < j) { j--; i++; } }",
    ),
    (
        b"int main() { for (int i = 0; i < 5; i++) { for (int j = 0; j < i; j++) ; } }",
        "solve p",
        b"int main() { int i = 0; while (i < 5) { int j = 0; while (j < i) { j++; } i++; } }",
    ),
    (
        b"int main() { for (int i = 0; i < 5; i++) { for (int j = 0; j < i; j++) ; } }",
        "solve p --domain octagons",
        b"int main() { int i = 0; while (i < 5) { int j = 0; while (j < i) { j++; } i++; } }",
    ),
    (
        b"int main() { int s = 0; for (int i = 0; i < 8; i++) { if (i < 4) s++; else s--; } }",
        "solve p",
        b"int main() { int s = 0; int i = 0; while (i < 8) { if (i < 4) s++; else s--; i++; } }",
    ),
    (
        b"int main() { int s = 0; for (int i = 0; i < 8; i++) { if (i < 4) s++; else s--; } }",
        "solve p --domain zones --policy first",
        b"int main() { int s = 0; int i = 0; while (i < 8) { if (i < 4) s++; else s--; i++; } }",
    ),
    (
        b"int main() { for (int i = 0; i < 6; i++) { mid: assume(i != 3); } }",
        "solve p",
        b"int main() { int i = 0; while (i < 6) { mid: assume(i != 3); i++; } }",
    ),
    (
        b"int main() { int x = 0; if (nondet()) for (int i = 0; i < 3; i++) x = i; else x = 5; }",
        "solve p --domain zones",
        b"int main() { int x = 0; if (nondet()) { int i = 0; while (i < 3) { x = i; i++; } } else x = 5; }",
    ),
    (
        b"int main() { int x = 0; for (int i = 0; i < 3 || x < 2; i++) x = x + i; }",
        "solve p",
        b"int main() { int x = 0; int i = 0; while (i < 3 || x < 2) { x = x + i; i++; } }",
    ),
    (
        b"int main() { int x = 0; for (int i = 0; i < 3 && x < 2; i++) x = x + i; }",
        "solve p",
        b"int main() { int x = 0; int i = 0; while (i < 3 && x < 2) { x = x + i; i++; } }",
    ),
    (
        b"int main() { int x = 0; for (x = 5; x >= 1; x = x - 1) assume(3*x <= 10); }",
        "solve p",
        b"int main() { int x = 0; x = 5; while (x >= 1) { assume(3*x <= 10); x = x - 1; } }",
    ),
    (
        b"int main() { int x = 0, y = 9; for (; x < y; x++) y--; }",
        "solve p --domain rows --rows f",
        b"int main() { int x = 0, y = 9; while (x < y) { y--; x++; } }",
    ),
    (
        b"int main() { int x = 0; for (int i = 0; i < 10; i++) x++; }",
        "certify p --domain zones",
        b"int main() { int x = 0; int i = 0; while (i < 10) { x++; i++; } }",
    ),
    (
        b"int main() { int x = 0; for (; nondet(); ) { assume(3*x <= 10); x = x + 1; } }",
        "certify p",
        b"int main() { int x = 0; while (nondet()) { assume(3*x <= 10); x = x + 1; } }",
    ),
    // a jump at the end of a body, or in a branch that nothing follows, is the end of the body
    (
        b"int main() { int x = 0; while (x < 4) { x++; continue; } }",
        "solve p",
        b"int main() { int x = 0; while (x < 4) { x++; } }",
    ),
    (
        b"int main() { int x = 0; for (; x < 4; x++) { continue; x = 7; } }",
        "solve p",
        b"int main() { int x = 0; while (x < 4) { x++; } }",
    ),
    (
        b"int main() { int x = 0; do { x++; } while (x < 4); }",
        "solve p",
        b"int main() { int x = 0; do { x++; continue; x = 9; } while (x < 4); }",
    ),
    (
        b"int main() { int x = 0; do x += 2; while (x < 9 && x != 5); }",
        "solve p",
        b"int main() { int x = 0; do { x += 2; ; } while (!(x >= 9 || x == 5)); }",
    ),
    (
        b"int main() { int x = 0; while (x < 9) { x = x + 4; if (nondet()) break; } }",
        "solve p",
        b"int main() { int x = 0; for (; x < 9; ) { x = x + 4; if (nondet()) break; } }",
    ),
    (
        b"int main() { int x = 0; while (x < 9) { if (nondet()) continue; x = x + 4; } }",
        "solve p",
        b"int main() { int x = 0; for (; x < 9; ) { if (nondet()) continue; x = x + 4; } }",
    ),
    (
        b"int main() { int a = 0; for (int i = 0; i < 9; i++) { if (i == 4) break; a = i; } }",
        "solve p --domain zones",
        b"int main() { int a = 0; int i = 0; while (i < 9) { if (i == 4) break; a = i; i++; } }",
    ),
];

impl Case for (&[u8], &str, &[u8]) {
    fn is_right(&self, alloc: Global) -> bool {
        match same_output(alloc, self.1, self.0, self.2) {
            Ok(same) => same,
            Err(_) => false,
        }
    }
}

// Whether the runs of a line over two programs are done, and write the same.
fn same_output(alloc: Global, line: &str, one: &[u8], other: &[u8]) -> Result<bool, AllocError> {
    let first = run_line(alloc, line, one, b"x + 2*y\n")?;
    let second = run_line(alloc, line, other, b"x + 2*y\n")?;
    Ok(first.code == 0 && second.code == 0 && first.out.bytes() == second.out.bytes())
}

#[test]
fn two_spellings_have_the_same_bounds(rt: HostRuntime) {
    assert_eq!(rt; first_wrong(rt.alloc(), SPELLINGS), None);
}

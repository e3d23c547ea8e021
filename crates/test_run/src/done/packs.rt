//! Packs: reports and verdicts over the pairs of variables that a program or a transition system has together.

use crate::cases::{Ending, first_taken, first_wrong};

// `a` and `c` are in one change; `b` is with neither.
const CHANGED: &[u8] = b"int main() { int a = 1, b = 2, c = 3; c = c + a; }";

const CHANGED_REPORT: &[u8] = b"variables a b c
point 0: entry
  a <= +inf
  -a <= +inf
  b <= +inf
  -b <= +inf
  c <= +inf
  -c <= +inf
  a + c <= +inf
  a - c <= +inf
  -a + c <= +inf
  -a - c <= +inf
point 1: exit
  a <= 1
  -a <= -1
  b <= 2
  -b <= -2
  c <= 4
  -c <= -4
  a + c <= 5
  a - c <= -3
  -a + c <= 3
  -a - c <= -5
improvements: 1
";

// The loop compares `x` and `y`; `z` is passed by.
const LOOP: &[u8] = b"int main() { int x = 0, y = 10, z = 5; while (x < y) { x++; } }";

const LOOP_REPORT: &[u8] = b"variables x y z
point 0: entry
  x <= +inf
  -x <= +inf
  y <= +inf
  -y <= +inf
  z <= +inf
  -z <= +inf
  x + y <= +inf
  x - y <= +inf
  -x + y <= +inf
  -x - y <= +inf
point 1: loop at line 1
  x <= 10
  -x <= 0
  y <= 10
  -y <= -10
  z <= 5
  -z <= -5
  x + y <= 20
  x - y <= 0
  -x + y <= 10
  -x - y <= -10
point 2: exit
  x <= 10
  -x <= -10
  y <= 10
  -y <= -10
  z <= 5
  -z <= -5
  x + y <= 20
  x - y <= 0
  -x + y <= 0
  -x - y <= -20
improvements: ";

// The same as a transition system.
const EDGES: &[u8] = b"vars x, y, z;
points start, loop, end;
edge start loop { x = 0; y = 10; z = 5; }
edge loop loop { assume(x < y); x = x + 1; }
edge loop end { assume(x >= y); }
";

const EDGES_REPORT: &[u8] = b"variables x y z
point 0: entry
  x <= +inf
  -x <= +inf
  y <= +inf
  -y <= +inf
  z <= +inf
  -z <= +inf
  x + y <= +inf
  x - y <= +inf
  -x + y <= +inf
  -x - y <= +inf
point 1: label loop at line 2
  x <= 10
  -x <= 0
  y <= 10
  -y <= -10
  z <= 5
  -z <= -5
  x + y <= 20
  x - y <= 0
  -x + y <= 10
  -x - y <= -10
point 2: label end at line 2
  x <= 10
  -x <= -10
  y <= 10
  -y <= -10
  z <= 5
  -z <= -5
  x + y <= 20
  x - y <= 0
  -x + y <= 0
  -x - y <= -20
improvements: ";

// Over 64 variables octagons have too many rows; the loops have few variables each.
const WIDE: &[u8] = b"int main() {
  int a, b, c, d, e, f, g, h, i, j, k, l, m, n, o, p, q, r, s, t, u, v, w, x, y, z, A, B, C, D, E, F;
  int G, H, I, J, K, L, M, N, O, P, Q, R, S, T, U, V, W, X, Y, Z, a1, b1, c1, d1, e1, f1, g1, h1, i1, j1, k1, l1;
  a = 0; b = 0;
  while (a < 10) { a++; b++; }
  assert(a - b == 0);
  Z = 20; l1 = 0;
  while (Z > 0) { Z--; l1++; }
  assert(Z + l1 == 20);
  assert(a - b == 0);
}";

const RUNS: &[(&str, &[u8], Ending)] = &[
    (
        "solve p --domain packs",
        CHANGED,
        Ending::Report(CHANGED_REPORT),
    ),
    ("solve p --domain packs", LOOP, Ending::Start(LOOP_REPORT)),
    (
        "transitions p --domain packs",
        EDGES,
        Ending::Start(EDGES_REPORT),
    ),
    (
        "verify p --domain packs",
        WIDE,
        Ending::Start(
            b"check 0 at 6:3: assert: proved\ncheck 1 at 9:3: assert: proved\ncheck 2 at 10:3: assert: proved\nproved 3 of 3\n",
        ),
    ),
];

#[test]
fn packs_are_of_variables_together(rt: HostRuntime) {
    assert_eq!(rt; first_wrong(rt.alloc(), RUNS), None);
}

// Over 33 variables that one assumption has together there are as many packs as octagons, which are too many.
const TOGETHER: &[(&[u8], &str)] = &[(
    b"int main() { int a, b, c, d, e, f, g, h, i, j, k, l, m, n, o, p, q, r, s, t, u, v, w, x, y, z, A, B, C, D, E, F, G; assume(a + b + c + d + e + f + g + h + i + j + k + l + m + n + o + p + q + r + s + t + u + v + w + x + y + z + A + B + C + D + E + F <= G); }",
    "2178 rows",
)];

#[test]
fn packs_are_too_many(rt: HostRuntime) {
    assert_eq!(rt;
        first_taken(
            rt.alloc(),
            "solve p --domain packs",
            "program",
            None,
            TOGETHER
        ),
        None
    );
}

//! Functions in whole C files, with the verdicts on their checks and the faults of files, worked out by hand.

use crate::cases::{Case, Ending, first_taken, first_wrong};

// What stands round a function in a file, of which the last line is the seventh.
const AROUND: &[u8] = b"#include <stdio.h>
#pragma message(\"/*\")
struct pair { unsigned char a; double b; };
static const char *words[] = { \"it's\", \"/*\", \"\\\"\" };
void say(const char *s, ...) { fprintf(stderr, s, 0x1F, 1.5e+3, '\\''); p->a |= ~3; }
#define TWICE(x) ((x) << 1)
int f(int x) { assert(x != 1); return x; }
";

// Each spelling of a constant.
const CONSTANTS: &[u8] = b"#define A 3 // c
#define B (-4)
#define C - 5 /* x */
enum { D, E = 10, F };
enum named { G = -1, H, };
static const int I = 6;
const int J = -7;
#include <limits.h>
int f(void) {
  int x = A;
  assert(x == 3 && B == -4 && C == -5 && D == 0 && E == 10 && F == 11 && G == -1 && H == 0 && I == 6 && J == -7);
  assert(INT_MAX == 2147483647 && INT_MIN == -2147483648);
}
";

// The same names in blocks of their own, and one that is a constant from some place on.
const AGAIN: &[u8] = b"int f(int n) {
  for (int i = 0; i < 3; i++) n++;
  for (int i = 5; i > 0; i--) n--;
  { int t[4]; t[3] = 0; }
  { int t[2]; t[1] = 0; t[2] = 0; }
  { int k = 2; assert(k == 2); }
#define k 9
  assert(k == 9);
  return n;
}
";

const DIMENSIONS: &[u8] = b"int f(int x, int a[4], int b[][3], int *c) {
  const int t[2][3] = { { 1, x / 0 }, { a[3], }, };
  say(a, b, t, (x));
  return a[4] + b[9][2] + b[x][2] + c[-1] + t[1][0];
}
";

// Steps inside a condition, an index, a declarator, an argument list, and what is returned.
const COUNTS_DOWN: &[u8] =
    b"int f(int n, int *a) { int s = 0; while (n--) { a[s++] = n; } assert(n == -1); }\n";

const STEPS: &[u8] =
    b"int f(int x) { int y = x++; assert(y == x - 1); int z = --x; assert(z == y && x == z); return z; }\n";

const HEAD_STEPS: &[u8] =
    b"int f(void) { for (int i = 10; i-- > 0; ) assert(0 <= i && i <= 9); }\n";

const ARGUMENTS_STEP: &[u8] = b"int f(int n) { int i = 4; g(i--, -n++); a: assert(i == 3); }\n";

const RETURNED_STEP: &[u8] = b"int f(int x) { return x++; }\n";

const FUNCTIONS: &[(&str, &[u8], Ending)] = &[
    (
        "verify p",
        COUNTS_DOWN,
        Ending::Report(
            b"check 0 at 1:50: index: proved\ncheck 1 at 1:63: assert: proved\nproved 2 of 2\nimprovements: 2\n",
        ),
    ),
    (
        "verify p",
        STEPS,
        Ending::Report(
            b"check 0 at 1:29: assert: proved\ncheck 1 at 1:62: assert: proved\nproved 2 of 2\nimprovements: 1\n",
        ),
    ),
    (
        "solve p",
        HEAD_STEPS,
        Ending::Report(
            b"variables i\
                \npoint 0: entry\n  i <= +inf\n  -i <= +inf\
                \npoint 1: loop at line 1\n  i <= 10\n  -i <= 0\
                \npoint 2: exit\n  i <= -1\n  -i <= 1\nimprovements: 3\n",
        ),
    ),
    (
        "verify p",
        HEAD_STEPS,
        Ending::Report(b"check 0 at 1:43: assert: proved\nproved 1 of 1\nimprovements: 3\n"),
    ),
    (
        "verify p",
        ARGUMENTS_STEP,
        Ending::Report(b"check 0 at 1:44: assert: proved\nproved 1 of 1\nimprovements: 2\n"),
    ),
    (
        "verify p --int 8",
        RETURNED_STEP,
        Ending::Open(b"check 0 at 1:24: range: open at x = 127\nproved 0 of 1\nimprovements: 1\n"),
    ),
    (
        "verify p --function f",
        AROUND,
        Ending::Open(b"check 0 at 7:16: assert: open at x = 1\nproved 0 of 1\nimprovements: 1\n"),
    ),
    ("functions p", AROUND, Ending::Report(b"say\nf\n")),
    (
        "verify p",
        b"int f(int x) { \n#pragma message(\"/*\")\n x = 200; /* */ assert(x < 5); }\n",
        Ending::Open(b"check 0 at 3:17: assert: open at x = 200\nproved 0 of 1\nimprovements: 0\n"),
    ),
    (
        "verify p",
        CONSTANTS,
        Ending::Report(
            b"check 0 at 11:3: assert: proved\ncheck 1 at 12:3: assert: proved\nproved 2 of 2\nimprovements: 1\n",
        ),
    ),
    (
        "verify p --int 8",
        b"#include <limits.h>\n#define BIG -129\nint f(void) { int x = INT_MAX; assert(x == 127); x = BIG; }\n",
        Ending::Open(
            b"check 0 at 3:32: assert: proved\ncheck 1 at 3:54: range: open at x = 127\nproved 1 of 2\nimprovements: 1\n",
        ),
    ),
    (
        "verify p",
        b"#define A 1\n#define A 2\nint f(int x) { assert(A == 2); return x; }\n",
        Ending::Report(b"check 0 at 3:16: assert: proved\nproved 1 of 1\nimprovements: 1\n"),
    ),
    (
        "verify p",
        AGAIN,
        Ending::Open(
            b"check 0 at 4:16: index: proved\
                \ncheck 1 at 5:16: index: proved\
                \ncheck 2 at 5:26: index: open at n = 0, i = 0, k = 0\
                \ncheck 3 at 6:16: assert: proved\
                \ncheck 4 at 8:3: assert: proved\nproved 4 of 5\nimprovements: 5\n",
        ),
    ),
    (
        "verify p",
        DIMENSIONS,
        Ending::Open(
            b"check 0 at 2:32: divisor: open at x = 0\
                \ncheck 1 at 2:42: index: proved\
                \ncheck 2 at 4:11: index: open at x = 0\
                \ncheck 3 at 4:18: index: proved\
                \ncheck 4 at 4:21: index: proved\
                \ncheck 5 at 4:28: index: open at x = -1\
                \ncheck 6 at 4:31: index: proved\
                \ncheck 7 at 4:38: index: open at x = 0\
                \ncheck 8 at 4:46: index: proved\
                \ncheck 9 at 4:49: index: proved\nproved 6 of 10\nimprovements: 1\n",
        ),
    ),
];

#[test]
fn functions_in_files_have_verdicts(rt: HostRuntime) {
    assert_eq!(rt; first_wrong(rt.alloc(), FUNCTIONS), None);
}

// Texts, and what they are refused for.
const REFUSED: &[(&[u8], &str)] = &[
    // what may stand in no file
    (
        b"int f(int x) { return x; }\n#undef X\n",
        "bad byte at line 2",
    ),
    (
        b"int f(int x) { return x; }\n#define 1\n",
        "bad byte at line 2",
    ),
    (
        b"int f(int x) { return x; }\nchar *s = \"abc;\n",
        "bad byte at line 2",
    ),
    (
        b"int f(int x) { return x; }\nint a<:3:>;\n",
        "bad byte at line 2",
    ),
    (
        b"int f(int x) { return x; }\n/* open\n",
        "open comment at line 2",
    ),
    (
        b"int f(int x) { return x; }\n]\n",
        "unexpected token at line 2",
    ),
    (
        b"int f(int x) { return (x }\n",
        "unexpected token at line 1",
    ),
    (
        b"int f(int x) { return x; }\nint g\n",
        "unexpected token at line 3",
    ),
    // names that stand twice
    (
        b"enum { A };\nenum { A };\nint f(int x) { return x; }\n",
        "name twice at line 2",
    ),
    (
        b"#define A 1\nenum { A };\nint f(int x) { return x; }\n",
        "name twice at line 2",
    ),
    (
        b"int f(int x) { return x; }\nenum { A };\nvoid f(void) { }\nenum { A };\n",
        "name twice at line 3",
    ),
    // which function
    (
        b"int f(int x) { return x; }\nint g(int x) { return x; }\n",
        "which function",
    ),
    // what may not stand in the function that is asked about
    (b"int f(int x) {\n return x & 1; }\n", "bad byte at line 2"),
    (
        b"int f(int x) {\n return g(\"s\"); }\n",
        "bad byte at line 2",
    ),
    (b"int f(int x) {\n return 0x10; }\n", "bad number at line 2"),
    (b"int f(int x) {\n return 1.5; }\n", "bad number at line 2"),
    (b"int f(int x) {\n return 007; }\n", "bad number at line 2"),
    (
        b"int f(int x) {\n return 99999999999999999999; }\n",
        "long number at line 2",
    ),
    (
        b"int f(int x) {\n return abcdefghijklmnopqrstuvwxyz0123456789; }\n",
        "long name at line 2",
    ),
    (
        b"int f(int x) { int y = 7;\n#define x y\n assert(x == 7); }\n",
        "macro at line 3",
    ),
    (
        b"#define N(x) 3\nint f(int x) {\n return N(x); }\n",
        "macro at line 3",
    ),
    (
        b"#define N (3 + 1)\nint f(int x) {\n return N; }\n",
        "macro at line 3",
    ),
    (
        b"#define int long\nint f(int x) { return x; }\n",
        "macro at line 2",
    ),
    (
        b"int f(int x) {\n x = 1 & 2; return 3 3; }\n",
        "bad byte at line 2",
    ),
    (
        b"int f(int x) {\n return 3 3; x = 1\n & 2; }\n",
        "bad byte at line 3",
    ),
    // constants
    (
        b"#define N 3\nint f(int N) { return 0; }\n",
        "name twice at line 2",
    ),
    (
        b"#define N 3\nint f(int x) { N = x; }\n",
        "wrong kind at line 2",
    ),
    (
        b"#define N 3\nint f(int x) { N++; }\n",
        "wrong kind at line 2",
    ),
    (
        b"#define N 3\nint f(int x) { return N(x); }\n",
        "wrong kind at line 2",
    ),
    (
        b"#define N 3\nint f(int x) { return N[x]; }\n",
        "wrong kind at line 2",
    ),
    (
        b"int f(int x) { return N; }\nenum { N };\n",
        "unknown name at line 1",
    ),
    (
        b"int f(int x) { return N;\n#define N 1\n }\n",
        "unknown name at line 1",
    ),
    (
        b"#define M(x) x\nenum { N = M };\nint f(int x) { return N; }\n",
        "unknown name at line 3",
    ),
    // arrays
    (
        b"int f(int x) { int a[2][3];\n return a[1]; }\n",
        "wrong kind at line 2",
    ),
    (
        b"int f(int x) { int a[2][3];\n return a[1][2][0]; }\n",
        "wrong kind at line 2",
    ),
    (b"int f(int x) {\n int a[x]; }\n", "wrong kind at line 2"),
    (b"int f(int x) {\n int a[n]; }\n", "unknown name at line 2"),
    (
        b"#define Z 0\nint f(int x) {\n int a[Z]; }\n",
        "array at line 3",
    ),
    (
        b"#define Z -1\nint f(int x) {\n int a[3][Z]; }\n",
        "array at line 3",
    ),
    (
        b"int f(int x) {\n int a[2] = { x, a[0] }; }\n",
        "unknown name at line 2",
    ),
    (
        b"int f(int x, int a[3]) {\n g((a)); }\n",
        "wrong kind at line 2",
    ),
    (
        b"int f(int x) {\n { int i = 0; }\n { int i[3]; } }\n",
        "name twice at line 3",
    ),
    (
        b"int f(int x) {\n int i;\n { int i; } }\n",
        "name twice at line 3",
    ),
    // steps whose order C leaves open, or to which it may not come
    (
        b"int f(int n, int *a) {\n while (n-- < n) { } }\n",
        "side effect at line 2",
    ),
    (
        b"int f(int n, int *a) {\n a[n++] = n; }\n",
        "side effect at line 2",
    ),
    (
        b"int f(int n) {\n return n && --n; }\n",
        "side effect at line 2",
    ),
    (
        b"int f(int n) {\n return m++; }\n",
        "unknown name at line 2",
    ),
];

#[test]
fn files_are_refused(rt: HostRuntime) {
    assert_eq!(rt;
        first_taken(rt.alloc(), "solve p", "program", None, REFUSED),
        None
    );
}

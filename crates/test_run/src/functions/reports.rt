//! Functions of C with their whole reports, worked out by hand: each is tried against C itself, too (bench/gcc.sh).

use crate::cases::{Case, Ending, first_wrong};

const MAGNITUDE: &[u8] = b"int magnitude(int x) {
  int y = x < 0 ? -x : x;
  return y;
}
";

const LEAP: &[u8] = b"int leap(int year) {
  int is = year % 4 == 0 && year % 100 != 0 || year % 400 == 0;
  return is;
}
";

const TRIANGLE: &[u8] = b"int triangle(int n) {
  int rows = 0;
  while (rows < n) rows++;
  return rows;
}
";

const SIGN: &[u8] = b"int sign(int x) {
  int s = (x > 0) - (x < 0);
  return s;
}
";

const PARITY: &[u8] = b"int parity(int n) {
  assume(0 <= n && n <= 9);
  int odd = n % 2;
  return odd;
}
";

const PAGES: &[u8] = b"int pages(int bytes) {
  assume(1 <= bytes && bytes <= 100000);
  int n = (bytes + 4095) / 4096;
  return n;
}
";

const HEX: &[u8] = b"int hex(int c) {
  int v = -1;
  if (48 <= c && c <= 57) v = c - 48;
  if (97 <= c && c <= 102) v = c - 87;
  return v;
}
";

const POWER: &[u8] = b"int power(int n) {
  int p = 1;
  assume(n <= 1000);
  while (p < n) p *= 2;
  return p;
}
";

const FUNCTIONS: &[(&str, &[u8], Ending)] = &[
    (
        "solve p",
        MAGNITUDE,
        Ending::Report(
            b"variables x y\
                \npoint 0: entry\n  x <= +inf\n  -x <= +inf\n  y <= +inf\n  -y <= +inf\
                \npoint 1: exit\n  x <= +inf\n  -x <= +inf\n  y <= +inf\n  -y <= 0\nimprovements: 1\n",
        ),
    ),
    (
        "solve p",
        LEAP,
        Ending::Report(
            b"variables year is\
                \npoint 0: entry\n  year <= +inf\n  -year <= +inf\n  is <= +inf\n  -is <= +inf\
                \npoint 1: exit\n  year <= +inf\n  -year <= +inf\n  is <= 1\n  -is <= 0\nimprovements: 1\n",
        ),
    ),
    (
        "solve p --domain octagons",
        TRIANGLE,
        Ending::Report(
            b"variables n rows\
                \npoint 0: entry\n  n <= +inf\n  -n <= +inf\n  rows <= +inf\n  -rows <= +inf\n  n + rows <= +inf\
                \n  n - rows <= +inf\n  -n + rows <= +inf\n  -n - rows <= +inf\
                \npoint 1: loop at line 3\n  n <= +inf\n  -n <= +inf\n  rows <= +inf\n  -rows <= 0\n  n + rows <= +inf\
                \n  n - rows <= +inf\n  -n + rows <= +inf\n  -n - rows <= +inf\
                \npoint 2: exit\n  n <= +inf\n  -n <= +inf\n  rows <= +inf\n  -rows <= 0\n  n + rows <= +inf\n  n - rows <= 0\
                \n  -n + rows <= +inf\n  -n - rows <= +inf\nimprovements: 2\n",
        ),
    ),
    (
        "solve p",
        SIGN,
        Ending::Report(
            b"variables x s\
                \npoint 0: entry\n  x <= +inf\n  -x <= +inf\n  s <= +inf\n  -s <= +inf\
                \npoint 1: exit\n  x <= +inf\n  -x <= +inf\n  s <= 1\n  -s <= 1\nimprovements: 1\n",
        ),
    ),
    (
        "solve p",
        PARITY,
        Ending::Report(
            b"variables n odd\
                \npoint 0: entry\n  n <= +inf\n  -n <= +inf\n  odd <= +inf\n  -odd <= +inf\
                \npoint 1: exit\n  n <= 9\n  -n <= 0\n  odd <= 1\n  -odd <= 0\nimprovements: 1\n",
        ),
    ),
    // The same by machine integers: a value that is out of their range has a verdict, and no other bound.
    (
        "solve p --int 8",
        MAGNITUDE,
        Ending::Report(
            b"variables x y\
                \npoint 0: entry\n  x <= +inf\n  -x <= +inf\n  y <= +inf\n  -y <= +inf\
                \npoint 1: exit\n  x <= 127\n  -x <= 128\n  y <= 128\n  -y <= 0\nimprovements: 1\n",
        ),
    ),
    (
        "solve p",
        PAGES,
        Ending::Report(
            b"variables bytes n\
                \npoint 0: entry\n  bytes <= +inf\n  -bytes <= +inf\n  n <= +inf\n  -n <= +inf\
                \npoint 1: exit\n  bytes <= 100000\n  -bytes <= -1\n  n <= 104095/4096\n  -n <= -1/4096\nimprovements: 1\n",
        ),
    ),
    (
        "solve p",
        HEX,
        Ending::Report(
            b"variables c v\
                \npoint 0: entry\n  c <= +inf\n  -c <= +inf\n  v <= +inf\n  -v <= +inf\
                \npoint 1: join at line 3\n  c <= +inf\n  -c <= +inf\n  v <= 9\n  -v <= 1\
                \npoint 2: join at line 4\n  c <= +inf\n  -c <= +inf\n  v <= 15\n  -v <= 1\
                \npoint 3: exit\n  c <= +inf\n  -c <= +inf\n  v <= 15\n  -v <= 1\nimprovements: 3\n",
        ),
    ),
    (
        "solve p",
        POWER,
        Ending::Report(
            b"variables n p\
                \npoint 0: entry\n  n <= +inf\n  -n <= +inf\n  p <= +inf\n  -p <= +inf\
                \npoint 1: loop at line 4\n  n <= 1000\n  -n <= +inf\n  p <= 1998\n  -p <= -1\
                \npoint 2: exit\n  n <= 1000\n  -n <= +inf\n  p <= 1998\n  -p <= -1\nimprovements: 2\n",
        ),
    ),
];

#[test]
fn functions_have_reports(rt: HostRuntime) {
    assert_eq!(rt; first_wrong(rt.alloc(), FUNCTIONS), None);
}

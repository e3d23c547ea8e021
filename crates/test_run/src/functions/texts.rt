//! Functions of C whose operations may overflow.

pub const COUNT: &[u8] = b"int main() { int x = 0; while (x < 1000) x = x + 1; }\n";

pub const NEXT: &[u8] = b"int next(int a) { return a + 1; }\n";

pub const MIDDLE: &[u8] = b"int mid(int lo, int hi) {
  assume(0 <= lo && lo <= hi);
  return (lo + hi) / 2;
}
";

pub const BETWEEN: &[u8] = b"int mid(int lo, int hi) {
  assume(0 <= lo && lo <= hi);
  return lo + (hi - lo) / 2;
}
";

pub const SIDE: &[u8] = b"int f(int x) {
  assume(x >= 100);
  int y = x < 20 ? x * 5 / 2 : 0;
  assert(y == 1);
}
";

pub const DOWN: &[u8] = b"int down(int n) {
  while (n != 0)
    n--;
  return n;
}
";

pub const UP: &[u8] = b"int up(int n) {
  int c = 0;
  while (c < n)
    c++;
  return c;
}
";

pub const EVERY: &[u8] = b"void every(void) {
  for (int i = 0; i <= 127; i++)
    ;
}
";

pub const DOUBLED: &[u8] = b"int doubled(void) {
  int x = 1;
  do
    x *= 2;
  while (x < 64);
  return x;
}
";

pub const DOUBLED64: &[u8] = b"int doubled(void) {
  int x = 1;
  do
    x *= 2;
  while (x <= 64);
  return x;
}
";

pub const PAIRED: &[u8] = b"int paired(void) {
  int s = 100;
  for (int i = 0; i < 50; i++)
    s -= 1;
  assert(s == 50);
  return s;
}
";

pub const OPPOSITE: &[u8] = b"int opposite(void) {
  int m = -127 - 1;
  return m / -1;
}
";

pub const NO_REST: &[u8] = b"int no_rest(int a) {
  int r = a % -1;
  return r;
}
";

pub const SOME_REST: &[u8] = b"int some_rest(int a) {
  assume(a > -127 - 1);
  return a % -1;
}
";

pub const PRODUCT: &[u8] = b"int product(int a, int b) {
  assume(a == 3 && b == 4);
  return a * b + 1;
}
";

pub const NOWHERE: &[u8] = b"int nowhere(int a) {
  if (a > 127)
    return a * a - 1000;
  return 0;
}
";

pub const ELEMENT: &[u8] = b"int element(int i) {
  int t[10];
  assume(i == 3);
  int half = t[i] / 2 + 1;
  return t[i] + 1;
}
";

pub const SUBSCRIPT: &[u8] = b"void subscript(int i) {
  int t[128];
  assume(i == 127);
  t[i + 1] = -i;
}
";

pub const CALLED: &[u8] = b"int called(int x) {
  assume(x == 5);
  x = g(x + 122, x + 123);
  return x - 1;
}
";

pub const NESTED: &[u8] = b"int nested(int x) {
  int y = x > 0 ? x > 100 ? 127 - x : x + 27 : -x - 1;
  return y;
}
";

pub const POSITIVE: &[u8] = b"int positive(int a, int b) {
  int is = b != 0 && a / b > 0;
  return is;
}
";

pub const NEGATIVE: &[u8] = b"int negative(int a, int b) {
  int is = b >= -1 || a / b < 0;
  return is;
}
";

pub const GCD: &[u8] = b"int gcd(int a, int b) {
  while (b != 0) {
    int r = a % b;
    a = b;
    b = r;
  }
  return a;
}
";

pub const SIZE: &[u8] = b"int size(int x) {
  if (x < 0)
    x = -x;
  assert(x >= 0);
  return x;
}
";

pub const ADDED: &[u8] = b"int added(int a, int b) {
  if (b > 0 && a > 127 - b) return 127;
  if (b < 0 && a < -127 - 1 - b) return -127 - 1;
  return a + b;
}
";

pub const WIDE: &[u8] = b"int wide(int x) {
  assume(x == 1);
  int y = x > 0 || x == 300;
  y = x < 0 ? 128 : 0;
  return x == 128;
}
";

pub const LEAST: &[u8] = b"int least(int x) {
  assume(x == 0);
  return -128;
}
";

pub const BACK: &[u8] = b"int back(int a) {
  assume(a == 100);
  a = a - 100 + 100;
  return a + 100 - 100;
}
";

pub const DIGIT: &[u8] = b"int digit(int x) {
  x /= 10;
  x %= 10;
  x += 118;
  return x + 1;
}
";

pub const AREA: &[u8] = b"int area(int w) {
  assume(0 <= w && w <= 181);
  return 181 * w;
}
";

pub const MILLIS: &[u8] = b"int millis(void) {
  int x = 0;
  for (int s = 0; s <= 2147483; s++)
    x = s * 1000;
  return x;
}
";

pub const MORE: &[u8] = b"int more(int x) {
  assume(x == 1);
  return (x > 0) + 126 + !x;
}
";

pub const KEPT: &[u8] = b"void kept(int i) {
  int t[3];
  assume(i == 1);
  t[i]++;
  t[i + 1] += i;
  t[i] *= t[i];
  t[i] /= -1;
  t[i * 2] %= i;
  for (int j = 0; j < 2; t[j]--, j += 1)
    ;
}
";

pub const MIXED: &[u8] = b"int mixed(int x) {
  assume(x == 127);
  while (x + 1 > 0 && x - 1 < 300) {
    x = -x;
    break;
  }
  do
    x = 5;
  while (-x + x * 30 > 200);
  if (!(x * 26))
    x = 1;
  else if (x + 123 > 0)
    x = x + 122;
  assert(x - 100 == 27);
  assume(x + 1 > 5);
  return x % 2 + x / 2;
}
";

//! Functions of C with the verdicts on their checks, worked out by hand: each is tried against C itself, too (bench/gcc.sh).

use crate::cases::{Case, Ending, first_wrong};

const FIND: &[u8] = b"int find(int wanted, int size) {
  int a[1000];
  assume(0 <= size && size <= 1000);
  int low = 0, high = size;
  while (low < high) {
    int middle = (low + high) / 2;
    int value = a[middle];
    if (value == wanted) return middle;
    if (value < wanted) low = middle + 1; else high = middle;
  }
  return -1;
}
";

const GCD: &[u8] = b"int gcd(int a, int b) {
  assume(a > 0 && b >= 0);
  while (b != 0) {
    int rest = a % b;
    assume(0 <= rest && rest < b);
    a = b;
    b = rest;
  }
  assert(a > 0);
  return a;
}
";

const SATURATING: &[u8] = b"int saturating(int a, int b) {
  assume(0 <= a && a <= 1000 && 0 <= b && b <= 1000);
  int sum = a + b > 1000 ? 1000 : a + b;
  assert(sum <= 1000 && a <= sum);
  return sum;
}
";

const ROOT: &[u8] = b"int root(int n) {
  assume(0 <= n && n <= 1000000);
  int r = 0, odd = 1, left = n;
  while (left >= odd) {
    left -= odd;
    odd += 2;
    r++;
  }
  assert(r >= 0 && left >= 0);
  assert(odd == 2 * r + 1);
  return r;
}
";

const RING: &[u8] = b"int ring(int count) {
  int slots[16];
  int head = 0;
  for (int i = 0; i < count; i++) {
    slots[head] = i;
    head = (head + 1) % 16;
  }
  assert(0 <= head && head <= 15);
  return head;
}
";

const DIGITS: &[u8] = b"int digits(int n) {
  assume(n >= 0);
  int sum = 0;
  while (n > 0) {
    sum += n % 10;
    n /= 10;
  }
  assert(sum >= 0 && n == 0);
  return sum;
}
";

const MACHINE: &[u8] = b"int machine(int steps) {
  int state = 0;
  while (steps > 0) {
    state = state == 0 ? 1 : state == 1 ? 2 : 0;
    steps--;
  }
  assert(0 <= state && state <= 2);
  return state;
}
";

const CLAMP: &[u8] = b"int clamp(int x, int low, int high) {
  assume(low <= high);
  if (x < low) return low;
  if (x > high) return high;
  assert(low <= x && x <= high);
  return x;
}
";

const GREATEST: &[u8] = b"int greatest(int a, int b, int c) {
  int m = a;
  if (b > m) m = b;
  if (c > m) m = c;
  assert(m >= c);
  return m;
}
";

const TOTAL: &[u8] = b"int total(int count) {
  int a[100], sum = 0;
  assume(count <= 100);
  for (int i = 0; i < count; i++) sum += a[i];
  return sum;
}
";

const FILL: &[u8] = b"void fill(int n) {
  int a[8];
  int i = 0;
  do {
    a[i] = n;
    a[i + 1] = -n;
    i += 2;
  } while (i < 8);
}
";

const WEEKDAY: &[u8] = b"int weekday(int day, int shift) {
  assume(0 <= day && day <= 6 && 0 <= shift);
  day = (day + shift) % 7;
  assert(day >= 0 && day < 7);
  return day;
}
";

const MONTH: &[u8] = b"int month(int m) {
  int days[12];
  if (m < 1 || m > 12) return 0;
  return days[m - 1];
}
";

const AVERAGE: &[u8] = b"int average(int sum, int count) {
  if (count == 0) return 0;
  return sum / count;
}
";

const PERCENT: &[u8] = b"int percent(int part, int whole) {
  assume(0 <= part && part <= whole);
  return 100 * part / whole;
}
";

const BUBBLE: &[u8] = b"void bubble(int n) {
  int a[50];
  assume(0 <= n && n <= 50);
  for (int last = n - 1; last > 0; last--)
    for (int i = 0; i < last; i++)
      if (a[i] > a[i + 1]) a[i] = a[i + 1];
}
";

const REVERSE: &[u8] = b"void reverse(int n) {
  int a[50], kept;
  assume(0 <= n && n <= 50);
  for (int i = 0, j = n - 1; i < j; i++, j--) {
    kept = a[i];
    a[i] = a[j];
    a[j] = kept;
  }
}
";

const RETRY: &[u8] = b"int retry(int most) {
  int tries = 0, answer;
  do {
    answer = ask(tries);
    tries++;
  } while (answer < 0 && tries < most);
  assert(tries >= 1);
  return answer;
}
";

const WAIT: &[u8] = b"int wait(void) {
  int ticks = 100;
  for (;;) {
    if (is_ready(ticks)) return ticks;
    if (ticks == 0) reach_error();
    ticks--;
  }
}
";

const HALVES: &[u8] = b"int halves(int n) {
  assume(1 <= n && n <= 1024);
  int steps = 0;
  while (n > 1) {
    n = n / 2;
    steps++;
  }
  assert(n == 1);
  return steps;
}
";

const MEAN: &[u8] = b"int mean(int a, int b) {
  assume(0 <= a && a <= b);
  int m = a + (b - a) / 2;
  assert(a <= m && m <= b);
  return m;
}
";

const SPLIT: &[u8] = b"void split(int seconds) {
  assume(seconds >= 0);
  int hours = seconds / 3600, minutes = seconds % 3600 / 60;
  seconds %= 60;
  assert(minutes <= 59 && seconds <= 59);
  assert(hours >= 0);
}
";

const CHECKED: &[u8] = b"int checked(int n) {
  int table[10];
  int ok = n >= 0 && n < 10 && table[n] != 0;
  if (!ok) exit(1);
  return table[n];
}
";

const SCALE: &[u8] = b"int scale(int x, int by) {
  assume(by > 0);
  int up = x * by;
  int down = up / by;
  assert(down == x);
  return down;
}
";

const FUNCTIONS: &[(&str, &[u8], Ending)] = &[
    (
        "verify p",
        FIND,
        Ending::Report(b"check 0 at 7:18: index: proved\nproved 1 of 1\nimprovements: 5\n"),
    ),
    (
        "verify p",
        GCD,
        Ending::Report(
            b"check 0 at 4:18: divisor: proved\ncheck 1 at 9:3: assert: proved\nproved 2 of 2\nimprovements: 2\n",
        ),
    ),
    (
        "verify p",
        SATURATING,
        Ending::Report(b"check 0 at 4:3: assert: proved\nproved 1 of 1\nimprovements: 1\n"),
    ),
    (
        "verify p",
        ROOT,
        Ending::Open(
            b"check 0 at 9:3: assert: proved\
                \ncheck 1 at 10:3: assert: open at n = 0, r = 1/2, odd = 1, left = 0\nproved 1 of 2\nimprovements: 2\n",
        ),
    ),
    (
        "verify p",
        RING,
        Ending::Report(
            b"check 0 at 5:10: index: proved\ncheck 1 at 8:3: assert: proved\nproved 2 of 2\nimprovements: 2\n",
        ),
    ),
    (
        "verify p",
        DIGITS,
        Ending::Report(b"check 0 at 8:3: assert: proved\nproved 1 of 1\nimprovements: 2\n"),
    ),
    (
        "verify p",
        MACHINE,
        Ending::Report(b"check 0 at 7:3: assert: proved\nproved 1 of 1\nimprovements: 3\n"),
    ),
    (
        "verify p",
        CLAMP,
        Ending::Open(
            b"check 0 at 5:3: assert: open at x = -1, low = 0, high = 0\nproved 0 of 1\nimprovements: 2\n",
        ),
    ),
    (
        "verify p",
        GREATEST,
        Ending::Open(
            b"check 0 at 5:3: assert: open at a = 0, b = 0, c = 1, m = 0\nproved 0 of 1\nimprovements: 3\n",
        ),
    ),
    (
        "verify p",
        TOTAL,
        Ending::Report(b"check 0 at 4:43: index: proved\nproved 1 of 1\nimprovements: 2\n"),
    ),
    (
        "verify p",
        FILL,
        Ending::Open(
            b"check 0 at 5:6: index: proved\ncheck 1 at 6:6: index: open at n = 0, i = 7\nproved 1 of 2\nimprovements: 3\n",
        ),
    ),
    (
        "verify p",
        WEEKDAY,
        Ending::Report(b"check 0 at 4:3: assert: proved\nproved 1 of 1\nimprovements: 1\n"),
    ),
    (
        "verify p",
        MONTH,
        Ending::Report(b"check 0 at 4:14: index: proved\nproved 1 of 1\nimprovements: 1\n"),
    ),
    (
        "verify p",
        AVERAGE,
        Ending::Open(
            b"check 0 at 3:14: divisor: open at sum = 0, count = 0\nproved 0 of 1\nimprovements: 2\n",
        ),
    ),
    (
        "verify p",
        PERCENT,
        Ending::Open(
            b"check 0 at 3:21: divisor: open at part = 0, whole = 0\nproved 0 of 1\nimprovements: 1\n",
        ),
    ),
    (
        "verify p",
        BUBBLE,
        Ending::Report(
            b"check 0 at 6:12: index: proved\
                \ncheck 1 at 6:19: index: proved\
                \ncheck 2 at 6:29: index: proved\
                \ncheck 3 at 6:36: index: proved\nproved 4 of 4\nimprovements: 4\n",
        ),
    ),
    (
        "verify p --domain octagons",
        REVERSE,
        Ending::Report(
            b"check 0 at 5:13: index: proved\
                \ncheck 1 at 6:6: index: proved\
                \ncheck 2 at 6:13: index: proved\
                \ncheck 3 at 7:6: index: proved\nproved 4 of 4\nimprovements: 2\n",
        ),
    ),
    (
        "verify p",
        RETRY,
        Ending::Report(b"check 0 at 7:3: assert: proved\nproved 1 of 1\nimprovements: 2\n"),
    ),
    (
        "verify p",
        WAIT,
        Ending::Open(
            b"check 0 at 5:21: error: open at ticks = 0\nproved 0 of 1\nimprovements: 4\n",
        ),
    ),
    (
        "verify p",
        HALVES,
        Ending::Report(b"check 0 at 8:3: assert: proved\nproved 1 of 1\nimprovements: 2\n"),
    ),
    (
        "verify p",
        MEAN,
        Ending::Report(b"check 0 at 4:3: assert: proved\nproved 1 of 1\nimprovements: 1\n"),
    ),
    (
        "verify p",
        SPLIT,
        Ending::Report(
            b"check 0 at 5:3: assert: proved\ncheck 1 at 6:3: assert: proved\nproved 2 of 2\nimprovements: 1\n",
        ),
    ),
    (
        "verify p",
        CHECKED,
        Ending::Report(
            b"check 0 at 3:37: index: proved\ncheck 1 at 5:15: index: proved\nproved 2 of 2\nimprovements: 2\n",
        ),
    ),
    (
        "verify p",
        SCALE,
        Ending::Open(
            b"check 0 at 4:17: divisor: proved\
                \ncheck 1 at 5:3: assert: open at x = 1, by = 1, up = 0, down = 0\nproved 1 of 2\nimprovements: 1\n",
        ),
    ),
];

#[test]
fn functions_have_verdicts(rt: HostRuntime) {
    assert_eq!(rt; first_wrong(rt.alloc(), FUNCTIONS), None);
}

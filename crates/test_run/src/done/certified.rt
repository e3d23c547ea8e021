//! Certificates that are written, and then checked.

use crate::cases::{Case, Ending, ends, first_wrong, run_line};
use crate::done::reports::{CHOICES, PAIR, THIRDS};
use std::alloc::Global;

// The line that asks for a certificate, a program, and the end of the report of the certificate's check.
impl Case for (&str, &[u8], &[u8]) {
    fn is_right(&self, alloc: Global) -> bool {
        match run_line(alloc, self.0, self.1, b"") {
            Ok(made) => {
                made.code == 0
                    && ends(
                        alloc,
                        "check p f",
                        self.1,
                        made.out.bytes(),
                        Ending::End(self.2),
                    )
            }
            Err(_) => false,
        }
    }
}

// Three counters through three loops, of which the two inner ones do nothing. Their upper bounds at the three loops are solved together,
// in one turn of nine unknowns. At the exit one of the counters has reached its end.
const INNER_LOOPS: &[u8] = b"int main() { int x = 0, y = 0, z = 0; \
      while (x < 10 && y < 20 && z < 30) { x = x + 1; y = y + 1; z = z + 1; while (nondet()) { } while (nondet()) { } } }";

const INNER_LOOPS_REPORT: &[u8] = b"point 1: loop at line 1
  x <= 10
  -x <= 0
  y <= 20
  -y <= 0
  z <= 30
  -z <= 0
point 2: loop at line 1
  x <= 10
  -x <= -1
  y <= 20
  -y <= -1
  z <= 30
  -z <= -1
point 3: loop at line 1
  x <= 10
  -x <= -1
  y <= 20
  -y <= -1
  z <= 30
  -z <= -1
point 4: exit
  x <= 10
  -x <= 0
  y <= 20
  -y <= 0
  z <= 30
  -z <= 0
certificate: accepted
";

// The same with no guards: the nine bounds rise along rays.
const RISING: &[u8] = b"int main() { int x = 0, y = 0, z = 0; \
      while (nondet()) { x = x + 1; y = y + 1; z = z + 1; while (nondet()) { } while (nondet()) { } } }";

const RISING_REPORT: &[u8] = b"point 1: loop at line 1
  x <= +inf
  -x <= 0
  y <= +inf
  -y <= 0
  z <= +inf
  -z <= 0
point 2: loop at line 1
  x <= +inf
  -x <= -1
  y <= +inf
  -y <= -1
  z <= +inf
  -z <= -1
point 3: loop at line 1
  x <= +inf
  -x <= -1
  y <= +inf
  -y <= -1
  z <= +inf
  -z <= -1
point 4: exit
  x <= +inf
  -x <= 0
  y <= +inf
  -y <= 0
  z <= +inf
  -z <= 0
certificate: accepted
";

const CERTIFIED: &[(&str, &[u8], &[u8])] = &[
    (
        "certify p",
        THIRDS,
        b"point 2: exit\n  x <= 13/3\n  -x <= 0\ncertificate: accepted\n",
    ),
    (
        "certify p --domain octagons",
        PAIR,
        b"  x + y <= 20\n  x - y <= 0\n  -x + y <= 0\n  -x - y <= -20\ncertificate: accepted\n",
    ),
    (
        "certify p --policy first",
        CHOICES,
        b"point 2: exit\n  x <= 3\n  -x <= +inf\ncertificate: accepted\n",
    ),
    ("certify p", INNER_LOOPS, INNER_LOOPS_REPORT),
    ("certify p", RISING, RISING_REPORT),
];

// A certificate that is written is one that is accepted, with the bounds of the report.
#[test]
fn certificates_are_accepted(rt: HostRuntime) {
    assert_eq!(rt; first_wrong(rt.alloc(), CERTIFIED), None);
}

// The lines that ask for a certificate and for its check, a program, and how the check ends.
impl Case for (&str, &str, &[u8], Ending<'_>) {
    fn is_right(&self, alloc: Global) -> bool {
        match run_line(alloc, self.0, self.2, b"") {
            Ok(made) => { made.code == 0 && ends(alloc, self.1, self.2, made.out.bytes(), self.3) }
            Err(_) => false,
        }
    }
}

// Any of the integers.
const ANY: &[u8] = b"int any(int a) { return a; }";

const BY_8_BITS: Ending = Ending::Report(
    b"variables a\
        \npoint 0: entry\n  a <= +inf\n  -a <= +inf\
        \npoint 1: exit\n  a <= 127\n  -a <= 128\ncertificate: accepted\n",
);

// Its value takes any of more integers than the certificate's bounds allow.
const HIGHER: Ending = Ending::Refused(1, b"certificate refused: upper, point 1, row 0, edge 0\n");

// A program without any values is the same by all integers; its operations are within them, or not.
const UP_TO_200: &[u8] = b"int main() { int x = 0; while (x < 200) x = x + 1; }";

const AT_200: Ending = Ending::End(
    b"point 2: exit\n  x <= 200\n  -x <= -200\ncertificate: accepted\n",
);

const BY_INTEGERS: &[(&str, &str, &[u8], Ending)] = &[
    ("certify p --int 8", "check p f --int 8", ANY, BY_8_BITS),
    ("certify p --int 8", "check p f --int 16", ANY, HIGHER),
    ("certify p --int 32", "check p f", ANY, HIGHER),
    // The value to which it is traced is none of these.
    (
        "certify p --int 16",
        "check p f --int 8",
        ANY,
        Ending::Refused(1, b"certificate refused: trace, step 0, item 0\n"),
    ),
    // Nor does it grow without end.
    (
        "certify p",
        "check p f --int 32",
        ANY,
        Ending::Refused(1, b"certificate refused: ray, step 0, item 0\n"),
    ),
    ("certify p --int 8", "check p f --int 8", UP_TO_200, AT_200),
    ("certify p --int 8", "check p f --int 32", UP_TO_200, AT_200),
    ("certify p --int 16", "check p f", UP_TO_200, AT_200),
    ("certify p", "check p f --int 8", UP_TO_200, AT_200),
];

#[test]
fn certificates_are_checked_by_their_integers(rt: HostRuntime) {
    assert_eq!(rt; first_wrong(rt.alloc(), BY_INTEGERS), None);
}

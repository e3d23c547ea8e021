//! Bounds that are fractions, and bounds below 0.

use crate::cases::{Case, SOUND, ends, first_wrong};
use std::alloc::Global;

// A rational `x` is at most 10/3 before the increment.
const THIRDS: &[u8] = b"int main() {
    int x = 0;
    while (nondet()) {
        assume(3*x <= 10);
        x = x + 1;
    }
}
";

const THIRDS_NOTES: &[u8] = b"int main() {
    int x = 0;
    /*@ loop invariant 3 * (x) <= 13;
        loop invariant -x <= 0; */
    while (nondet()) {
        assume(3*x <= 10);
        x = x + 1;
    }
/*@ assert 3 * (x) <= 13; */
/*@ assert -x <= 0; */
}
";

// No whole number is 5/2, but a fraction is.
const HALF: &[u8] = b"int main() {
    int x = nondet();
    assume(2*x == 5);
    half: x = -x;
}
";

const HALF_NOTES: &[u8] = b"int main() {
    int x = nondet();
    assume(2*x == 5);
    half: /*@ assert 2 * (x) == 5; */ x = -x;
/*@ assert 2 * (x) == -5; */
}
";

// Bounds that don't meet: 7/3 above, and 3/2 below.
const BETWEEN: &[u8] = b"int main() {
    int x = nondet();
    assume(3*x <= 7 && 2*x >= 3);
    return 0;
}
";

const BETWEEN_NOTES: &[u8] = b"int main() {
    int x = nondet();
    assume(3*x <= 7 && 2*x >= 3);
    /*@ assert 3 * (x) <= 7; */
    /*@ assert 2 * (-x) <= -3; */
    return 0;
}
";

const WHOLE: &[(&str, &[u8], &[u8])] = &[
    ("p", THIRDS, THIRDS_NOTES),
    ("p", HALF, HALF_NOTES),
    ("p", BETWEEN, BETWEEN_NOTES),
];

#[test]
fn fractions_have_a_factor(rt: HostRuntime) {
    assert_eq!(rt; first_wrong(rt.alloc(), WHOLE), None);
}

// A program, its rows, and its text with annotations over them.
impl Case for (&[u8], &[u8], &[u8]) {
    fn is_right(&self, alloc: Global) -> bool {
        let files = (self.0, self.1);
        ends(
            alloc,
            "p --domain rows --rows f",
            files,
            SOUND,
            (0, self.2, b""),
        )
    }
}

const SUM: &[u8] = b"int main() {
    int x, y;
    assume(3*x + 3*y <= 13);
    at: x = 1;
}
";

const SUM_NOTES: &[u8] = b"int main() {
    int x, y;
    assume(3*x + 3*y <= 13);
    at: /*@ assert 3 * (x + y) <= 13; */ x = 1;
}
";

const OF_ROWS: &[(&[u8], &[u8], &[u8])] = &[(SUM, b"x + y\n", SUM_NOTES)];

#[test]
fn a_factor_stands_before_a_whole_row(rt: HostRuntime) {
    assert_eq!(rt; first_wrong(rt.alloc(), OF_ROWS), None);
}

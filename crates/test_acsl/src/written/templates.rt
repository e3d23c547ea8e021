//! Templates: zones, octagons, packs and rows of a file, and opposite rows whose bounds meet.

use crate::cases::first_wrong;

const PAIR: &[u8] = b"int main() {
    int x = 0, y = 0;
    while (x < 10) {
        x++;
        y++;
    }
}
";

// Zones know that `x` and `y` are the same, and so the bounds of `y`.
const PAIR_NOTES: &[u8] = b"int main() {
    int x = 0, y = 0;
    /*@ loop invariant x <= 10;
        loop invariant -x <= 0;
        loop invariant y <= 10;
        loop invariant -y <= 0;
        loop invariant x - y == 0; */
    while (x < 10) {
        x++;
        y++;
    }
/*@ assert x == 10; */
/*@ assert y == 10; */
/*@ assert x - y == 0; */
}
";

const SUM: &[u8] = b"int main() {
    int x = 0, y = 10;
    while (x < 10) {
        x++;
        y--;
    }
    return 0;
}
";

// The sum is 10, so the difference is between -10 and 10 in the loop, and 10 behind it.
const SUM_NOTES: &[u8] = b"int main() {
    int x = 0, y = 10;
    /*@ loop invariant x <= 10;
        loop invariant -x <= 0;
        loop invariant y <= 10;
        loop invariant -y <= 0;
        loop invariant x + y == 10;
        loop invariant x - y <= 10;
        loop invariant -x + y <= 10; */
    while (x < 10) {
        x++;
        y--;
    }
    /*@ assert x == 10; */
    /*@ assert y == 0; */
    /*@ assert x + y == 10; */
    /*@ assert x - y == 10; */
    return 0;
}
";

const DOMAINS: &[(&str, &[u8], &[u8])] = &[
    ("p --domain zones", PAIR, PAIR_NOTES),
    ("--domain=octagons p", SUM, SUM_NOTES),
    // the loop changes both variables
    ("--domain packs p", SUM, SUM_NOTES),
];

#[test]
fn rows_over_two_variables_are_said(rt: HostRuntime) {
    assert_eq!(rt; first_wrong(rt.alloc(), DOMAINS), None);
}

const BUDGET: &[u8] = b"int main() {
    int x = 20, y = 0;
    while (nondet()) {
        x = x - 2;
        y = y + 1;
    }
    return 0;
}
";

// The first of two opposite rows is the one that is said to be a number.
const BUDGET_NOTES: &[u8] = b"int main() {
    int x = 20, y = 0;
    /*@ loop invariant -x - 2*y == -20;
        loop invariant -y <= 0; */
    while (nondet()) {
        x = x - 2;
        y = y + 1;
    }
    /*@ assert -x - 2*y == -20; */
    /*@ assert -y <= 0; */
    return 0;
}
";

const BUDGET_ROWS: &[u8] = b"-x - 2*y\ny\n-y\nx + 2*y\n";

// A row that stands twice: each is said to be a number, and their opposite, which has met one, is left out.
const TWICE: &[u8] = b"int main() { int x = 3; }";

const TWICE_ROWS: &[u8] = b"x\nx\n-x\n2*x\n";

const TWICE_NOTES: &[u8] =
    b"int main() { int x = 3; /*@ assert x == 3; */ /*@ assert x == 3; */ /*@ assert 2*x <= 6; */ }";

const OF_ROWS: &[(&[u8], &[u8], &[u8])] = &[
    (BUDGET, BUDGET_ROWS, BUDGET_NOTES),
    (TWICE, TWICE_ROWS, TWICE_NOTES),
];

#[test]
fn rows_of_a_file_are_said(rt: HostRuntime) {
    assert_eq!(rt; first_wrong(rt.alloc(), OF_ROWS), None);
}

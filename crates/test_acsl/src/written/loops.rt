//! Loops: nested, never reached, never left, of each kind, and left in two ways.

use crate::cases::first_wrong;

const NESTED: &[u8] = b"int main() {
    int i = 0;
    while (i < 10) {
        int j = 0;
        while (j < i)
            j++;
        i++;
    }
    return 0;
}
";

// In the body `i` is at most 9, and so is `j`, which counts up to it.
const NESTED_NOTES: &[u8] = b"int main() {
    int i = 0;
    /*@ loop invariant i <= 10;
        loop invariant -i <= 0; */
    while (i < 10) {
        int j = 0;
        /*@ loop invariant i <= 9;
            loop invariant -i <= 0;
            loop invariant j <= 9;
            loop invariant -j <= 0; */
        while (j < i)
            j++;
        i++;
    }
    /*@ assert i == 10; */
    return 0;
}
";

const UNREACHED: &[u8] = b"int main() {
    int x = 1;
    if (x < 0) {
        while (x < 5)
            x++;
    }
}
";

const UNREACHED_NOTES: &[u8] = b"int main() {
    int x = 1;
    if (x < 0) {
        /*@ loop invariant \\false; */
        while (x < 5)
            x++;
    }
/*@ assert x == 1; */
}
";

// The end isn't reached.
const ENDLESS: &[u8] = b"int main() {
    int x = 7;
    for (;;)
        x = 7;
}
";

const ENDLESS_NOTES: &[u8] = b"int main() {
    int x = 7;
    /*@ loop invariant x == 7; */
    for (;;)
        x = 7;
/*@ assert \\false; */
}
";

// At the head `n` is 0, or one more with `n < 3` passed.
const TRAILING: &[u8] = b"int main() {
    int n = 0;
    do {
        n++;
    } while (n < 3);
}
";

const TRAILING_NOTES: &[u8] = b"int main() {
    int n = 0;
    /*@ loop invariant n <= 2;
        loop invariant -n <= 0; */
    do {
        n++;
    } while (n < 3);
/*@ assert n == 3; */
}
";

// The `break` leaves with 0 to 4 in `found`, the test with -1.
const SEARCH: &[u8] = b"int main() {
    int found = -1;
    for (int i = 0; i < 5; i++) {
        if (nondet()) {
            found = i;
            break;
        }
    }
    return 0;
}
";

const SEARCH_NOTES: &[u8] = b"int main() {
    int found = -1;
    /*@ loop invariant found == -1;
        loop invariant i <= 5;
        loop invariant -i <= 0; */
    for (int i = 0; i < 5; i++) {
        if (nondet()) {
            found = i;
            break;
        }
    }
    /*@ assert found <= 4; */
    /*@ assert -found <= 1; */
    return 0;
}
";

const LOOPS: &[(&str, &[u8], &[u8])] = &[
    ("p", NESTED, NESTED_NOTES),
    ("p", UNREACHED, UNREACHED_NOTES),
    ("p", ENDLESS, ENDLESS_NOTES),
    ("p", TRAILING, TRAILING_NOTES),
    ("p --policy first", SEARCH, SEARCH_NOTES),
];

#[test]
fn loops_have_invariants(rt: HostRuntime) {
    assert_eq!(rt; first_wrong(rt.alloc(), LOOPS), None);
}

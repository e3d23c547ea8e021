//! Files with several functions: the one that is asked about is annotated, and the others stay as they are.

use crate::cases::first_wrong;

// The first function, in which nothing is bounded, and the second, which returns in two places.
const TWO: &[u8] = b"#include <stdlib.h>
/* Two functions. */
static int twice(int n) {
    int r = n + n;
    return r;
}
int count(int a, int n) {
    int i = 0;
    if (n < 0)
        return 1;
    while (i < 5)
        i++;
    last: return i;
}
";

// What holds at the exit is said before the last `return` alone, since the other isn't the last item of the body.
const COUNT_NOTES: &[u8] = b"#include <stdlib.h>
/* Two functions. */
static int twice(int n) {
    int r = n + n;
    return r;
}
int count(int a, int n) {
    int i = 0;
    if (n < 0)
        return 1;
    /*@ loop invariant -n <= 0;
        loop invariant i <= 5;
        loop invariant -i <= 0; */
    while (i < 5)
        i++;
    last: /*@ assert -n <= 0; */ /*@ assert i == 5; */ /*@ assert i <= 5; */ /*@ assert -i <= 0; */ return i;
}
";

// `main` is meant where no function is named; what it calls may answer anything.
const MAIN: &[u8] = b"int inc(int x) { return x + 1; }
int main(void) { int x = 2; int y = inc(x); x = 7; return x; }
";

const MAIN_NOTES: &[u8] = b"int inc(int x) { return x + 1; }
int main(void) { int x = 2; int y = inc(x); x = 7; /*@ assert x == 7; */ return x; }
";

// An array is no variable, and nothing is said of what hides behind a division: of 9 / 2 the rows know 2 * q <= 9 and 9 - 2 * q <= 1.
const ARRAY: &[u8] = b"int f(int n) { int a[8]; int q = 9; q = q / 2; a[q] = n; }";

const ARRAY_NOTES: &[u8] =
    b"int f(int n) { int a[8]; int q = 9; q = q / 2; a[q] = n; /*@ assert 2 * (q) <= 9; */ /*@ assert -q <= -4; */ }";

// A step in what is returned leaves another state than the one before it, so the end is at the brace.
const STEPPED: &[u8] = b"int f(int x) { x = 7; return -x++; }";

const STEPPED_NOTES: &[u8] = b"int f(int x) { x = 7; return -x++; /*@ assert x == 8; */ }";

const FUNCTIONS: &[(&str, &[u8], &[u8])] = &[
    ("p --function count", TWO, COUNT_NOTES),
    ("p --function twice", TWO, TWO),
    ("p", MAIN, MAIN_NOTES),
    ("--function inc p", MAIN, MAIN),
    ("p", ARRAY, ARRAY_NOTES),
    ("p", STEPPED, STEPPED_NOTES),
];

#[test]
fn the_function_asked_about_is_annotated(rt: HostRuntime) {
    assert_eq!(rt; first_wrong(rt.alloc(), FUNCTIONS), None);
}

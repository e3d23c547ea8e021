//! Whole files: what stands outside of the function stays, constants have their values, and a name that is declared again is known again.

use crate::cases::first_wrong;

// The string is no comment and opens no brace; the macro isn't used. Both loops count by one variable `i`, and the array is none.
const FILE: &[u8] = b"#include <stdio.h>
#define SIZE 3 /* values */
#define TWICE(x) ((x) + (x))
struct point { int x; int y; };
static const char *name = \"/* {\";
int f(int a[], int n) {
    int s = 0;
    for (int i = 0; i < SIZE; i++)
        s = 1;
    for (int i = 0; i < 5; i++)
        a[i] = s;
    return s;
}
";

const FILE_NOTES: &[u8] = b"#include <stdio.h>
#define SIZE 3 /* values */
#define TWICE(x) ((x) + (x))
struct point { int x; int y; };
static const char *name = \"/* {\";
int f(int a[], int n) {
    int s = 0;
    /*@ loop invariant s <= 1;
        loop invariant -s <= 0;
        loop invariant i <= 3;
        loop invariant -i <= 0; */
    for (int i = 0; i < SIZE; i++)
        s = 1;
    /*@ loop invariant s <= 1;
        loop invariant -s <= 0;
        loop invariant i <= 5;
        loop invariant -i <= 0; */
    for (int i = 0; i < 5; i++)
        a[i] = s;
    /*@ assert s <= 1; */
    /*@ assert -s <= 0; */
    return s;
}
";

// A constant of an enumeration is one more than the one before it. A directive within the function is none of its tokens.
const CONSTANTS: &[u8] = b"enum { LOW = -2, HIGH };
int main(void) {
    int m[2][2] = {{1, 2}, {3}};
    int x = LOW;
#define UNUSED }
    while (x < HIGH)
        x++;
    m[1][0] = x;
    return 0;
}
";

const CONSTANTS_NOTES: &[u8] = b"enum { LOW = -2, HIGH };
int main(void) {
    int m[2][2] = {{1, 2}, {3}};
    int x = LOW;
#define UNUSED }
    /*@ loop invariant x <= -1;
        loop invariant -x <= 2; */
    while (x < HIGH)
        x++;
    m[1][0] = x;
    /*@ assert x == -1; */
    return 0;
}
";

const FILES: &[(&str, &[u8], &[u8])] = &[
    ("p", FILE, FILE_NOTES),
    ("p --function f", FILE, FILE_NOTES),
    ("p", CONSTANTS, CONSTANTS_NOTES),
];

#[test]
fn the_function_of_a_whole_file_is_annotated(rt: HostRuntime) {
    assert_eq!(rt; first_wrong(rt.alloc(), FILES), None);
}

//! Labels: before a loop, before a statement under a condition, at the end, and among points that have no place in the text.

use crate::cases::first_wrong;

// The assumption with two cases and the join of the `if` are points without a place.
const BEFORE_LOOP: &[u8] = b"int main() {
    int x = nondet();
    assume(x >= 0 && x <= 9);
    assume(x != 4);
    if (x > 5)
        x = 5;
    done: while (x < 7) x++;
}
";

const BEFORE_LOOP_NOTES: &[u8] = b"int main() {
    int x = nondet();
    assume(x >= 0 && x <= 9);
    assume(x != 4);
    if (x > 5)
        x = 5;
    done: /*@ assert x <= 5; */ /*@ assert -x <= 0; */ /*@ loop invariant x <= 7; loop invariant -x <= 0; */ while (x < 7) x++;
/*@ assert x == 7; */
}
";

const AT_THE_END: &[u8] = b"int main() {
    int x = 4;
    last:
}
";

const AT_THE_END_NOTES: &[u8] = b"int main() {
    int x = 4;
    last: /*@ assert x == 4; */
/*@ assert x == 4; */
}
";

// A label's comment stands behind its colon, wherever that is, and a loop's comes after it at the same place.
const TIGHT: &[u8] = b"int main() { int x = 3; a\n: b:while (x < 3) c :x++; }";

const TIGHT_NOTES: &[u8] =
    b"int main() { int x = 3; a\n: /*@ assert x == 3; */ b: /*@ assert x == 3; *//*@ loop invariant x == 3; */ while (x < 3) c : /*@ assert \\false; */x++; /*@ assert x == 3; */ }";

const BRANCHES: &[u8] = b"int main() {
    int x = nondet();
    if (x > 2)
        high: x = 2;
    else
        low: x = x - 1;
    return -1;
}
";

const BRANCHES_NOTES: &[u8] = b"int main() {
    int x = nondet();
    if (x > 2)
        high: /*@ assert -x <= -3; */ x = 2;
    else
        low: /*@ assert x <= 2; */ x = x - 1;
    /*@ assert x <= 2; */
    return -1;
}
";

const LABELS: &[(&str, &[u8], &[u8])] = &[
    ("p", BEFORE_LOOP, BEFORE_LOOP_NOTES),
    ("p", AT_THE_END, AT_THE_END_NOTES),
    ("p", TIGHT, TIGHT_NOTES),
    ("p", BRANCHES, BRANCHES_NOTES),
];

#[test]
fn labels_have_assertions(rt: HostRuntime) {
    assert_eq!(rt; first_wrong(rt.alloc(), LABELS), None);
}

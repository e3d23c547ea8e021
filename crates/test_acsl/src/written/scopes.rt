//! What is said of a variable is said where it is known.

use crate::cases::first_wrong;

const IN_A_BLOCK: &[u8] = b"int main() {
    int i = 0;
    {
        int j = 5;
        in: i = j;
    }
    out: i = i + 1;
}
";

// Behind the block `j` still has its bounds, as has `i - j`, but no name.
const IN_A_BLOCK_NOTES: &[u8] = b"int main() {
    int i = 0;
    {
        int j = 5;
        in: /*@ assert i == 0; */ /*@ assert j == 5; */ /*@ assert i - j == -5; */ i = j;
    }
    out: /*@ assert i == 5; */ i = i + 1;
/*@ assert i == 6; */
}
";

const IN_A_HEAD: &[u8] = b"int main() {
    int s = 0;
    for (int i = 0, n = 4; i < n; i++) {
        s = 7;
    }
    return 0;
}
";

// What the head of a `for` declares is known at the loop, and not behind it.
const IN_A_HEAD_NOTES: &[u8] = b"int main() {
    int s = 0;
    /*@ loop invariant s <= 7;
        loop invariant -s <= 0;
        loop invariant i <= 4;
        loop invariant -i <= 0;
        loop invariant n == 4; */
    for (int i = 0, n = 4; i < n; i++) {
        s = 7;
    }
    /*@ assert s <= 7; */
    /*@ assert -s <= 0; */
    return 0;
}
";

// A variable that is declared behind a point has no name there; one that is declared under an `if` has one in that branch.
const LATER: &[u8] = b"int main() {
    while (nondet()) ;
    int x = 2;
    if (x > 1) {
        int y = 3;
        a: ;
    } else {
        int z = 4;
        b: ;
    }
    c: ;
}
";

const LATER_NOTES: &[u8] = b"int main() {
    while (nondet()) ;
    int x = 2;
    if (x > 1) {
        int y = 3;
        a: /*@ assert x == 2; */ /*@ assert y == 3; */ ;
    } else {
        int z = 4;
        b: /*@ assert \\false; */ ;
    }
    c: /*@ assert x == 2; */ ;
/*@ assert x == 2; */
}
";

const SCOPES: &[(&str, &[u8], &[u8])] = &[
    ("p --domain zones", IN_A_BLOCK, IN_A_BLOCK_NOTES),
    ("p", IN_A_HEAD, IN_A_HEAD_NOTES),
    ("p", LATER, LATER_NOTES),
];

#[test]
fn unknown_variables_are_left_out(rt: HostRuntime) {
    assert_eq!(rt; first_wrong(rt.alloc(), SCOPES), None);
}

//! Where comments stand on their lines, and what they leave as it is.

use crate::cases::first_wrong;

const ONE_LINE: &[u8] = b"int main() { int x = 0; while (x < 2) x++; }";

const ONE_LINE_NOTES: &[u8] =
    b"int main() { int x = 0; /*@ loop invariant x <= 2; loop invariant -x <= 0; */ while (x < 2) x++; /*@ assert x == 2; */ }";

// Blanks before a place are repeated as they are, tabs too; a comment before it is no blank.
const BLANKS: &[u8] = b"int main() {
\tint x = 0;
\t while (x < 2) // while
\t\tx++;
\t/* while */ while (x < 4) x++;
\t}";

const BLANKS_NOTES: &[u8] = b"int main() {
\tint x = 0;
\t /*@ loop invariant x <= 2;
\t     loop invariant -x <= 0; */
\t while (x < 2) // while
\t\tx++;
\t/* while */ /*@ loop invariant x <= 4; loop invariant -x <= -2; */ while (x < 4) x++;
\t/*@ assert x == 4; */
\t}";

// Nothing is known of `x`, so nothing is said.
const SILENT: &[u8] = b"int main() {
    int x;
    here: while (nondet()) x = x - 1;
    return 0;
}
";

// A carriage return ends no line. The `return` stands behind another token.
const RETURNS: &[u8] = b"int main(void)\r\n{\r\n  int x = 1; return 0;\r\n}\r\n";

const RETURNS_NOTES: &[u8] =
    b"int main(void)\r\n{\r\n  int x = 1; /*@ assert x == 1; */ return 0;\r\n}\r\n";

// The brace begins the line; the text goes on behind it.
const FRONT: &[u8] = b"int main()\n{int x = -5;\n}// end";

const FRONT_NOTES: &[u8] = b"int main()\n{int x = -5;\n/*@ assert x == -5; */\n}// end";

// Behind an `assert` its condition holds.
const ASSERTED: &[u8] = b"int main() {
    int x = 0;
    while (nondet()) { assert(x < 5); x++; }
}";

const ASSERTED_NOTES: &[u8] = b"int main() {
    int x = 0;
    /*@ loop invariant x <= 5;
        loop invariant -x <= 0; */
    while (nondet()) { assert(x < 5); x++; }
/*@ assert x <= 5; */
/*@ assert -x <= 0; */
}";

// A directive keeps its line, and the one before it; a comment in it may end in a later line.
const DIRECTIVES: &[u8] = b"#include <a.h> /* {
*/ }
int main() {
    int x = 0;
# 7
    while (x < 2) x++;
#pragma while
}
#line 9";

const DIRECTIVES_NOTES: &[u8] = b"#include <a.h> /* {
*/ }
int main() {
    int x = 0;
# 7
    /*@ loop invariant x <= 2;
        loop invariant -x <= 0; */
    while (x < 2) x++;
#pragma while
/*@ assert x == 2; */
}
#line 9";

const LINES: &[(&str, &[u8], &[u8])] = &[
    ("p", ONE_LINE, ONE_LINE_NOTES),
    ("p", BLANKS, BLANKS_NOTES),
    ("p --domain octagons", SILENT, SILENT),
    ("p", RETURNS, RETURNS_NOTES),
    ("p", FRONT, FRONT_NOTES),
    ("p", ASSERTED, ASSERTED_NOTES),
    ("p", DIRECTIVES, DIRECTIVES_NOTES),
];

#[test]
fn comments_stand_on_lines(rt: HostRuntime) {
    assert_eq!(rt; first_wrong(rt.alloc(), LINES), None);
}

// What was annotated is a program, too, and is annotated once more at the same places.
const AGAIN: &[(&str, &[u8], &[u8])] = &[(
    "p",
    b"int main() { int x = 1; /*@ assert x == 1; */ }",
    b"int main() { int x = 1; /*@ assert x == 1; */ /*@ assert x == 1; */ }",
)];

#[test]
fn annotations_are_comments(rt: HostRuntime) {
    assert_eq!(rt; first_wrong(rt.alloc(), AGAIN), None);
}

//! Claims about programs: verdicts on them, and texts that are no claims.

use crate::cases::{Ending, ends, first_taken, first_wrong};
use std::alloc::Global;
use test_cases::repeated;

const COUNT: &[u8] = b"int main() { int x = 0; while (x < 100) x = x + 1; end: }";

const THIRDS: &[u8] =
    b"int main() { int x = 0; while (nondet()) { assume(3*x <= 10); x = x + 1; } end: }";

// No run comes behind the loop.
const ENDLESS: &[u8] = b"int main() { int x = 0; while (0 == 0) x = x + 1; end: }";

const TWO: &[u8] = b"int main() { int x = 0; int y; assume(y >= 0 && y <= 2); end: }";

const JUDGED: &[(&str, &[u8], &[u8], Ending)] = &[
    (
        "prove p f",
        COUNT,
        b"end: x == 100; end: x <= 99;",
        Ending::Report(
            b"claim 0 end: proved\nclaim 1 end: open at x = 100\nproved 1 of 2\nimprovements: 4\n",
        ),
    ),
    (
        "prove p f",
        THIRDS,
        b"end: x <= 4; end: 3*x <= 10;",
        Ending::Report(
            b"claim 0 end: proved\nclaim 1 end: open at x = 11/3\nproved 1 of 2\nimprovements: 3\n",
        ),
    ),
    // Where no run comes all is true.
    (
        "prove p f",
        ENDLESS,
        b"end: x == 1 && x == 2;",
        Ending::Report(b"claim 0 end: proved\nproved 1 of 1\nimprovements: 2\n"),
    ),
    (
        "prove p f --policy first",
        TWO,
        b"end: y >= 0 && y <= 2 && x == 0; end: y != 1;",
        Ending::Report(
            b"claim 0 end: proved\nclaim 1 end: open at x = 0, y = 1\nproved 1 of 2\nimprovements: 2\n",
        ),
    ),
    (
        "prove --domain zones p f",
        b"int main() { int x; int y; y = x; end: }",
        b"end: x == y;",
        Ending::Report(b"claim 0 end: proved\nproved 1 of 1\nimprovements: 2\n"),
    ),
    // By machine integers a parameter, and what a call gives, has a range.
    (
        "prove p f --int 8",
        b"int f(int a) { int b = nondet(); end: return a; }",
        b"end: a <= 127 && -128 <= b; end: a <= 126; end: b >= -127;",
        Ending::Report(
            b"claim 0 end: proved\nclaim 1 end: open at a = 127, b = 0\
                \nclaim 2 end: open at a = 0, b = -128\nproved 1 of 3\nimprovements: 2\n",
        ),
    ),
    (
        "prove p f",
        COUNT,
        b"",
        Ending::Report(b"proved 0 of 0\nimprovements: 4\n"),
    ),
    (
        "prove p f --improvements 3",
        COUNT,
        b"end: x == 100;",
        Ending::Refused(6, b"spent: 3 improvements\n"),
    ),
    // Each comparison splits in two where it is false.
    (
        "prove p f",
        COUNT,
        b"end: x == 1 || x == 2 || x == 3 || x == 4 || x == 5 || x == 6;",
        Ending::Report(b"claim 0 end: open at x = 100\nproved 0 of 1\nimprovements: 4\n"),
    ),
];

#[test]
fn claims_have_verdicts(rt: HostRuntime) {
    assert_eq!(rt; first_wrong(rt.alloc(), JUDGED), None);
}

// Behind the loop x is 100: claims of each kind of condition, with their verdicts by hand.
const KINDS: &[u8] = b"end: x;
end: !(x < 100);
end: x > 100;
end: x >= 100;
end: x < 101;
end: x != 100;
end: x == 100 && x < 100;
end: x == 100 || x < 0;
end: 2*x == 200;
end: 0 == 1;
end: 1;
";

const KINDS_REPORT: &[u8] = b"claim 0 end: proved
claim 1 end: proved
claim 2 end: open at x = 100
claim 3 end: proved
claim 4 end: proved
claim 5 end: open at x = 100
claim 6 end: open at x = 100
claim 7 end: proved
claim 8 end: proved
claim 9 end: open at x = 100
claim 10 end: proved
proved 7 of 11
improvements: 4
";

// At the first label both are 0; behind the loop x is 10, and of y no more is known than that it isn't negative.
const PAIR: &[u8] = b"int main() { int x = 0, y = 0; in: while (x < 10) { x++; y = y + 2; } out: }";

const BY_LABEL: &[(&str, &[u8], &[u8], Ending)] = &[
    ("prove p f", COUNT, KINDS, Ending::Report(KINDS_REPORT)),
    (
        "prove p f",
        PAIR,
        b"in: x == 0 && y == 0; out: y >= 0; out: y == 20; out: x == 10;",
        Ending::Start(
            b"claim 0 in: proved\nclaim 1 out: proved\nclaim 2 out: open at x = 10, y = 0\nclaim 3 out: proved\nproved 3 of 4\n",
        ),
    ),
];

#[test]
fn conditions_have_verdicts(rt: HostRuntime) {
    assert_eq!(rt; first_wrong(rt.alloc(), BY_LABEL), None);
}

// The order of what is loaded and read.
const ORDER: &[(&str, &[u8], &[u8], Ending)] = &[
    // The claims are loaded before the program is read.
    (
        "prove p q",
        b"int",
        b"",
        Ending::Refused(3, b"cannot read the claims\n"),
    ),
    // The program is read before the claims.
    (
        "prove p f",
        b"\nint",
        b"$",
        Ending::Refused(4, b"program refused: unexpected token at line 2\n"),
    ),
];

#[test]
fn the_program_is_read_before_the_claims(rt: HostRuntime) {
    assert_eq!(rt; first_wrong(rt.alloc(), ORDER), None);
}

// Texts that are no claims about the loop to 100, and why.
const REFUSED: &[(&[u8], &str)] = &[
    (b"out: x <= 4;", "unknown label at line 1"),
    (b"end: x <= 4;\n\n $", "bad byte at line 3"),
    (b"end: x <= 4\nend: x <= 5;", "unexpected token at line 2"),
    (b"end:\n y <= 4;", "unknown name at line 2"),
    (b"end: x*x <= 4;", "not affine at line 1"),
    (b"end: x <= 4 ||\n nondet();", "nondet at line 2"),
    (
        b"\nend: x == 1 || x == 2 || x == 3 || x == 4 || x == 5 || x == 6 || x == 7;",
        "cases at line 2",
    ),
];

#[test]
fn other_texts_are_no_claims(rt: HostRuntime) {
    assert_eq!(rt;
        first_taken(rt.alloc(), "prove p f", "claims", Some(COUNT), REFUSED),
        None
    );
}

// Whether this claim so many times about a program is refused so.
fn many(alloc: Global, piece: &[u8], count: usize, ending: Ending) -> bool {
    match repeated(alloc, b"", piece, count, b"") {
        Ok(claims) => ends(alloc, "prove p f", COUNT, &claims, ending),
        Err(_) => false,
    }
}

#[test]
fn too_many_claims_are_refused(rt: HostRuntime) {
    let claims = Ending::Refused(4, b"claims refused: claims at line 65\n");
    assert!(rt;
        many(
            rt.alloc(),
            b"end: x == 100;\n",
            64,
            Ending::End(b"proved 64 of 64\nimprovements: 4\n")
        )
    );
    assert!(rt; many(rt.alloc(), b"end: x == 100;\n", 65, claims));
    assert!(rt;
        many(
            rt.alloc(),
            b" ",
            65537,
            Ending::Refused(3, b"too long: the claims\n")
        )
    );
}

//! The faults of programs, and their limits.

use crate::texts::{Case, first_wrong, read};
use lang_parser::{Limit, ParseFault};
use std::alloc::Global;
use test_cases::repeated;

// Whether the text has this fault, or reads as a program where there is none.
fn has_fault(alloc: Global, text: &[u8], fault: Option<ParseFault>) -> bool {
    match read(alloc, text) {
        Some(answer) => answer.err() == fault,
        None => false,
    }
}

// A text, and its fault.
impl Case for (&[u8], ParseFault) {
    fn is_right(&self, alloc: Global) -> bool {
        has_fault(alloc, self.0, Some(self.1))
    }
}

const TEXTS: &[(&[u8], ParseFault)] = &[
    // One fault.
    (b"int main() { }", ParseFault::NoVariables),
    (b"", ParseFault::Unexpected { at: 0 }),
    (b"int main() { x = 1; }", ParseFault::UnknownName { at: 13 }),
    (
        b"int main() { int x = x; }",
        ParseFault::UnknownName { at: 21 },
    ),
    (
        b"int main() { { int x; } x = 1; }",
        ParseFault::UnknownName { at: 24 },
    ),
    (
        b"int main() { int x, x; }",
        ParseFault::NameTwice { at: 20 },
    ),
    (
        b"int main() { { int x; } int x; }",
        ParseFault::NameTwice { at: 28 },
    ),
    (
        b"int main() { int x; a: b: a: x++; }",
        ParseFault::NameTwice { at: 26 },
    ),
    (
        b"int main() { int x, y; x = x*y; }",
        ParseFault::NotAffine { at: 28 },
    ),
    (
        b"int main() { int x = 1 < 2; }",
        ParseFault::NotAffine { at: 19 },
    ),
    (
        b"int main() { int x; x += 1 < 2; }",
        ParseFault::NotAffine { at: 22 },
    ),
    (
        b"int main() { int x = (1 < 2) + 1; }",
        ParseFault::NotAffine { at: 29 },
    ),
    (
        b"int main() { int x = nondet() + 1; }",
        ParseFault::NondetHere { at: 21 },
    ),
    (
        b"int main() { int x; x -= nondet(); }",
        ParseFault::NondetHere { at: 25 },
    ),
    (
        b"int main() { int x = 9223372036854775807 + 1; }",
        ParseFault::BigNumber { at: 41 },
    ),
    (
        b"int main() { int x; x += 9223372036854775807*x; }",
        ParseFault::BigNumber { at: 22 },
    ),
    (
        b"int main() { int x; assume(x < 9223372036854775807); }",
        ParseFault::BigNumber { at: 29 },
    ),
    (
        b"int main() { int x; assume((9223372036854775807)); }",
        ParseFault::BigNumber { at: 27 },
    ),
    (
        b"int main() { int a,b,c,d,e,f,g,h,i,j,k,l,m,n,o,p,q,r,s,t,u,v,w,x,y,z,A,B,C,D,E,F,G,H,I,J,K,L,M,N,O,P,Q,R,S,T,U,V,W,X,Y,Z,a0,a1,a2,a3,a4,a5,a6,a7,a8,a9,b0,b1,b2; }",
        ParseFault::Limit {
            at: 157,
            which: Limit::Variables,
        },
    ),
    // Two faults, of which the first counts.
    (
        b"int main() { x = 1 +; }",
        ParseFault::Unexpected { at: 20 },
    ),
    (
        b"int main() { x = 1; int x, x; }",
        ParseFault::UnknownName { at: 13 },
    ),
    (
        b"int main() { int x; int x = y; }",
        ParseFault::UnknownName { at: 28 },
    ),
    (
        b"int main() { int x = (1 < 2) + y; }",
        ParseFault::UnknownName { at: 31 },
    ),
    (
        b"int main() { int x = nondet() + y; }",
        ParseFault::UnknownName { at: 32 },
    ),
    (
        b"int main() { int x = (1 < 2) + nondet(); }",
        ParseFault::NotAffine { at: 29 },
    ),
    (
        b"int main() { int x, y = x*x + (1 < 2); }",
        ParseFault::NotAffine { at: 25 },
    ),
    (
        b"int main() { int a,b,c,d,e,f,g,h,a; }",
        ParseFault::NameTwice { at: 33 },
    ),
    (
        b"int main() { int x; if (y) z = 1; }",
        ParseFault::UnknownName { at: 24 },
    ),
    (
        b"int main() { assume(y); }",
        ParseFault::UnknownName { at: 20 },
    ),
    (
        b"int main() { ; return y; }",
        ParseFault::Unexpected { at: 22 },
    ),
    // The head of a `for` has two `;`, the condition of a `do` one.
    (
        b"int main() { for (;;;) ; }",
        ParseFault::Unexpected { at: 20 },
    ),
    (
        b"int main() { do ; while (1) }",
        ParseFault::Unexpected { at: 28 },
    ),
    (
        b"int main() { for (a: ;;) ; }",
        ParseFault::Unexpected { at: 19 },
    ),
    // Jumps outside a loop.
    (
        b"int main() { int x; break; }",
        ParseFault::OutsideLoop { at: 20 },
    ),
    (
        b"int main() { int x; if (x) continue; }",
        ParseFault::OutsideLoop { at: 27 },
    ),
    (
        b"int main() { int x; while (x) break; a: continue; }",
        ParseFault::OutsideLoop { at: 40 },
    ),
    // The names of a `for` and of a body that is a block.
    (
        b"int main() { for (int i = 0; i < 4; i++) ; i = 1; }",
        ParseFault::UnknownName { at: 43 },
    ),
    (
        b"int main() { do { int x; } while (x); }",
        ParseFault::UnknownName { at: 34 },
    ),
    // A `for`: its first part, its condition, its change, its body. A `do`: its body, its condition.
    (
        b"int main() { for (y = 1; y; y++) y = 1; }",
        ParseFault::UnknownName { at: 18 },
    ),
    (
        b"int main() { int x; for (; y; z++) w = 1; }",
        ParseFault::UnknownName { at: 27 },
    ),
    (
        b"int main() { int x; for (; x; z++) w = 1; }",
        ParseFault::UnknownName { at: 30 },
    ),
    (
        b"int main() { int x; for (; x; x++) w = 1; }",
        ParseFault::UnknownName { at: 35 },
    ),
    (
        b"int main() { int x; do y = 1; while (z); }",
        ParseFault::UnknownName { at: 23 },
    ),
    (
        b"int main() { int x; do x = 1; while (z); }",
        ParseFault::UnknownName { at: 37 },
    ),
    // Conditions of assertions.
    (
        b"int main() { assert(y); }",
        ParseFault::UnknownName { at: 20 },
    ),
    (
        b"int main() { int x; assert((9223372036854775807)); }",
        ParseFault::BigNumber { at: 27 },
    ),
    (
        b"int main() { int x; __VERIFIER_assert(x + (x < 1)); }",
        ParseFault::NotAffine { at: 40 },
    ),
    (
        b"int main() { int x; assert(y); assert(x = 1); }",
        ParseFault::Unexpected { at: 40 },
    ),
    (
        b"int main() { int x; assert(y < nondet()); }",
        ParseFault::UnknownName { at: 27 },
    ),
];

#[test]
fn faults_are_found(rt: HostRuntime) {
    assert_eq!(rt; first_wrong(rt.alloc(), TEXTS), None);
}

// What stands before, a piece and how often it stands, what stands behind, and the fault of the text.
impl Case for (&[u8], &[u8], usize, &[u8], Option<ParseFault>) {
    fn is_right(&self, alloc: Global) -> bool {
        match repeated(alloc, self.0, self.1, self.2, self.3) {
            Ok(text) => has_fault(alloc, text.as_slice(), self.4),
            Err(_) => false,
        }
    }
}

const START: &[u8] = b"int main() { int x; ";

const ASKS: &[u8] = b"int main() { int x; assume(x";

const STATEMENTS: Option<ParseFault> = Some(ParseFault::Limit {
    at: 10255,
    which: Limit::Statements,
});

const LEAVES: Option<ParseFault> = Some(ParseFault::Limit {
    at: 20,
    which: Limit::Leaves,
});

const UNKNOWN: Option<ParseFault> = Some(ParseFault::UnknownName { at: 10255 });

const UNKNOWN_LATER: Option<ParseFault> = Some(ParseFault::UnknownName { at: 10259 });

const UNKNOWN_CONDITION: Option<ParseFault> = Some(ParseFault::UnknownName { at: 10262 });

const OUTSIDE: Option<ParseFault> = Some(ParseFault::OutsideLoop { at: 10255 });

// The change is the 2049th node where the `for` is the 2048th: it begins at 20 + 2046 * 5 + 8.
const CHANGE: Option<ParseFault> = Some(ParseFault::Limit {
    at: 10258,
    which: Limit::Statements,
});

// Of this `assert` the first node is the 2048th.
const SECOND_NODE: Option<ParseFault> = Some(ParseFault::Limit {
    at: 10250,
    which: Limit::Statements,
});

const UNKNOWN_ASKED: Option<ParseFault> = Some(ParseFault::UnknownName { at: 10252 });

const ASSERTS: &[u8] = b"int main() { int x; __VERIFIER_assert(x";

// How often `x++; ` stands behind the declaration of `x`, what stands behind that, and the fault of the text.
impl Case for (usize, &[u8], Option<ParseFault>) {
    fn is_right(&self, alloc: Global) -> bool {
        (START, b"x++; ".as_slice(), self.0, self.1, self.2).is_right(alloc)
    }
}

const COUNTED: &[(usize, &[u8], Option<ParseFault>)] = &[
    // The declaration is a node too: the 2049th begins at 20 + 2047 * 5.
    (2047, b"}", None),
    (2048, b"}", STATEMENTS),
    (2047, b"y = 1; }", UNKNOWN),
    (2047, b"++y; }", STATEMENTS),
    (2047, b"if (y) ; }", UNKNOWN_LATER),
    (2047, b"assume(y); }", STATEMENTS),
    (10_000, b"}", STATEMENTS),
    // Loops and jumps count where they stand; a `for` after its condition, before its change.
    (2046, b"do ; while (x); }", None),
    (2047, b"do y = 1; while (z); }", STATEMENTS),
    (2047, b"for (; y; ) ; }", UNKNOWN_CONDITION),
    (2047, b"for (;; y = 1) ; }", STATEMENTS),
    (2046, b"for (;; x = 1) ; }", CHANGE),
    (2047, b"break; }", OUTSIDE),
];

const ASSERTED: &[(usize, &[u8], Option<ParseFault>)] = &[
    // An `assert` is two nodes, both counted before its condition is read; the declaration is one.
    (2045, b"assert(x); }", None),
    (2045, b"assert(y); }", UNKNOWN_ASKED),
    (2046, b"assert(x); }", SECOND_NODE),
    (2046, b"assert(y); }", SECOND_NODE),
    (2047, b"assert(y); }", STATEMENTS),
];

const SHAPES: &[(&[u8], &[u8], usize, &[u8], Option<ParseFault>)] = &[
    (START, b"++x; ", 2048, b"}", STATEMENTS),
    (START, b"for (;;) ", 64, b"break; }", None),
    (
        START,
        b"do ",
        65,
        b"",
        Some(ParseFault::Limit {
            at: 212,
            which: Limit::Nesting,
        }),
    ),
    (
        START,
        b"{ ",
        64,
        b"x }",
        Some(ParseFault::Unexpected { at: 150 }),
    ),
    (
        START,
        b"{ ",
        65,
        b"",
        Some(ParseFault::Limit {
            at: 148,
            which: Limit::Nesting,
        }),
    ),
    (ASKS, b"||x", 63, b"); }", None),
    (ASKS, b"||x", 64, b"); }", LEAVES),
    (ASKS, b"&&x", 20_000, b"); }", LEAVES),
    (b"int main() { int x = 1", b"+ 1", 20_000, b"; }", None),
    (b"int main() { int x; x = ", b"-+", 32, b"x; }", None),
    (START, b"assert(x);     ", 255, b"}", None),
    (START, b"assert(x);     ", 255, b"x++; }", None),
    (ASSERTS, b"||x", 63, b"); }", None),
    (ASSERTS, b"||x", 64, b"); }", LEAVES),
    (ASSERTS, b"&&x", 20_000, b"); }", LEAVES),
];

#[test]
fn statements_are_counted(rt: HostRuntime) {
    assert_eq!(rt; first_wrong(rt.alloc(), COUNTED), None);
}

#[test]
fn asserts_are_counted_twice(rt: HostRuntime) {
    assert_eq!(rt; first_wrong(rt.alloc(), ASSERTED), None);
}

#[test]
fn limits_are_kept(rt: HostRuntime) {
    assert_eq!(rt; first_wrong(rt.alloc(), SHAPES), None);
}

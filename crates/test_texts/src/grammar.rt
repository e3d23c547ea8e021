//! What the grammar says of texts.

use crate::texts::{Case, first_wrong};
use lang_grammar::{Syntax, examine};
use lang_tokens::{Lexicon, lex};
use std::alloc::Global;
use test_cases::repeated;

// Whether the grammar says this of the text.
fn is_told(alloc: Global, text: &[u8], wanted: Syntax) -> bool {
    if text.len() > 65_536 {
        return false;
    }
    match lex(alloc, text, Lexicon::Own) {
        Ok(tokens) => examine(alloc, tokens.as_slice()) == Ok(wanted),
        Err(_) => false,
    }
}

// A text, and what is said of it.
impl Case for (&[u8], Syntax) {
    fn is_right(&self, alloc: Global) -> bool {
        is_told(alloc, self.0, self.1)
    }
}

const TEXTS: &[(&[u8], Syntax)] = &[
    (b"int main() { }", Syntax::Whole),
    (
        b"int main(void) { int x = 5, y; return -1; }",
        Syntax::Whole,
    ),
    (b"int main() { a: int x; b: c: }", Syntax::Whole),
    (
        b"int main() { if (1) if (2) ; else ; else ; }",
        Syntax::Whole,
    ),
    (b"int main() { while (!x) a: ++x; }", Syntax::Whole),
    (b"int main() { __VERIFIER_assume(x <= 1); }", Syntax::Whole),
    (
        b"int main() { assert(x <= 1); if (1) __VERIFIER_assert(nondet()); }",
        Syntax::Whole,
    ),
    (b"int main() { assert x; }", Syntax::Unexpected { at: 20 }),
    (b"int main() { assert(); }", Syntax::Unexpected { at: 20 }),
    (
        b"int main() { assert(x = 1); }",
        Syntax::Unexpected { at: 22 },
    ),
    (b"int main() { assert(x) }", Syntax::Unexpected { at: 23 }),
    (
        b"int main() { x = assert(1); }",
        Syntax::Unexpected { at: 17 },
    ),
    (b"int main() { int assert; }", Syntax::Unexpected { at: 17 }),
    (
        b"int main() { assume: assert(1); }",
        Syntax::Unexpected { at: 19 },
    ),
    (b"", Syntax::Unexpected { at: 0 }),
    (b"int main() {", Syntax::Unexpected { at: 12 }),
    (b"int main() { } ;", Syntax::Unexpected { at: 15 }),
    (b"int main() { x--1; }", Syntax::Unexpected { at: 16 }),
    (b"int main() { else ; }", Syntax::Unexpected { at: 13 }),
    (
        b"int main() { if (1) int x; }",
        Syntax::Unexpected { at: 20 },
    ),
    (
        b"int main() { if (1) a: int x; }",
        Syntax::Unexpected { at: 23 },
    ),
    (b"int main() { return 1; ; }", Syntax::Unexpected { at: 23 }),
    (b"int main() { return --1; }", Syntax::Unexpected { at: 20 }),
    (
        b"int main() { { return 1; } }",
        Syntax::Unexpected { at: 15 },
    ),
    (b"int main() { x = y = 1; }", Syntax::Unexpected { at: 19 }),
    (b"int main() { int x, ; }", Syntax::Unexpected { at: 20 }),
    (b"int main() { x = 1 +; }", Syntax::Unexpected { at: 20 }),
    (b"int main() { nondet(); }", Syntax::Unexpected { at: 13 }),
];

#[test]
fn texts_are_told(rt: HostRuntime) {
    assert_eq!(rt; first_wrong(rt.alloc(), TEXTS), None);
}

// What stands before, a piece and how often it stands, what stands behind, and what is said of the text.
impl Case for (&[u8], &[u8], usize, &[u8], Syntax) {
    fn is_right(&self, alloc: Global) -> bool {
        match repeated(alloc, self.0, self.1, self.2, self.3) {
            Ok(text) => is_told(alloc, text.as_slice(), self.4),
            Err(_) => false,
        }
    }
}

const VALUE: &[u8] = b"int main() { int x = ";

const START: &[u8] = b"int main() { ";

const SHAPES: &[(&[u8], &[u8], usize, &[u8], Syntax)] = &[
    // Each `(` opens a construct: the 65th stands at 21 + 64.
    (VALUE, b"(", 64, b";", Syntax::Unexpected { at: 85 }),
    (VALUE, b"(", 65, b";", Syntax::Nested { at: 85 }),
    (VALUE, b"-!", 32, b";", Syntax::Unexpected { at: 85 }),
    (VALUE, b"-!", 33, b";", Syntax::Nested { at: 85 }),
    // `if (1) {` opens two: the 33rd `if` stands at 13 + 32 * 7.
    (START, b"if(1){ ", 32, b")", Syntax::Unexpected { at: 237 }),
    (START, b"if(1){ ", 33, b")", Syntax::Nested { at: 237 }),
    // Long texts.
    (VALUE, b"1+ ", 20_000, b"1; }", Syntax::Whole),
    (START, b"x++; ", 10_000, b"}", Syntax::Whole),
    (
        b"int main() { assume(1",
        b"&&1",
        20_000,
        b"); }",
        Syntax::Whole,
    ),
    (START, b"assert(x); ", 5_000, b"}", Syntax::Whole),
];

#[test]
fn constructs_are_counted(rt: HostRuntime) {
    assert_eq!(rt; first_wrong(rt.alloc(), SHAPES), None);
}

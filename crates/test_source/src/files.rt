//! The functions of a file, and which one is meant.

use base_integers::Integers;
use base_limits::MOST_PROGRAM_BYTES;
use lang_tokens::{Foreign, Lexicon, lex};
use lang_tree::{Name, Names, Program};
use source_file::{SourceFault, names, read};
use std::alloc::Global;

// Whether these are the names, with a blank between them.
fn are(given: &Names, wanted: &str) -> bool {
    let words = wanted.split_whitespace();
    given
        .as_slice()
        .iter()
        .map(Name::bytes)
        .eq(words.map(str::as_bytes))
}

// A text, and the names of its functions or the first fault.
const NAMES: &[(&str, Result<&str, SourceFault>)] = &[
    ("", Ok("")),
    ("int f(void) { return 0; }", Ok("f")),
    ("int f() { } void g(int x) { x = 1; }", Ok("f g")),
    // The words of storage, in any order; `main` is a name.
    (
        "static inline int f() { } extern void main(void) { } inline static int g() { }",
        Ok("f main g"),
    ),
    // A prototype is no function, nor is what has another type, or two names, or no parameters.
    (
        "int f(int x); int g = 1; long h() { } int *i() { } int j k() { } struct s { int x; };",
        Ok(""),
    ),
    ("int f(int x); int f(int x) { }", Ok("f")),
    // Reserved words name no function that is asked about.
    (
        "void assume(int x) { } int nondet() { } int __VERIFIER_nondet_int(void); int f() { }",
        Ok("f"),
    ),
    // What stands in the braces is passed over.
    ("int f() { goto x; a[i][j] = b; int g() { } }", Ok("f")),
    ("int f() { goto x; int g() { } } int h() { ? }", Ok("f h")),
    (
        "int f() { } int g() { } int f(int x) { }",
        Err(SourceFault::NameTwice { at: 28 }),
    ),
    (
        "int main() { } int main() { }",
        Err(SourceFault::NameTwice { at: 19 }),
    ),
    (
        "int g() { } int f() { } int f() { } int g() { }",
        Err(SourceFault::NameTwice { at: 28 }),
    ),
    // Brackets come first, and the end of the file is behind its last byte.
    (
        "int f() { } int f() { } )",
        Err(SourceFault::Unexpected { at: 24 }),
    ),
    ("int f() { ( ] }", Err(SourceFault::Unexpected { at: 12 })),
    (
        "int f() { } int f() { ",
        Err(SourceFault::Unexpected { at: 22 }),
    ),
    ("int f()", Err(SourceFault::Unexpected { at: 7 })),
    // What else stands in a file is passed over.
    ("#include <stdio.h>\n#pragma once\nint f() { }", Ok("f")),
    (
        "struct s { int x; struct t { char c; } y; }; typedef struct s *p; union u; int f() { }",
        Ok("f"),
    ),
    (
        "char *s = \"} ) ]\"; char c = '{'; char q[] = \"\\\"//\"; int f() { }",
        Ok("f"),
    ),
    (
        "double g(double x) { return x * 1.5e-3 + .5; } int f() { }",
        Ok("f"),
    ),
    (
        "int g(int x) { return x & 0x1f | ~x << 2; } int f() { goto *x->y.z; }",
        Ok("g f"),
    ),
    (
        "extern int printf(char *, ...); unsigned long h(void); int (*p)(int) = 0; int a[] = { 1, { 2 } }; int f() { }",
        Ok("f"),
    ),
    (
        "int aaaaaaaaaaaaaaaaaaaaaaaaaaaaaaaaa() { } int f() { }",
        Ok("f"),
    ),
    (
        "enum e { A, B }; const int N = 5; static int v = 010; int f() { }",
        Ok("f"),
    ),
    // So are macros, as far as names go.
    (
        "#define f g\nint f() { }\n#define int long\nint h() { }",
        Ok("f h"),
    ),
    // A brace that stands behind no parenthesis doesn't end an item.
    (
        "struct s { int x; } f(void) { }",
        Err(SourceFault::Unexpected { at: 31 }),
    ),
    (
        "int f() { ( \")\" }",
        Err(SourceFault::Unexpected { at: 16 }),
    ),
    (
        "int f() { } ] int g() { }",
        Err(SourceFault::Unexpected { at: 12 }),
    ),
    (
        "#define X (\nint f() { } int g() { ] }",
        Err(SourceFault::Unexpected { at: 34 }),
    ),
    // A constant stands once,
    (
        "const int N = 1; const int N = 1;",
        Err(SourceFault::NameTwice { at: 27 }),
    ),
    ("enum { A, A };", Err(SourceFault::NameTwice { at: 10 })),
    (
        "enum { A }; enum { B, A }; enum { B };",
        Err(SourceFault::NameTwice { at: 22 }),
    ),
    (
        "#define N 1\nconst int N = 2;",
        Err(SourceFault::NameTwice { at: 22 }),
    ),
    (
        "const int N = 2;\n#define N 1\n",
        Err(SourceFault::NameTwice { at: 25 }),
    ),
    (
        "const int N = 2;\n#define N x\n#define N 1\n",
        Err(SourceFault::NameTwice { at: 37 }),
    ),
    (
        "enum { INT_MAX };\n#include <limits.h>\n",
        Err(SourceFault::NameTwice { at: 27 }),
    ),
    (
        "#include <limits.h>\nconst int INT_MIN = 1;",
        Err(SourceFault::NameTwice { at: 30 }),
    ),
    (
        "int f() { } enum { A, A }; int f() { }",
        Err(SourceFault::NameTwice { at: 22 }),
    ),
    (
        "enum { A }; int f() { } int f() { } enum { A };",
        Err(SourceFault::NameTwice { at: 28 }),
    ),
    (
        "int f() { } int f() { } const int N = 1; const int N = 1;",
        Err(SourceFault::NameTwice { at: 16 }),
    ),
    // unless directives alone define it.
    ("#define N 1\n#define N 2\nint f() { }", Ok("f")),
    (
        "#include <limits.h>\n#include <limits.h>\n#define INT_MAX 1\n",
        Ok(""),
    ),
    ("const int N = 2;\n#define N x\n", Ok("")),
    (
        "int f() { const int N = 1; } int g() { const int N = 2; }",
        Ok("f g"),
    ),
    // Functions and constants are apart; whichever stands first counts.
    ("const int f = 1; int f() { }", Ok("f")),
    // Brackets come first.
    ("enum { A, A }; )", Err(SourceFault::Unexpected { at: 15 })),
];

// A text, the function that is asked about, and why it is none that can be read.
const FAULTS: &[(&str, Option<&str>, SourceFault)] = &[
    ("", None, SourceFault::WhichFunction),
    ("int f(void);", None, SourceFault::WhichFunction),
    ("int f() { } int g() { }", None, SourceFault::WhichFunction),
    (
        "int f() { } int g() { }",
        Some("h"),
        SourceFault::WhichFunction,
    ),
    ("int f() { }", Some("g"), SourceFault::WhichFunction),
    ("int f() { }", Some(""), SourceFault::WhichFunction),
    (
        "void assume(int x) { }",
        Some("assume"),
        SourceFault::WhichFunction,
    ),
    (
        "int f() { } int f() { }",
        Some("g"),
        SourceFault::NameTwice { at: 16 },
    ),
    (
        "int f() { ? } )",
        Some("f"),
        SourceFault::Unexpected { at: 14 },
    ),
    // The only one, `main`, and the one that is named.
    ("int f() { ? }", None, SourceFault::Unexpected { at: 10 }),
    (
        "int f() { ? } int main() { ! }",
        None,
        SourceFault::Unexpected { at: 27 },
    ),
    (
        "int f() { ? } int main() { ! }",
        Some("f"),
        SourceFault::Unexpected { at: 10 },
    ),
    (
        "int f() { ? } int main() { ! }",
        Some("main"),
        SourceFault::Unexpected { at: 27 },
    ),
    (
        "int f() { x = 1; } int g() { + }",
        Some("g"),
        SourceFault::Unexpected { at: 29 },
    ),
];

// A text, the function that is asked about, and the first fault of its tokens, or what comes before it.
const FOREIGN: &[(&str, Option<&str>, SourceFault)] = &[
    // A token of C that is none of the language's, in the function.
    (
        "int f(int x) { x = \"a\"; }",
        None,
        SourceFault::Foreign {
            at: 19,
            foreign: Foreign::Byte,
        },
    ),
    (
        "int f(int x) { x = 'a'; }",
        None,
        SourceFault::Foreign {
            at: 19,
            foreign: Foreign::Byte,
        },
    ),
    (
        "int f(int x) { x = x & 1; }",
        None,
        SourceFault::Foreign {
            at: 21,
            foreign: Foreign::Byte,
        },
    ),
    (
        "int f(int x, ...) { }",
        None,
        SourceFault::Foreign {
            at: 13,
            foreign: Foreign::Byte,
        },
    ),
    (
        "int f(int x) { x = 1.5; }",
        None,
        SourceFault::Foreign {
            at: 19,
            foreign: Foreign::Number,
        },
    ),
    (
        "int f(int x) { x = 0x1f; }",
        None,
        SourceFault::Foreign {
            at: 19,
            foreign: Foreign::Number,
        },
    ),
    (
        "int f(int x) { x = 010; }",
        None,
        SourceFault::Foreign {
            at: 19,
            foreign: Foreign::Number,
        },
    ),
    (
        "int f(int x) { x = 5u; }",
        None,
        SourceFault::Foreign {
            at: 19,
            foreign: Foreign::Number,
        },
    ),
    (
        "int f(int x) { x = 9223372036854775808; }",
        None,
        SourceFault::Foreign {
            at: 19,
            foreign: Foreign::LongNumber,
        },
    ),
    (
        "int f(int x) { aaaaaaaaaaaaaaaaaaaaaaaaaaaaaaaaa = 1; }",
        None,
        SourceFault::Foreign {
            at: 15,
            foreign: Foreign::LongName,
        },
    ),
    // It comes before the grammar's faults, and the first one counts.
    (
        "int f(int x) { ? = 1.5 & 1; }",
        None,
        SourceFault::Foreign {
            at: 19,
            foreign: Foreign::Number,
        },
    ),
    (
        "int g() { 1.5; } int f() { ~ }",
        Some("f"),
        SourceFault::Foreign {
            at: 27,
            foreign: Foreign::Byte,
        },
    ),
    // A macro, whatever it would be there.
    (
        "#define x y\nint f(int x) { x = 1; }",
        None,
        SourceFault::Macro { at: 22 },
    ),
    (
        "int f(int x) { int y = 7;\n#define x y\n assert(x == 7); }",
        None,
        SourceFault::Macro { at: 46 },
    ),
    (
        "#define int long\nint f(int x) { x = 1; }",
        None,
        SourceFault::Macro { at: 17 },
    ),
    (
        "#define f g\nint f(int x) { x = 1; }",
        None,
        SourceFault::Macro { at: 16 },
    ),
    (
        "#define g(x) 5\nint f(int x) { x = g(x); }",
        None,
        SourceFault::Macro { at: 34 },
    ),
    (
        "#define N 5 + 1\nint f(int x) { x = N; }",
        None,
        SourceFault::Macro { at: 35 },
    ),
    (
        "const int N = 5;\n#define N 5 + 1\nint f(int x) { x = N; }",
        None,
        SourceFault::Macro { at: 52 },
    ),
    (
        "#define x y\nint f(int x) { x = 1.5; }",
        None,
        SourceFault::Macro { at: 22 },
    ),
    (
        "#define x y\nint f(int z) { z = 1.5; x = 1; }",
        None,
        SourceFault::Foreign {
            at: 31,
            foreign: Foreign::Number,
        },
    ),
    // Names that stand twice and the choice of a function come before.
    (
        "#define x y\nint f(int x) { } int f(int x) { }",
        None,
        SourceFault::NameTwice { at: 33 },
    ),
    (
        "#define x y\nint f(int x) { } int g() { }",
        None,
        SourceFault::WhichFunction,
    ),
];

// A text with a function that is read, and which is asked about.
const READ: &[(&str, Option<&str>)] = &[
    (
        "int g() { return 1.5 & ~0x1f; } int f(int x) { x = 1; }",
        Some("f"),
    ),
    (
        "#define y z\nint f(int x) { x = 1; } int g(int y) { }",
        Some("f"),
    ),
    ("#define N 5\nint f(int x) { x = N; }", None),
    ("int f(int x) {\n#define N (-5)\n x = N; }", None),
    ("#define N x\n#define N 3\nint f(int y) { y = N; }", None),
    (
        "const int N = 2; int f(int x) { int a[N]; a[1] = N; x = -N; }",
        None,
    ),
    ("enum { A, B }; int f(int x) { x = A + B; }", None),
    ("#include <limits.h>\nint f(int x) { x = INT_MAX; }", None),
    ("int f() { { int x; } int x; }", None),
    // A name counts once among the variables, however often it is declared, and arrays don't count.
    (
        "int f(int x) { { int a; } { int a; } { int a; } { int a; } { int a; } { int a; } { int a; } { int a; } { int a; } \
         { int a; } { int a; } { int a; } { int a; } { int a = x; } }",
        None,
    ),
    (
        "int f(const int *p, int a[], const int b[2][3], const int x) { int c[2][2] = { { x, x }, { x } }, d[1], y; \
         const int e[2] = { x, }, z = b[0][x], w; for (const int i = 0, j[2]; ; ) { a[x] = p[y] + c[i][w] + d[e[z]] + j[0]; } }",
        None,
    ),
];

// The names of the functions of a text, which has tokens.
fn names_of(alloc: Global, text: &[u8]) -> Result<Names, SourceFault> {
    if text.len() > MOST_PROGRAM_BYTES {
        return Err(SourceFault::NoMemory);
    }
    match lex(alloc, text, Lexicon::C) {
        Ok(tokens) => names(alloc, &tokens, text),
        Err(_) => Err(SourceFault::NoMemory),
    }
}

// The function of a text that is asked about; the text has tokens.
pub(crate) fn read_of(
    alloc: Global,
    text: &[u8],
    asked: Option<&[u8]>,
    integers: Integers,
) -> Result<Program, SourceFault> {
    if text.len() > MOST_PROGRAM_BYTES {
        return Err(SourceFault::NoMemory);
    }
    match lex(alloc, text, Lexicon::C) {
        Ok(tokens) => read(alloc, &tokens, text, asked, integers),
        Err(_) => Err(SourceFault::NoMemory),
    }
}

#[test]
fn functions_are_named(rt: HostRuntime) {
    for (text, wanted) in NAMES {
        let given = names_of(rt.alloc(), text.as_bytes());
        match (&given, wanted) {
            (Ok(names), Ok(wanted)) => assert!(rt; are(names, wanted), "{text}"),
            (Err(fault), Err(wanted)) => assert_eq!(rt; *fault, *wanted, "{text}"),
            _ => assert!(rt; false, "{text}"),
        }
    }
}

#[test]
fn one_function_is_meant(rt: HostRuntime) {
    for (text, asked, wanted) in FAULTS.iter().chain(FOREIGN) {
        let given = read_of(
            rt.alloc(),
            text.as_bytes(),
            asked.map(str::as_bytes),
            Integers::Mathematical,
        );
        match &given {
            Ok(_) => assert!(rt; false, "{text}"),
            Err(fault) => assert_eq!(rt; *fault, *wanted, "{text}"),
        }
    }
}

#[test]
fn functions_are_read(rt: HostRuntime) {
    for (text, asked) in READ {
        let given = read_of(
            rt.alloc(),
            text.as_bytes(),
            asked.map(str::as_bytes),
            Integers::Mathematical,
        );
        assert!(rt; given.is_ok(), "{text}");
    }
}

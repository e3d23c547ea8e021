//! What the directives and the items of a file define.

use base_integers::{Integers, Width};
use base_limits::MOST_PROGRAM_BYTES;
use lang_tokens::{Lexicon, lex};
use source_file::defined;
use source_tokens::Definition;
use std::alloc::{AllocError, Global};

// A text, and what it defines in order: each name, how many bytes stand before it, and the number that it stands for, or `?`.
const DEFINED: &[(&str, &str)] = &[
    // A number, with a minus or not, in one pair of parentheses or not.
    ("#define N 5\n", "N@8=5"),
    ("#define N -5\n", "N@8=-5"),
    ("#define N (5)\n", "N@8=5"),
    ("#define N ( - 5 )\n", "N@8=-5"),
    ("#\tdefine  N /* many */ 5 // of them\n", "N@10=5"),
    ("#define N/**/(5)\n", "N@8=5"),
    ("#define N-5\n", "N@8=-5"),
    ("#define N 9223372036854775807", "N@8=9223372036854775807"),
    ("#define N -9223372036854775807", "N@8=-9223372036854775807"),
    // All else is a macro.
    ("#define N\n", "N@8=?"),
    ("#define N 5 6\n", "N@8=?"),
    ("#define N x\n", "N@8=?"),
    ("#define N ((5))\n", "N@8=?"),
    ("#define N - -5\n", "N@8=?"),
    ("#define N +5\n", "N@8=?"),
    ("#define N (5\n", "N@8=?"),
    ("#define N 5)\n", "N@8=?"),
    ("#define N 1.5\n", "N@8=?"),
    ("#define N 010\n", "N@8=?"),
    ("#define N 5u\n", "N@8=?"),
    ("#define N 0x5\n", "N@8=?"),
    ("#define N 9223372036854775808\n", "N@8=?"),
    ("#define N \"5\"\n", "N@8=?"),
    ("#define N '5'\n", "N@8=?"),
    ("#define N 5;\n", "N@8=?"),
    ("#define N -\n", "N@8=?"),
    ("#define N(5)\n", "N@8=?"),
    ("#define N(x) 5\n", "N@8=?"),
    ("#define N() 5\n", "N@8=?"),
    // So is a reserved word, whatever it stands for.
    ("#define int long\n#define main 5\n", "int@8=? main@25=?"),
    // A name that is too long stands in no function.
    ("#define aaaaaaaaaaaaaaaaaaaaaaaaaaaaaaaaa 5\n", ""),
    // Each definition stands at its place.
    (
        "#define N 1\n#define N 2\n#define N x\n",
        "N@8=1 N@20=2 N@32=?",
    ),
    ("#pragma define N 5\n#line 5\n# 7\n", ""),
    // Items.
    ("const int N = 5;", "N@10=5"),
    ("static const int N = -5;", "N@17=-5"),
    ("int const N = 5;", ""),
    ("const int N;", ""),
    ("const int N = 5 + 1;", ""),
    ("const int N = (5);", ""),
    ("const int N = +5;", ""),
    ("const int N = 5, M = 6;", ""),
    ("const int *N = 5;", ""),
    ("extern const int N = 5;", ""),
    ("const static int N = 5;", ""),
    ("const unsigned N = 5;", ""),
    ("const int N = 5u;", ""),
    ("const int N[1] = { 5 };", ""),
    ("int N = 5;", ""),
    ("enum { A, B, C };", "A@7=0 B@10=1 C@13=2"),
    (
        "enum e { A = 3, B, C = -1, D, };",
        "A@9=3 B@16=4 C@19=-1 D@27=0",
    ),
    ("enum { A };", "A@7=0"),
    ("enum { A, };", "A@7=0"),
    // None is above the greatest number.
    (
        "enum { A = 9223372036854775806, B };",
        "A@7=9223372036854775806 B@32=9223372036854775807",
    ),
    ("enum { A = 9223372036854775806, B, C };", ""),
    (
        "enum { A = 9223372036854775807, B = 1, C };",
        "A@7=9223372036854775807 B@32=1 C@39=2",
    ),
    ("enum { };", ""),
    ("enum { , };", ""),
    ("enum { A,, B };", ""),
    ("enum { , A };", ""),
    ("enum { A B };", ""),
    ("enum { A = };", ""),
    ("enum { A = 1 + 1 };", ""),
    ("enum { A = (1) };", ""),
    ("enum { A = B };", ""),
    ("enum { A = - - 1 };", ""),
    ("enum { A } x;", ""),
    ("enum e;", ""),
    ("enum e { A } f(void);", ""),
    ("typedef enum { A } e;", ""),
    ("static enum { A };", ""),
    ("struct { int A; };", ""),
    ("int f() { enum { A }; const int N = 5; }", ""),
    // A constant's value is a number, and no item with a macro makes one.
    (
        "#define X 1\nconst int N = X;\nconst int M = 2;",
        "X@8=1 M@39=2",
    ),
    ("#define X y\nenum { A, X };\nenum { B };", "X@8=? B@34=0"),
    ("#define const\nconst int N = 1;", "const@8=?"),
    ("enum { A };\n#define A x\nconst int A = 1;", "A@7=0 A@20=?"),
    // Places are those of the text.
    ("enum { A,\n#define C x\nB };", "A@7=0 C@18=? B@22=1"),
    ("enum { A,\n#define B x\nB };", "B@18=?"),
    (
        "#define A x\n#define A 3\nconst int B = 4;",
        "A@8=? A@20=3 B@34=4",
    ),
    // A file that is included defines nothing, unless it is this one.
    (
        "#include <stdio.h>\n#include \"limits.h\"\n#include < limits.h>\n#include <limits.h> x\n#include <limits .h>\n#include <sys/limits.h>\n",
        "",
    ),
];

// What the integers make of the file that has their limits.
const LIMITS: &[(Integers, &str)] = &[
    (
        Integers::Mathematical,
        "INT_MAX@10=2147483647 INT_MIN@10=-2147483648",
    ),
    (
        Integers::Machine(Width::Bits32),
        "INT_MAX@10=2147483647 INT_MIN@10=-2147483648",
    ),
    (
        Integers::Machine(Width::Bits16),
        "INT_MAX@10=32767 INT_MIN@10=-32768",
    ),
    (
        Integers::Machine(Width::Bits8),
        "INT_MAX@10=127 INT_MIN@10=-128",
    ),
];

fn write(alloc: Global, text: &mut String, definition: &Definition) -> Result<(), AllocError> {
    for byte in definition.name.bytes() {
        text.push(*byte as char)?;
    }
    let at = definition.at;
    text.push_str(format!(in alloc; "@{at}=")?.as_str())?;
    match definition.value {
        Some(value) => text.push_str(format!(in alloc; "{value}")?.as_str()),
        None => text.push_str("?"),
    }
}

// What is defined, as a text.
fn listed(alloc: Global, definitions: &[Definition]) -> Result<String, AllocError> {
    let mut all = String::new(alloc);
    for definition in definitions {
        if !all.is_empty() {
            all.push_str(" ")?;
        }
        write(alloc, &mut all, definition)?;
    }
    Ok(all)
}

// A text with a function behind it, since what a file defines is asked of one of its functions.
fn with_function(alloc: Global, text: &str) -> Result<String, AllocError> {
    let mut file = String::new(alloc);
    file.push_str(text)?;
    file.push_str("\nvoid asked() { }")?;
    Ok(file)
}

fn defines(alloc: Global, text: &str, integers: Integers, wanted: &str) -> bool {
    let Ok(file) = with_function(alloc, text) else {
        return false;
    };
    let text = file.as_bytes();
    if text.len() > MOST_PROGRAM_BYTES {
        return false;
    }
    let Ok(tokens) = lex(alloc, text, Lexicon::C) else {
        return false;
    };
    let Ok(chosen) = defined(alloc, &tokens, text, Some(b"asked"), integers) else {
        return false;
    };
    match listed(alloc, &chosen.definitions) {
        Ok(all) => all.as_str() == wanted,
        Err(_) => false,
    }
}

#[test]
fn files_define_constants(rt: HostRuntime) {
    for (text, wanted) in DEFINED {
        assert!(rt;
            defines(rt.alloc(), text, Integers::Mathematical, wanted),
            "{text}"
        );
    }
}

#[test]
fn limits_are_those_of_the_integers(rt: HostRuntime) {
    for (integers, wanted) in LIMITS {
        assert!(rt;
            defines(rt.alloc(), "# include <limits.h>", *integers, wanted),
            "{wanted}"
        );
    }
}

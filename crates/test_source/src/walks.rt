//! The first faults of functions that keep to the grammar.

use crate::files::read_of;
use base_integers::Integers;
use source_file::SourceFault;
use source_meaning::{FunctionFault, Limit};

// A text with one function, and the first fault of its walk.
const WALKS: &[(&str, FunctionFault)] = &[
    ("int f() { }", FunctionFault::NoVariables),
    ("int f() { int a[2]; }", FunctionFault::NoVariables),
    ("int f() { x = 1; }", FunctionFault::UnknownName { at: 10 }),
    // A name is known behind its declarator, a value included, up to the end of its block.
    (
        "int f() { int x = x; }",
        FunctionFault::UnknownName { at: 18 },
    ),
    (
        "int f() { { int x; } x = 1; }",
        FunctionFault::UnknownName { at: 21 },
    ),
    (
        "int f() { for (int x; 1; ) ; x = 1; }",
        FunctionFault::UnknownName { at: 29 },
    ),
    // While it is known it stands once.
    (
        "int f(int x) { { int x; } }",
        FunctionFault::NameTwice { at: 21 },
    ),
    (
        "int f(int x) { x: ; x: ; }",
        FunctionFault::NameTwice { at: 20 },
    ),
    ("int f(int x) { x(); }", FunctionFault::WrongKind { at: 15 }),
    (
        "int f(int x) { x[0] = 1; }",
        FunctionFault::WrongKind { at: 15 },
    ),
    (
        "int f(int x) { int a[1]; x = a; }",
        FunctionFault::WrongKind { at: 29 },
    ),
    (
        "int f(int x) { int a[0]; }",
        FunctionFault::Array { at: 21 },
    ),
    (
        "int f(int x) { if (x) break; }",
        FunctionFault::OutsideLoop { at: 22 },
    ),
    // A place's name before its index, the index before the right side.
    (
        "int f(int x) { a[b] = c; }",
        FunctionFault::UnknownName { at: 15 },
    ),
    (
        "int f(int x) { int a[1]; a[b] = c; }",
        FunctionFault::UnknownName { at: 27 },
    ),
    // The condition of a `do` behind its body; a `for` in the order of its text, but the body last.
    (
        "int f(int x) { do a = 1; while (b); }",
        FunctionFault::UnknownName { at: 18 },
    ),
    (
        "int f(int x) { for (; a; b = 1) c = 1; }",
        FunctionFault::UnknownName { at: 22 },
    ),
    (
        "int f(int x) { for (; x; b = 1) c = 1; }",
        FunctionFault::UnknownName { at: 25 },
    ),
    (
        "int f(int x) { x = 9223372036854775807 + 1; }",
        FunctionFault::BigNumber { at: 39 },
    ),
    (
        "int f() { int a, b, c, d, e, g, h, i, j, k, l, m, n, o, p, q, r, s, t, u, v, w, x, y, z, A, B, C, D, E, F, G, H, I, J, K, L, M, N, O, P, Q, R, S, T, U, V, W, X, Y, Z, a0, a1, a2, a3, a4, a5, a6, a7, a8, a9, b0, b1, b2, b3; }",
        FunctionFault::Limit {
            at: 219,
            which: Limit::Variables,
        },
    ),
    (
        "int f(int x) { int a[2] = { a[0] }; }",
        FunctionFault::UnknownName { at: 28 },
    ),
    (
        "int f(int x) { int a[y] = { z }; }",
        FunctionFault::UnknownName { at: 21 },
    ),
    (
        "int f(int x) { int a[2][3] = { { 1, x }, z }; }",
        FunctionFault::UnknownName { at: 41 },
    ),
    (
        "int f(int x) { int a[x]; }",
        FunctionFault::WrongKind { at: 21 },
    ),
    (
        "int f(int x) { { int a[2]; } int a; }",
        FunctionFault::NameTwice { at: 33 },
    ),
    (
        "int f(int x) { { int a; } int a[2]; }",
        FunctionFault::NameTwice { at: 30 },
    ),
    (
        "int f(int x) { { int a[2]; } int a[3][3]; a[1] = 0; }",
        FunctionFault::WrongKind { at: 42 },
    ),
    (
        "int f(int x) { int a[3][0]; }",
        FunctionFault::Array { at: 24 },
    ),
    ("int f(int a[2][0]) { }", FunctionFault::Array { at: 15 }),
    (
        "int f(int x, int *x) { }",
        FunctionFault::NameTwice { at: 18 },
    ),
    (
        "int f(int x, const int a[], int x[2]) { }",
        FunctionFault::NameTwice { at: 32 },
    ),
    (
        "int f(int *a, int x) { a = 1; }",
        FunctionFault::WrongKind { at: 23 },
    ),
    (
        "#define N 3\nint f(int x) { N = 1; }",
        FunctionFault::WrongKind { at: 27 },
    ),
    (
        "#define N 3\nint f(int x) { N(); }",
        FunctionFault::WrongKind { at: 27 },
    ),
    (
        "#define N 3\nint f(int x) { N[1] = 2; }",
        FunctionFault::WrongKind { at: 27 },
    ),
    (
        "#define N 3\nint f(int N) { }",
        FunctionFault::NameTwice { at: 22 },
    ),
    (
        "#define N 3\nint f(int x) { int N[2]; }",
        FunctionFault::NameTwice { at: 31 },
    ),
    (
        "#define N 0\nint f(int x) { int a[N]; }",
        FunctionFault::Array { at: 33 },
    ),
    (
        "#define N 3\nint f(int x) { int a[N] = { a }; }",
        FunctionFault::UnknownName { at: 40 },
    ),
    (
        "int f(int x) { int a[2]; x = a[0][y]; }",
        FunctionFault::WrongKind { at: 29 },
    ),
    (
        "int f(int x) { int a[2][2]; a[y][z] = 1; }",
        FunctionFault::UnknownName { at: 30 },
    ),
    (
        "int f(int x) { int a[2][2]; a[x][z] += 1; }",
        FunctionFault::UnknownName { at: 33 },
    ),
    // The variable of a step occurs nowhere else around it.
    (
        "int f(int x) { x = x++ + 1; }",
        FunctionFault::SideEffect { at: 20 },
    ),
    (
        "int f(int x) { int y; y = --x + y + g(z, x); }",
        FunctionFault::SideEffect { at: 26 },
    ),
    (
        "int f(int x, int a[3]) { a[x--] += x; }",
        FunctionFault::SideEffect { at: 28 },
    ),
    (
        "int f(int x) { { int x = 1 - x++; } }",
        FunctionFault::SideEffect { at: 30 },
    ),
    (
        "int f(int x) { int a[2] = { x, { ++x } }; }",
        FunctionFault::SideEffect { at: 33 },
    ),
    (
        "int f(int x) { g(h(x++), x); }",
        FunctionFault::SideEffect { at: 20 },
    ),
    (
        "int f(int x) { return x-- - x; }",
        FunctionFault::SideEffect { at: 23 },
    ),
    (
        "int f(int x) { while (x++ < x) ; }",
        FunctionFault::SideEffect { at: 23 },
    ),
    // C comes to it.
    (
        "int f(int x, int y) { assume(y && x++); }",
        FunctionFault::SideEffect { at: 35 },
    ),
    (
        "int f(int x, int y) { y = y || (1 < --x); }",
        FunctionFault::SideEffect { at: 36 },
    ),
    (
        "int f(int x, int y) { y = y ? x++ : 0; }",
        FunctionFault::SideEffect { at: 31 },
    ),
    (
        "int f(int x, int y) { y = y ? 0 : g(++x); }",
        FunctionFault::SideEffect { at: 36 },
    ),
    // A name's own faults come first.
    (
        "int f(int x) { x = z++ + x; }",
        FunctionFault::UnknownName { at: 19 },
    ),
    (
        "int f(int x, int a[3]) { x = --a; }",
        FunctionFault::WrongKind { at: 31 },
    ),
    (
        "#define N 3\nint f(int x) { x = x + N++; }",
        FunctionFault::WrongKind { at: 35 },
    ),
];

#[test]
fn walks_have_a_first_fault(rt: HostRuntime) {
    for (text, wanted) in WALKS {
        let given = read_of(rt.alloc(), text.as_bytes(), None, Integers::Mathematical);
        match &given {
            Ok(_) => assert!(rt; false, "{text}"),
            Err(fault) => assert_eq!(rt; *fault, SourceFault::Function(*wanted), "{text}"),
        }
    }
}

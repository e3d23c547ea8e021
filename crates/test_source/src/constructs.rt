//! How many constructs the grammar of a function lets be open.

use crate::grammar::{Case, first_wrong};
use crate::words::add_words;
use source_grammar::{Piece, Syntax, examine};
use std::alloc::{AllocError, Global};

// What stands before, a piece so many times, what stands in the middle, what ends a piece as often, and what stands behind.
type Nest = (
    &'static str,
    &'static str,
    usize,
    &'static str,
    &'static str,
    &'static str,
    Syntax,
);

// The words of such a text.
fn nest(alloc: Global, row: &Nest) -> Result<Vec<Piece>, AllocError> {
    let mut pieces = Vec::new(alloc);
    let mut at = add_words(&mut pieces, 0, row.0)?;
    for _ in 0..row.2 {
        at = add_words(&mut pieces, at, row.1)?;
    }
    at = add_words(&mut pieces, at, row.3)?;
    for _ in 0..row.2 {
        at = add_words(&mut pieces, at, row.4)?;
    }
    add_words(&mut pieces, at, row.5)?;
    Ok(pieces)
}

impl Case for Nest {
    fn is_right(&self, alloc: Global) -> bool {
        match nest(alloc, self) {
            Ok(pieces) => examine(alloc, pieces.as_slice()) == Ok(self.6),
            Err(_) => false,
        }
    }
}

const NESTS: &[Nest] = &[
    (
        "int f ( ) { x =",
        "1 ? 1 :",
        64,
        "1 ;",
        "",
        "}",
        Syntax::Whole,
    ),
    (
        "int f ( ) { x =",
        "1 ? 1 :",
        65,
        "1 ;",
        "",
        "}",
        Syntax::Nested { at: 264 },
    ),
    (
        "int f ( ) { x =",
        "1 ?",
        64,
        "1",
        ": 1",
        "; }",
        Syntax::Whole,
    ),
    (
        "int f ( ) { x =",
        "1 ?",
        65,
        "1",
        ": 1",
        "; }",
        Syntax::Nested { at: 136 },
    ),
    ("int f ( ) { x =", "f (", 64, "1", ")", "; }", Syntax::Whole),
    (
        "int f ( ) { x =",
        "f (",
        65,
        "1",
        ")",
        "; }",
        Syntax::Nested { at: 136 },
    ),
    ("int f ( ) { x =", "a [", 64, "1", "]", "; }", Syntax::Whole),
    (
        "int f ( ) { x =",
        "a [",
        65,
        "1",
        "]",
        "; }",
        Syntax::Nested { at: 136 },
    ),
    ("int f ( ) { x =", "-", 64, "1", "", "; }", Syntax::Whole),
    (
        "int f ( ) { x =",
        "-",
        65,
        "1",
        "",
        "; }",
        Syntax::Nested { at: 71 },
    ),
    ("int f ( ) { x =", "(", 64, "1", ")", "; }", Syntax::Whole),
    (
        "int f ( ) { x =",
        "(",
        65,
        "1",
        ")",
        "; }",
        Syntax::Nested { at: 71 },
    ),
    (
        "int f ( ) {",
        "{",
        64,
        "int a [ 1 ] ; x = nondet ( ) ; assume ( x ) ;",
        "}",
        "}",
        Syntax::Whole,
    ),
    (
        "int f ( ) {",
        "{",
        65,
        "",
        "}",
        "}",
        Syntax::Nested { at: 69 },
    ),
    (
        "int f ( ) {",
        "if ( 1 )",
        64,
        ";",
        "else ;",
        "}",
        Syntax::Whole,
    ),
    (
        "int f ( ) {",
        "if ( 1 )",
        65,
        ";",
        "",
        "}",
        Syntax::Nested { at: 261 },
    ),
    (
        "int f ( ) {",
        "do",
        64,
        ";",
        "while ( 1 ) ;",
        "}",
        Syntax::Whole,
    ),
    (
        "int f ( ) {",
        "do",
        65,
        ";",
        "while ( 1 ) ;",
        "}",
        Syntax::Nested { at: 69 },
    ),
    (
        "int f ( ) {",
        "for ( ; ; )",
        64,
        ";",
        "",
        "}",
        Syntax::Whole,
    ),
    (
        "int f ( ) {",
        "for ( ; ; )",
        65,
        ";",
        "",
        "}",
        Syntax::Nested { at: 325 },
    ),
    (
        "int f ( ) {",
        "while ( 1 )",
        65,
        ";",
        "",
        "}",
        Syntax::Nested { at: 261 },
    ),
    (
        "int f ( ) {",
        "{",
        63,
        "f ( ) ; a [ 1 ] ++ ; -- a [ 1 ] ;",
        "}",
        "}",
        Syntax::Whole,
    ),
    (
        "int f ( ) {",
        "{",
        64,
        "f ( ) ;",
        "}",
        "}",
        Syntax::Nested { at: 70 },
    ),
    (
        "int f ( ) {",
        "{",
        64,
        "a [ 1 ] = 1 ;",
        "}",
        "}",
        Syntax::Nested { at: 70 },
    ),
    (
        "int f ( ) {",
        "{",
        64,
        "++ a [ 1 ] ;",
        "}",
        "}",
        Syntax::Nested { at: 71 },
    ),
    (
        "int f ( ) {",
        "{",
        63,
        "int x = 1 ? 1 : 1 , y = 1 ? 1 : 1 ;",
        "}",
        "}",
        Syntax::Whole,
    ),
    (
        "int f ( ) { int a [ 1 ] =",
        "{",
        64,
        "1",
        "}",
        "; }",
        Syntax::Whole,
    ),
    (
        "int f ( ) { int a [ 1 ] =",
        "{",
        65,
        "1",
        "}",
        "; }",
        Syntax::Nested { at: 75 },
    ),
    (
        "int f ( ) {",
        "{",
        63,
        "int a [ 1 ] [ 1 ] = { 1 , 1 } , b [ 1 ] = { 1 } ; a [ 1 ] [ 1 ] = a [ 1 ] [ 1 ] ;",
        "}",
        "}",
        Syntax::Whole,
    ),
    (
        "int f ( ) {",
        "{",
        64,
        "int a [ 1 ] [ 1 ] ; x = y ++ ; int b [ 1 ] = { } ;",
        "}",
        "}",
        Syntax::Nested { at: 89 },
    ),
    (
        "int f ( ) {",
        "{",
        63,
        "int a [ 1 ] = { 1 , ( 1 ) } ;",
        "}",
        "}",
        Syntax::Nested { at: 77 },
    ),
    (
        "int f ( ) { x =",
        "a [ 1 ] [",
        64,
        "1",
        "]",
        "; }",
        Syntax::Whole,
    ),
    (
        "int f ( ) { x =",
        "a [ 1 ] [",
        65,
        "1",
        "]",
        "; }",
        Syntax::Nested { at: 328 },
    ),
    (
        "int f ( ) {",
        "{",
        62,
        "f ( 1 ? 1 : 1 , 1 ? 1 : 1 ) ;",
        "}",
        "}",
        Syntax::Whole,
    ),
    (
        "int f ( ) {",
        "{",
        62,
        "for ( x = 1 ? 1 : 1 , y = 1 ? 1 : 1 ; ; ) ;",
        "}",
        "}",
        Syntax::Whole,
    ),
    (
        "int f ( ) {",
        "{",
        63,
        "x = 1 ? ( 1 ) : 1 ;",
        "}",
        "}",
        Syntax::Nested { at: 72 },
    ),
    (
        "int f ( ) {",
        "{",
        63,
        "x = 1 ? 1 : ( 1 ) ;",
        "}",
        "}",
        Syntax::Nested { at: 74 },
    ),
];

#[test]
fn constructs_are_counted(rt: HostRuntime) {
    assert_eq!(rt; first_wrong(rt.alloc(), NESTS), None);
}

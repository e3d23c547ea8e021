//! What the grammar of a function says of words.

use crate::words::add_words;
use source_grammar::{Piece, Syntax, examine};
use std::alloc::{AllocError, Global};

/// A row of a table: what the grammar is given, and what it is to say.
pub(crate) trait Case {
    /// Whether it says so. Without memory it doesn't.
    fn is_right(&self, alloc: Global) -> bool;
}

/// The number of the first row of a table that isn't right, counted from 0.
pub(crate) fn first_wrong<C: Case>(alloc: Global, table: &[C]) -> Option<usize> {
    table.iter().position(|case| !case.is_right(alloc))
}

// The words of a text.
fn words(alloc: Global, text: &str) -> Result<Vec<Piece>, AllocError> {
    let mut pieces = Vec::new(alloc);
    add_words(&mut pieces, 0, text)?;
    Ok(pieces)
}

// A text, and what is said of it.
impl Case for (&str, Syntax) {
    fn is_right(&self, alloc: Global) -> bool {
        match words(alloc, self.0) {
            Ok(pieces) => examine(alloc, pieces.as_slice()) == Ok(self.1),
            Err(_) => false,
        }
    }
}

const TEXTS: &[(&str, Syntax)] = &[
    ("int main ( ) { }", Syntax::Whole),
    ("static inline void f ( void ) { }", Syntax::Whole),
    (
        "extern int g ( int a , int b ) { return a ? b : g ( a , 1 ) ; }",
        Syntax::Whole,
    ),
    (
        "int f ( ) { int x = 1 , a [ 10 ] , y ; l : m : }",
        Syntax::Whole,
    ),
    (
        "int f ( ) { x = a [ 1 ] / 1 % x ; a [ i ] *= 1 ; ++ a [ i ] ; x -- ; }",
        Syntax::Whole,
    ),
    (
        "int f ( ) { if ( 1 ) if ( 1 ) ; else ; else l : x = 1 ; }",
        Syntax::Whole,
    ),
    (
        "int f ( ) { do l : ; while ( ! x || x && x == 1 ) ; }",
        Syntax::Whole,
    ),
    (
        "int f ( ) { for ( int i = 0 , n = 10 ; i < n ; i ++ , a [ i ] = 1 , -- n ) { break ; continue ; } }",
        Syntax::Whole,
    ),
    (
        "int f ( ) { for ( ; ; ) for ( i = 0 , j = 1 ; ; ) return ; }",
        Syntax::Whole,
    ),
    (
        "int f ( ) { assume ( x ) ; assert ( x ? 1 : x ? 1 : 1 ) ; f ( ) ; g ( ( x ) , nondet ( ) ) ; }",
        Syntax::Whole,
    ),
    (
        "int f ( ) { x = a ? b ? 1 : 1 : 1 + 1 ; int y = x ? 1 : 1 , z ; }",
        Syntax::Whole,
    ),
    (
        "int f ( ) { while ( a [ f ( 1 ) ] < - 1 * + x ) ; }",
        Syntax::Whole,
    ),
    (
        "int f ( const int x , int * p , int a [ ] , int b [ 10 ] , const int c [ ] [ n ] [ 1 ] ) { }",
        Syntax::Whole,
    ),
    (
        "int f ( int a [ n ] [ 1 ] , const int * p ) { const int x = 1 , y ; for ( const int i = 1 ; ; ) ; }",
        Syntax::Whole,
    ),
    (
        "int f ( ) { x = a [ 1 ] [ i ] + a [ 1 ] [ i ] [ x ] ; a [ 1 ] [ 1 ] [ 1 ] *= 1 ; -- a [ 1 ] [ 1 ] ; }",
        Syntax::Whole,
    ),
    (
        "int f ( ) { for ( a [ 1 ] [ 1 ] = 1 ; ; a [ i ] [ i ] ++ , ++ a [ 1 ] [ 1 ] ) ; }",
        Syntax::Whole,
    ),
    (
        "int f ( ) { x = - ++ x - -- y * z -- ; g ( x ++ , ++ y ) ; while ( x -- ) ; a [ ++ i ] = x ++ ; return x ++ ; }",
        Syntax::Whole,
    ),
    (
        "int f ( ) { int a [ 1 ] [ n ] = { { 1 , x } , { } , 1 + 1 , } , b [ n ] = { } , c [ n ] [ n ] ; }",
        Syntax::Whole,
    ),
    (
        "int f ( ) { for ( const int a [ 1 ] = { ++ x , { { 1 , } , } } ; ; ) return -- x ; }",
        Syntax::Whole,
    ),
    ("", Syntax::Short),
    ("int", Syntax::Short),
    ("int f ( ) {", Syntax::Short),
    ("int f ( ) { x = a ?", Syntax::Short),
    ("int f ( ) { if ( 1 ) ; else", Syntax::Short),
    ("int f ( int *", Syntax::Short),
    ("int f ( ) { int a [ 1 ] = { 1 ,", Syntax::Short),
    ("int f ( ) { int a [ 1 ] = { 1 }", Syntax::Short),
    ("int f ( ) { x = a [ 1 ]", Syntax::Short),
    (";", Syntax::Unexpected { at: 0 }),
    ("const int f ( ) { }", Syntax::Unexpected { at: 0 }),
    ("int f ( const x ) { }", Syntax::Unexpected { at: 4 }),
    ("int f ( int const x ) { }", Syntax::Unexpected { at: 4 }),
    ("int f ( int * p [ 1 ] ) { }", Syntax::Unexpected { at: 6 }),
    ("int f ( int * * p ) { }", Syntax::Unexpected { at: 5 }),
    ("int f ( int % p ) { }", Syntax::Unexpected { at: 4 }),
    ("int f ( int a [ ] [ ] ) { }", Syntax::Unexpected { at: 8 }),
    (
        "int f ( int a [ 1 + 1 ] ) { }",
        Syntax::Unexpected { at: 7 },
    ),
    ("int ( ) { }", Syntax::Unexpected { at: 1 }),
    ("void static f ( ) { }", Syntax::Unexpected { at: 1 }),
    ("int f ( int , int b ) { }", Syntax::Unexpected { at: 4 }),
    ("int f ( void , int b ) { }", Syntax::Unexpected { at: 4 }),
    ("int f ( ) { } ;", Syntax::Unexpected { at: 6 }),
    ("int f ( ) { x = 1 ? 1 ; }", Syntax::Unexpected { at: 10 }),
    ("int f ( ) { x = 1 : 1 ; }", Syntax::Unexpected { at: 8 }),
    (
        "int f ( ) { int a [ 1 ] = 1 ; }",
        Syntax::Unexpected { at: 11 },
    ),
    ("int f ( ) { int a [ ] ; }", Syntax::Unexpected { at: 8 }),
    (
        "int f ( ) { int a [ 1 ] [ ] = { 1 } ; }",
        Syntax::Unexpected { at: 11 },
    ),
    (
        "int f ( ) { int a [ n + 1 ] ; }",
        Syntax::Unexpected { at: 9 },
    ),
    (
        "int f ( ) { int x = { 1 } ; }",
        Syntax::Unexpected { at: 8 },
    ),
    (
        "int f ( ) { int a [ 1 ] += { 1 } ; }",
        Syntax::Unexpected { at: 10 },
    ),
    (
        "int f ( ) { int a [ 1 ] = { , } ; }",
        Syntax::Unexpected { at: 12 },
    ),
    (
        "int f ( ) { int a [ 1 ] = { 1 , , } ; }",
        Syntax::Unexpected { at: 14 },
    ),
    (
        "int f ( ) { int a [ 1 ] = { 1 1 } ; }",
        Syntax::Unexpected { at: 13 },
    ),
    (
        "int f ( ) { int a [ 1 ] = { { 1 } 1 } ; }",
        Syntax::Unexpected { at: 15 },
    ),
    (
        "int f ( ) { int a [ 1 ] = { 1 } [ 1 ] ; }",
        Syntax::Unexpected { at: 14 },
    ),
    (
        "int f ( ) { a [ 1 ] = { 1 } ; }",
        Syntax::Unexpected { at: 10 },
    ),
    ("int f ( ) { int x += 1 ; }", Syntax::Unexpected { at: 7 }),
    ("int f ( ) { const x ; }", Syntax::Unexpected { at: 6 }),
    ("int f ( ) { int const x ; }", Syntax::Unexpected { at: 6 }),
    (
        "int f ( ) { if ( 1 ) const int x ; }",
        Syntax::Unexpected { at: 9 },
    ),
    ("int f ( ) { x = a [ ] ; }", Syntax::Unexpected { at: 9 }),
    (
        "int f ( ) { x = a [ 1 ] ++ ; }",
        Syntax::Unexpected { at: 11 },
    ),
    (
        "int f ( ) { x = ++ a [ 1 ] ; }",
        Syntax::Unexpected { at: 9 },
    ),
    ("int f ( ) { x = ++ 1 ; }", Syntax::Unexpected { at: 8 }),
    (
        "int f ( ) { x = ( y ) ++ ; }",
        Syntax::Unexpected { at: 10 },
    ),
    (
        "int f ( ) { x = f ( ) ++ ; }",
        Syntax::Unexpected { at: 10 },
    ),
    ("int f ( ) { x = ++ y ++ ; }", Syntax::Unexpected { at: 9 }),
    (
        "int f ( ) { f ( ) [ 1 ] = 1 ; }",
        Syntax::Unexpected { at: 8 },
    ),
    ("int f ( ) { int main ; }", Syntax::Unexpected { at: 6 }),
    ("int f ( ) { x = y = 1 ; }", Syntax::Unexpected { at: 8 }),
    (
        "int f ( ) { x = 1 , y = 1 ; }",
        Syntax::Unexpected { at: 8 },
    ),
    ("int f ( ) { x ++ ++ ; }", Syntax::Unexpected { at: 7 }),
    ("int f ( ) { f ( ) = 1 ; }", Syntax::Unexpected { at: 8 }),
    ("int f ( ) { f ( 1 , ) ; }", Syntax::Unexpected { at: 9 }),
    ("int f ( ) { nondet ( ) ; }", Syntax::Unexpected { at: 5 }),
    (
        "int f ( ) { x = nondet ( 1 ) ; }",
        Syntax::Unexpected { at: 9 },
    ),
    (
        "int f ( ) { if ( 1 ) int x ; }",
        Syntax::Unexpected { at: 9 },
    ),
    ("int f ( ) { l : else ; }", Syntax::Unexpected { at: 7 }),
    (
        "int f ( ) { for ( x ; ; ) ; }",
        Syntax::Unexpected { at: 8 },
    ),
    (
        "int f ( ) { for ( int i = 0 , int j ; ; ) ; }",
        Syntax::Unexpected { at: 12 },
    ),
    (
        "int f ( ) { for ( ; ; int i ) ; }",
        Syntax::Unexpected { at: 9 },
    ),
    (
        "int f ( ) { do ; while ( 1 ) }",
        Syntax::Unexpected { at: 11 },
    ),
    ("int f ( ) { goto l ; }", Syntax::Unexpected { at: 5 }),
];

#[test]
fn texts_are_told(rt: HostRuntime) {
    assert_eq!(rt; first_wrong(rt.alloc(), TEXTS), None);
}

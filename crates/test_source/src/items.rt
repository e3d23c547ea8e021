//! What the items of a file are.

use source_items::{Bracket, Division, Item, Mark, divide};
use std::alloc::{AllocError, Global};

// What a word is to the division of a file.
fn mark(word: &str) -> Mark {
    match word {
        "(" => Mark::Opens(Bracket::Round),
        ")" => Mark::Closes(Bracket::Round),
        "[" => Mark::Opens(Bracket::Square),
        "]" => Mark::Closes(Bracket::Square),
        "{" => Mark::Opens(Bracket::Curly),
        "}" => Mark::Closes(Bracket::Curly),
        ";" => Mark::Semicolon,
        "static" | "inline" | "extern" => Mark::Storage,
        "int" | "void" => Mark::Returned,
        "f" | "g" | "main" => Mark::Name,
        _ => Mark::Other,
    }
}

// What becomes of the words of a text; nothing without memory.
fn divided(alloc: Global, text: &str) -> Result<Division, AllocError> {
    let mut marks = Vec::new(alloc);
    for word in text.split_whitespace() {
        marks.push(mark(word))?;
    }
    divide(alloc, marks.as_slice())
}

// Whether the items are these: the first token of each, the one behind its last, and the one that is a function's name.
fn are(items: &[Item], wanted: &[(usize, usize, Option<usize>)]) -> bool {
    items.len() == wanted.len()
        && items.iter().zip(wanted.iter()).all(|(item, wanted)| {
            item.first == wanted.0 && item.end == wanted.1 && item.name == wanted.2
        })
}

// A text and its items.
const FILES: &[(&str, &[(usize, usize, Option<usize>)])] = &[
    ("", &[]),
    (";", &[(0, 1, None)]),
    ("int f ( ) { }", &[(0, 6, Some(1))]),
    (
        "static inline int f ( int x ) { g ( ) ; } int g ( ) ;",
        &[(0, 14, Some(3)), (14, 19, None)],
    ),
    // Names that aren't at their place, or more behind the braces, make no function; the item ends all the same.
    (
        "int x ( ) { } int f ( ) ( ) { }",
        &[(0, 6, None), (6, 14, None)],
    ),
    ("f ( ) { } int g ( ) { }", &[(0, 5, None), (5, 11, Some(6))]),
    // A brace that doesn't stand behind parentheses doesn't end an item, nor does one behind it.
    ("struct s { int x ; } ;", &[(0, 8, None)]),
    ("int f [ ] = { x , x } ;", &[(0, 11, None)]),
    ("enum { x } f ( ) { } ;", &[(0, 10, None)]),
    // Brackets hold semicolons.
    (
        "x ( ; ) ; int main ( void ) { x [ 0 ] ; }",
        &[(0, 5, None), (5, 17, Some(6))],
    ),
];

// A text and its first token that doesn't fit.
const FAULTS: &[(&str, usize)] = &[
    (")", 0),
    ("int f ( ) { ) }", 5),
    ("( ]", 1),
    ("{ ( } )", 2),
    ("int f ( ) { } }", 6),
    // The end of the file, within brackets and within an item.
    ("int f ( ) {", 5),
    ("int f ( )", 4),
    ("int f ( ) { } int", 7),
    ("struct s { }", 4),
];

#[test]
fn files_are_divided(rt: HostRuntime) {
    for (text, wanted) in FILES {
        match divided(rt.alloc(), text) {
            Ok(Division::Divided(items)) => assert!(rt; are(items.as_slice(), wanted), "{text}"),
            _ => assert!(rt; false, "{text}"),
        }
    }
}

#[test]
fn brackets_have_to_match(rt: HostRuntime) {
    for (text, wanted) in FAULTS {
        match divided(rt.alloc(), text) {
            Ok(Division::Unexpected { index }) => assert_eq!(rt; index, *wanted, "{text}"),
            _ => assert!(rt; false, "{text}"),
        }
    }
}

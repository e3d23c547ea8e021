//! Hostile words: empty names, names with a zero byte, options twice or without a value, the end of options anywhere, many words.

use crate::cases::{Case, first_wrong, run_over};
use crate::done::reports::{LINE, WHOLE};
use crate::refused::refusals::USAGE;
use std::alloc::{AllocError, Global};
use test_cases::{is_as_wanted, shelf, strings};

// Whether the run of these words over a small program ends so.
fn ends(
    alloc: Global,
    words: &[&str],
    code: u8,
    out: &[u8],
    err: &[u8],
) -> Result<bool, AllocError> {
    let words = strings(alloc, words)?;
    let mut shelf = shelf(alloc, LINE, b"", &[])?;
    let written = run_over(alloc, &words, &mut shelf, &[], &[])?;
    Ok(is_as_wanted(&written, code, out, err))
}

// Words, the code, the output and the message.
impl Case for (&[&str], u8, &[u8], &[u8]) {
    fn is_right(&self, alloc: Global) -> bool {
        ends(alloc, self.0, self.1, self.2, self.3) == Ok(true)
    }
}

const NO_PROGRAM: &[u8] = b"cannot read the program\n";

const NO_ROWS: &[u8] = b"cannot read the rows\n";

// A name under which no program is told: neither `solve` nor `check` reads another file in its place.
impl Case for &str {
    fn is_right(&self, alloc: Global) -> bool {
        ends(alloc, &["solve", *self], 3, b"", NO_PROGRAM) == Ok(true)
            && ends(alloc, &["check", *self, "f"], 3, b"", NO_PROGRAM) == Ok(true)
    }
}

const ABSENT: &[&str] = &["", "p\0", "\0", "p ", "./p", "p/", ".", "/", "P", "-"];

#[test]
fn names_of_programs_are_taken_as_they_are(rt: HostRuntime) {
    assert_eq!(rt; first_wrong(rt.alloc(), ABSENT), None);
}

const ROWS: &[(&[&str], u8, &[u8], &[u8])] = &[
    (
        &["solve", "p", "--domain", "rows", "--rows", "p\0"],
        3,
        b"",
        NO_ROWS,
    ),
    (
        &["solve", "p", "--domain", "rows", "--rows", " "],
        3,
        b"",
        NO_ROWS,
    ),
    (
        &["solve", "p", "--domain", "rows", "--rows", "q"],
        3,
        b"",
        NO_ROWS,
    ),
];

#[test]
fn names_of_rows_are_taken_as_they_are(rt: HostRuntime) {
    assert_eq!(rt; first_wrong(rt.alloc(), ROWS), None);
}

const ENDS: &[(&[&str], u8, &[u8], &[u8])] = &[
    (&["solve", "--", "p"], 0, WHOLE, b""),
    (&["solve", "p", "--"], 0, WHOLE, b""),
    (&["solve", "--policy", "best", "--", "p"], 0, WHOLE, b""),
    (&["--", "solve", "p"], 2, b"", USAGE),
    (&["--"], 2, b"", USAGE),
    (&["solve", "--"], 2, b"", USAGE),
    (&["solve", "--", "--", "p"], 2, b"", USAGE),
    (
        &["bench", "--", "--seed", "1", "--loops", "1"],
        2,
        b"",
        USAGE,
    ),
];

#[test]
fn the_end_of_options_stands_before_a_name(rt: HostRuntime) {
    assert_eq!(rt; first_wrong(rt.alloc(), ENDS), None);
}

const OPTIONS: &[(&[&str], u8, &[u8], &[u8])] = &[
    (&["solve", "p", "--domain"], 2, b"", USAGE),
    (&["solve", "p", "--domain="], 2, b"", USAGE),
    (&["solve", "p", "--domain", ""], 2, b"", USAGE),
    (&["solve", "p", "--rows"], 2, b"", USAGE),
    (&["solve", "p", "--improvements"], 2, b"", USAGE),
    (&["solve", "p", "--policy"], 2, b"", USAGE),
    (&["bench", "--seed", "--loops", "1"], 2, b"", USAGE),
    (
        &["solve", "p", "--domain", "zones", "--domain", "zones"],
        2,
        b"",
        USAGE,
    ),
    (
        &["solve", "p", "--policy=best", "--policy=best"],
        2,
        b"",
        USAGE,
    ),
    (
        &["solve", "p", "--improvements", "1", "--improvements", "1"],
        2,
        b"",
        USAGE,
    ),
    (&["solve", "p", "--improvements", "-1"], 2, b"", USAGE),
    (&["solve", "p", "--improvements", "1 "], 2, b"", USAGE),
    (&["solve", "p", "q"], 2, b"", USAGE),
    (&[""], 2, b"", USAGE),
    (
        &["solve", "p", "--improvements", "0000000001"],
        0,
        WHOLE,
        b"",
    ),
];

const BITS: &[(&[&str], u8, &[u8], &[u8])] = &[
    (&["solve", "p", "--int"], 2, b"", USAGE),
    (&["verify", "p", "--int", "9"], 2, b"", USAGE),
    (&["verify", "p", "--int", "-8"], 2, b"", USAGE),
    (&["solve", "p", "--int", "8", "--int", "8"], 2, b"", USAGE),
    (&["points", "p", "--int", "8"], 2, b"", USAGE),
    (&["solve", "p", "--int", "0000000008"], 0, WHOLE, b""),
    (&["solve", "p", "--int", "00000000008"], 2, b"", USAGE),
];

#[test]
fn options_have_one_value_each(rt: HostRuntime) {
    assert_eq!(rt; first_wrong(rt.alloc(), OPTIONS), None);
    assert_eq!(rt; first_wrong(rt.alloc(), BITS), None);
}

// A word that stands behind the first one, up to so many words in all.
impl Case for (&str, usize) {
    fn is_right(&self, alloc: Global) -> bool {
        let mut words = Vec::new(alloc);
        words.push("solve").is_ok()
            && words.resize(self.1, self.0).is_ok()
            && ends(alloc, &words, 2, b"", USAGE) == Ok(true)
    }
}

const MANY: &[(&str, usize)] = &[
    ("p", 1000),
    ("--", 1000),
    ("--domain", 1000),
    ("solve", 1000),
    ("", 1000),
];

#[test]
fn many_words_are_no_command(rt: HostRuntime) {
    assert_eq!(rt; first_wrong(rt.alloc(), MANY), None);
}

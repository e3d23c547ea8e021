//! Loads and puts that fail: no answer changes in place of the right one, and what was put is the front of the right output. Want of
//! memory is tested by `bench/faults.sh`.

use crate::cases::{Case, first_wrong, run_over};
use crate::done::reports::COUNT;
use std::alloc::{AllocError, Global};
use test_cases::{Written, front, is_as_wanted, joined, repeated, shelf, strings};

const LINES: [&[u8]; 11] = [
    b"variables x\n",
    b"point 0: entry\n",
    b"  x <= +inf\n",
    b"  -x <= +inf\n",
    b"point 1: loop at line 1\n",
    b"  x <= 100\n",
    b"  -x <= 0\n",
    b"point 2: exit\n",
    b"  x <= 100\n",
    b"  -x <= -100\n",
    b"improvements: 3\n",
];

// The run of words over the loop to 100, where puts to the output and to the messages fail as planned.
fn run_count(
    alloc: Global,
    words: &[&str],
    puts: &[(u32, usize)],
    messages: &[(u32, usize)],
) -> Result<Written, AllocError> {
    let words = strings(alloc, words)?;
    let mut shelf = shelf(alloc, COUNT, b"", &[])?;
    run_over(alloc, &words, &mut shelf, puts, messages)
}

// Whether the report stops with the first lines and so many bytes of the next one, where the put with that number fails
// after them.
fn stops(alloc: Global, lines: u32, bytes: usize) -> Result<bool, AllocError> {
    let written = run_count(alloc, &["solve", "p"], &[(lines, bytes)], &[])?;
    let front = front(alloc, &LINES, lines, bytes)?;
    Ok(is_as_wanted(&written, 8, &front, b"cannot write\n"))
}

// Whether the report stops wherever its output fails, and is whole where that fails behind it.
fn report_stops(alloc: Global) -> Result<bool, AllocError> {
    for lines in 0..11 {
        if !stops(alloc, lines, 0)? || !stops(alloc, lines, 3)? {
            return Ok(false);
        }
    }
    let whole = run_count(alloc, &["solve", "p"], &[(11, 0)], &[])?;
    let report = joined(alloc, &LINES)?;
    Ok(is_as_wanted(&whole, 0, &report, b""))
}

#[test]
fn a_report_stops_where_its_output_fails(rt: HostRuntime) {
    assert!(rt; report_stops(rt.alloc()) == Ok(true));
}

// Words, in how many pieces the output and the message are put, and the code.
impl Case for (&[&str], usize, usize, u8) {
    fn is_right(&self, alloc: Global) -> bool {
        match run_count(alloc, self.0, &[], &[]) {
            Ok(written) => {
                written.out.pieces().len() == self.1
                    && written.err.pieces().len() == self.2
                    && written.code == self.3
            }
            Err(_) => false,
        }
    }
}

const SOLVE: &[&str] = &["solve", "p"];

const CERTIFY: &[&str] = &["certify", "p"];

const SPENT: &[&str] = &["solve", "p", "--improvements", "2"];

// A report is put line by line, a certificate and a message in one piece.
const PIECES: &[(&[&str], usize, usize, u8)] = &[
    (SOLVE, 11, 0, 0),
    (CERTIFY, 1, 0, 0),
    (SPENT, 0, 1, 6),
];

#[test]
fn outputs_are_put_in_pieces(rt: HostRuntime) {
    assert_eq!(rt; first_wrong(rt.alloc(), PIECES), None);
}

/// Puts that fail: the number of the put, and how many bytes it takes.
type Puts<'a> = &'a [(u32, usize)];

// Words, the puts to the output and to the messages that fail, and the code, the output and the message.
impl Case for (&[&str], Puts<'_>, Puts<'_>, u8, &[u8], &[u8]) {
    fn is_right(&self, alloc: Global) -> bool {
        match run_count(alloc, self.0, self.1, self.2) {
            Ok(written) => is_as_wanted(&written, self.3, self.4, self.5),
            Err(_) => false,
        }
    }
}

// What the stream of messages answers changes nothing.
const CUT: &[(&[&str], Puts, Puts, u8, &[u8], &[u8])] = &[
    (CERTIFY, &[(0, 5)], &[], 8, b"{\"bou", b"cannot write\n"),
    (SPENT, &[], &[], 6, b"", b"spent: 2 improvements\n"),
    (SPENT, &[], &[(0, 6)], 6, b"", b"spent:"),
    (SOLVE, &[(0, 0)], &[(0, 0)], 8, b"", b""),
];

#[test]
fn outputs_are_cut(rt: HostRuntime) {
    assert_eq!(rt; first_wrong(rt.alloc(), CUT), None);
}

// The run of words over a program, where the load with that number fails.
fn run_loads(
    alloc: Global,
    words: &[&str],
    text: &[u8],
    number: u32,
) -> Result<Written, AllocError> {
    let words = strings(alloc, words)?;
    let mut shelf = shelf(alloc, text, b"", &[number])?;
    run_over(alloc, &words, &mut shelf, &[], &[])
}

// Words, a program and how many blanks stand behind it, the number of the load that fails, and the message.
impl Case for (&[&str], &[u8], usize, u32, &[u8]) {
    fn is_right(&self, alloc: Global) -> bool {
        match repeated(alloc, self.1, b" ", self.2, b"") {
            Ok(text) => match run_loads(alloc, self.0, &text, self.3) {
                Ok(written) => is_as_wanted(&written, 3, b"", self.4),
                Err(_) => false,
            },
            Err(_) => false,
        }
    }
}

const CHECK: &[&str] = &["check", "p", "f"];

const ROWS: &[&str] = &["solve", "p", "--domain", "rows", "--rows", "f"];

const NO_PROGRAM: &[u8] = b"cannot read the program\n";

// A load that fails is told by its file; a file that is too long comes after it.
const LOADS: &[(&[&str], &[u8], usize, u32, &[u8])] = &[
    (CHECK, COUNT, 0, 0, NO_PROGRAM),
    (CHECK, COUNT, 0, 1, b"cannot read the certificate\n"),
    (ROWS, COUNT, 0, 0, NO_PROGRAM),
    (ROWS, COUNT, 0, 1, b"cannot read the rows\n"),
    (CERTIFY, COUNT, 0, 0, NO_PROGRAM),
    (CHECK, b"", 1048577, 0, NO_PROGRAM),
    (CHECK, b"", 1048577, 1, b"too long: the program\n"),
];

#[test]
fn loads_fail(rt: HostRuntime) {
    assert_eq!(rt; first_wrong(rt.alloc(), LOADS), None);
}

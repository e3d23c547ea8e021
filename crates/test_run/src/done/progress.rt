//! What runs tell of their progress, beside the output and the message, and that these are the same without it.

use crate::cases::{Case, Ending, first_wrong, has_ending};
use crate::done::reports::{COUNT, COUNT_REPORT, LINE, WHOLE};
use base_files::MemSink;
use std::alloc::{AllocError, Global};
use test_cases::{Written, shelf, words_of};
use top_run::{Teller, run};

// The first round finds the two bounds of the loop, each a part of its own, so a turn; the second raises one of them; the third finds the
// two of the exit.
const ROUNDS: &[u8] = b"round 1: 0 bounds raised
round 1, turn 1
round 2: 2 bounds raised
round 3: 2 bounds raised
round 3, turn 1
";

const REWRITTEN: &[u8] = b"round 1: 0 bounds raised
\x1b[A\x1b[Kround 1, turn 1
\x1b[A\x1b[Kround 2: 2 bounds raised
\x1b[A\x1b[Kround 3: 2 bounds raised
\x1b[A\x1b[Kround 3, turn 1
";

const TWO_ROUNDS: &[u8] = b"round 1: 0 bounds raised
round 1, turn 1
round 2: 2 bounds raised
";

// One round finds the four bounds of the exit, each a part of its own.
const ONE_ROUND: &[u8] = b"round 1: 0 bounds raised
round 1, turn 1
round 1, turn 2
round 1, turn 3
";

// The run of a line over the file `p`, where the puts of progress fail as planned, and what it tells.
fn run_told(
    alloc: Global,
    line: &str,
    text: &[u8],
    rewrites: bool,
    faults: &[(u32, usize)],
) -> Result<(Written, Teller<MemSink>), AllocError> {
    let words = words_of(alloc, line)?;
    let mut shelf = shelf(alloc, text, b"", &[])?;
    let mut out = MemSink::new(alloc, Vec::new(alloc));
    let mut err = MemSink::new(alloc, Vec::new(alloc));
    let mut teller = Teller::new(MemSink::new(alloc, faults.to_vec(alloc)?), rewrites);
    let code = run(alloc, &words, &mut shelf, &mut out, &mut err, &mut teller).code();
    Ok((Written { code, out, err }, teller))
}

// A line of words, the file `p`, whether lines are rewritten, which puts of them fail, how the run ends, and what is told.
type Told<'a> = (
    &'a str,
    &'a [u8],
    bool,
    &'a [(u32, usize)],
    Ending<'a>,
    &'a [u8],
);

impl Case for Told<'_> {
    fn is_right(&self, alloc: Global) -> bool {
        match run_told(alloc, self.0, self.1, self.2, self.3) {
            Ok((written, teller)) => has_ending(&written, self.4)
                && teller.stream.bytes() == self.5,
            Err(_) => false,
        }
    }
}

const TOLD: &[Told] = &[
    (
        "solve p --progress",
        COUNT,
        false,
        &[],
        Ending::Report(COUNT_REPORT),
        ROUNDS,
    ),
    (
        "solve --progress p",
        COUNT,
        true,
        &[],
        Ending::Report(COUNT_REPORT),
        REWRITTEN,
    ),
    (
        "solve p",
        COUNT,
        false,
        &[],
        Ending::Report(COUNT_REPORT),
        b"",
    ),
    (
        "solve p",
        COUNT,
        true,
        &[],
        Ending::Report(COUNT_REPORT),
        b"",
    ),
    // The message is all of the stream of messages.
    (
        "solve p --progress --improvements 2",
        COUNT,
        false,
        &[],
        Ending::Refused(6, b"spent: 2 improvements\n"),
        TWO_ROUNDS,
    ),
    (
        "solve p --progress",
        LINE,
        false,
        &[],
        Ending::Report(WHOLE),
        ONE_ROUND,
    ),
    (
        "certify p --progress",
        COUNT,
        false,
        &[],
        Ending::Start(b"{"),
        ROUNDS,
    ),
    (
        "verify p --progress",
        COUNT,
        false,
        &[],
        Ending::Report(b"proved 0 of 0\nimprovements: 3\n"),
        ROUNDS,
    ),
    // A refused text has no rounds.
    (
        "solve p --progress",
        b"int main() { }",
        false,
        &[],
        Ending::Refused(4, b"program refused: no variables\n"),
        b"",
    ),
    // Lines that fail change nothing.
    (
        "solve p --progress",
        COUNT,
        false,
        &[(0, 5), (1, 0), (2, 0), (3, 0), (4, 0)],
        Ending::Report(COUNT_REPORT),
        b"round",
    ),
];

#[test]
fn progress_is_told(rt: HostRuntime) {
    assert_eq!(rt; first_wrong(rt.alloc(), TOLD), None);
}

//! Runs of the top call over files and streams in memory, and what is wanted of them.

use base_files::{MemShelf, MemSink};
use base_watch::Unwatched;
use std::alloc::{AllocError, Global};
use test_cases::{Written, is_as_wanted, repeated, shelf, words_of};
use top_run::run;

/// A row of a table: a run, and how it is to end.
pub(crate) trait Case {
    /// Whether the run ends as it is to. Without memory it doesn't.
    fn is_right(&self, alloc: Global) -> bool;
}

/// The number of the first row of a table that isn't right, counted from 0.
pub(crate) fn first_wrong<C: Case>(alloc: Global, table: &[C]) -> Option<usize> {
    table.iter().position(|case| !case.is_right(alloc))
}

// The run of these words over a shelf, where puts fail as planned: after so many bytes the put with this number.
pub(crate) fn run_over(
    alloc: Global,
    words: &[String],
    shelf: &mut MemShelf,
    puts: &[(u32, usize)],
    messages: &[(u32, usize)],
) -> Result<Written, AllocError> {
    let mut out = MemSink::new(alloc, puts.to_vec(alloc)?);
    let mut err = MemSink::new(alloc, messages.to_vec(alloc)?);
    let code = run(alloc, words, shelf, &mut out, &mut err, &mut Unwatched).code();
    Ok(Written { code, out, err })
}

// The run of a line of words over the files `p` and `f`, where nothing fails.
pub(crate) fn run_line(
    alloc: Global,
    line: &str,
    text: &[u8],
    other: &[u8],
) -> Result<Written, AllocError> {
    let words = words_of(alloc, line)?;
    let mut shelf = shelf(alloc, text, other, &[])?;
    run_over(alloc, &words, &mut shelf, &[], &[])
}

/// How a run is to end: refused with this code and this message, and no output; or with this report or one that ends so, and
/// no message; or so with this whole output, where a check is open.
#[derive(Clone, Copy)]
pub(crate) enum Ending<'a> {
    Refused(u8, &'a [u8]),
    Report(&'a [u8]),
    Open(&'a [u8]),
    End(&'a [u8]),
    Start(&'a [u8]),
}

/// Whether a run has this ending.
pub(crate) fn has_ending(written: &Written, ending: Ending) -> bool {
    let out = written.out.bytes();
    match ending {
        Ending::Refused(code, message) => is_as_wanted(written, code, b"", message),
        Ending::Report(report) => is_as_wanted(written, 0, report, b""),
        Ending::Open(verdicts) => is_as_wanted(written, 10, verdicts, b""),
        Ending::End(end) => out.ends_with(end) && is_as_wanted(written, 0, out, b""),
        Ending::Start(start) => out.starts_with(start) && is_as_wanted(written, 0, out, b""),
    }
}

/// Whether the run of a line over the files `p` and `f`, where nothing fails, ends so.
pub(crate) fn ends(alloc: Global, line: &str, text: &[u8], other: &[u8], ending: Ending) -> bool {
    match run_line(alloc, line, text, other) {
        Ok(written) => has_ending(&written, ending),
        Err(_) => false,
    }
}

// A line of words, the files `p` and `f`, and how the run ends.
impl Case for (&str, &[u8], &[u8], Ending<'_>) {
    fn is_right(&self, alloc: Global) -> bool {
        ends(alloc, self.0, self.1, self.2, self.3)
    }
}

// A line of words, the file `p`, and how the run ends; the file `f` is empty.
impl Case for (&str, &[u8], Ending<'_>) {
    fn is_right(&self, alloc: Global) -> bool {
        ends(alloc, self.0, self.1, b"", self.2)
    }
}

/// The number of the first text that a line of words doesn't refuse for its cause with code 4. The text is the file `p`, or `f` where there
/// is a program.
pub(crate) fn first_taken(
    alloc: Global,
    line: &str,
    subject: &str,
    program: Option<&[u8]>,
    texts: &[(&[u8], &str)],
) -> Option<usize> {
    texts.iter().position(|row| {
        let files = match program {
            Some(program) => (program, row.0),
            None => (row.0, b"".as_slice()),
        };
        !is_refused(alloc, line, files, subject, row.1)
    })
}

// Whether the run of a line over two files is refused for this cause with code 4.
fn is_refused(
    alloc: Global,
    line: &str,
    files: (&[u8], &[u8]),
    subject: &str,
    cause: &str,
) -> bool {
    match format!(in alloc; "{subject} refused: {cause}\n") {
        Ok(message) => {
            let refused = Ending::Refused(4, message.as_bytes());
            ends(alloc, line, files.0, files.1, refused)
        }
        Err(_) => false,
    }
}

/// A text with a piece so many times between two others, and for what a line of words refuses it.
pub(crate) type Long<'a> = (&'a [u8], &'a [u8], usize, &'a [u8], &'a str);

/// The number of the first such text that a line of words doesn't refuse for its cause with code 4.
pub(crate) fn first_long_taken(
    alloc: Global,
    line: &str,
    subject: &str,
    texts: &[Long],
) -> Option<usize> {
    texts.iter().position(|row| match repeated(alloc, row.0, row.1, row.2, row.3) {
        Ok(text) => !is_refused(alloc, line, (&text, b""), subject, row.4),
        Err(_) => true,
    })
}

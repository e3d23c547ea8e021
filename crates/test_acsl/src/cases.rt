//! Runs of the call over files and streams in memory, and what is wanted of them.

use acsl_annotate::annotate;
use base_files::MemSink;
use base_watch::Unwatched;
use std::alloc::{AllocError, Global};
use test_cases::{Written, is_as_wanted, shelf, words_of};

/// A row of a table: a run, and how it is to end.
pub(crate) trait Case {
    /// Whether the run ends as it is to. Without memory it doesn't.
    fn is_right(&self, alloc: Global) -> bool;
}

/// The number of the first row of a table that isn't right, counted from 0.
pub(crate) fn first_wrong<C: Case>(alloc: Global, table: &[C]) -> Option<usize> {
    table.iter().position(|case| !case.is_right(alloc))
}

/// What fails: the loads with these numbers, and after so many bytes the puts with these numbers to the output and to the messages.
#[derive(Clone, Copy)]
pub(crate) struct Outside<'a> {
    pub loads: &'a [u32],
    pub puts: &'a [(u32, usize)],
    pub messages: &'a [(u32, usize)],
}

/// Nothing fails.
pub(crate) const SOUND: Outside = Outside {
    loads: &[],
    puts: &[],
    messages: &[],
};

// The run of words over the files `p` and `f`.
fn run_words(
    alloc: Global,
    words: &[String],
    text: &[u8],
    rows: &[u8],
    outside: Outside,
) -> Result<Written, AllocError> {
    let mut shelf = shelf(alloc, text, rows, outside.loads)?;
    let mut out = MemSink::new(alloc, outside.puts.to_vec(alloc)?);
    let mut err = MemSink::new(alloc, outside.messages.to_vec(alloc)?);
    let code = annotate(alloc, words, &mut shelf, &mut out, &mut err, &mut Unwatched).code();
    Ok(Written { code, out, err })
}

// The run of a line of words over the files `p` and `f`.
pub(crate) fn run_line(
    alloc: Global,
    line: &str,
    text: &[u8],
    rows: &[u8],
    outside: Outside,
) -> Result<Written, AllocError> {
    let words = words_of(alloc, line)?;
    run_words(alloc, &words, text, rows, outside)
}

// The run of one word over the file `p`, where nothing fails.
pub(crate) fn run_word(alloc: Global, word: &str, text: &[u8]) -> Result<Written, AllocError> {
    let mut words = Vec::new(alloc);
    words.push(String::from_str(alloc, word)?)?;
    run_words(alloc, &words, text, b"", SOUND)
}

// Whether the run of a line over the files `p` and `f` ends with this code, these bytes and this message.
pub(crate) fn ends(
    alloc: Global,
    line: &str,
    files: (&[u8], &[u8]),
    outside: Outside,
    wanted: (u8, &[u8], &[u8]),
) -> bool {
    match run_line(alloc, line, files.0, files.1, outside) {
        Ok(written) => is_as_wanted(&written, wanted.0, wanted.1, wanted.2),
        Err(_) => false,
    }
}

// Options, a program, and its text with annotations.
impl Case for (&str, &[u8], &[u8]) {
    fn is_right(&self, alloc: Global) -> bool {
        ends(alloc, self.0, (self.1, b""), SOUND, (0, self.2, b""))
    }
}

//! The words, read by `clap`.

ghost use Rattle.std.specs.Prelude.{◌≡◌, IfOk, IsErrOf, None, Some, map, string_bytes};
ghost use Rattle.ask_words.specs.Request.{request_of, request_text, wants_progress};

use crate::commands::command_line;
use crate::request::{Request, progress_in, request_in};
use clap::error::ErrorKind;
use std::alloc::{AllocError, Global};

/// Why the words give no request.
#[derive(Clone, Copy, Debug, PartialEq, Eq)]
pub enum WordsFault {
    /// They aren't a command.
    Usage,
    /// There was no memory to read them.
    NoMemory,
}

impl From<AllocError> for WordsFault {
    ghost use Rattle.ask_words.specs.declared.words.WordsFault.TheVariants.{NoMemory};

    ghost from_gives = { λ _ fault. fault ≡ NoMemory };

    fn from(_error: AllocError) -> WordsFault {
        WordsFault::NoMemory
    }
}

/// Reads the words after the program's own name: the request that they make, or `Usage` where they
/// make none.
///
/// They are read as `clap` reads them: options stand in any order, `--domain zones` and
/// `--domain=zones` are the same, `--` ends the options, and no option is given twice. A request for
/// help or for a version is no command.
pub fn read_words<'a>(alloc: Global, words: &'a [String]) -> Result<Request<&'a str>, WordsFault>
    ensures ok { IfOk result (λ request.
        request_of (map string_bytes words.entry.now) ≡ Some (request_text request)) }
    ensures usage { IsErrOf result WordsFault.Usage
        → request_of (map string_bytes words.entry.now) ≡ None }
{
    let command = command_line(alloc)?;
    match command.try_get_matches_from(words) {
        Ok(matches) => request_in(&matches).ok_or(WordsFault::Usage),
        Err(error) => match error.kind() {
            ErrorKind::OutOfMemory => Err(WordsFault::NoMemory),
            _ => Err(WordsFault::Usage),
        },
    }
}

/// Whether the words ask that the progress of their command is told: rounds, turns and pivots (docs/FORMATS.md, "Progress"). What
/// they ask for beside it is the same with this option and without it.
///
/// # Errors
///
/// There was no memory.
pub fn wants_progress(alloc: Global, words: &[String]) -> Result<bool, AllocError>
    ensures { IfOk result (λ wants. wants ≡ wants_progress (map string_bytes words.now)) }
{
    let parser = command_line(alloc)?;
    match parser.try_get_matches_from(words) {
        Ok(matches) => Ok(progress_in(&matches)),
        Err(error) => match error.kind() {
            ErrorKind::OutOfMemory => Err(AllocError),
            _ => Ok(false),
        },
    }
}

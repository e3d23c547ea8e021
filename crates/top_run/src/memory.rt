//! The top call over files and bytes in memory.

ghost use Rattle.std.specs.Prelude.{◌≡◌, Some, map, string_bytes};
ghost use Rattle.base_files.specs.Files.{Contents};
ghost use Rattle.top_answer.specs.Answers.{IsAnsweredBy, Ends, IsAnswer, IsOutput};
ghost use Rattle.top_answer.specs.Commands.{command_of};
ghost use Rattle.top_run.specs.Memory.{InMemory, contents_for};
ghost use Rattle.top_status.specs.declared.status.Status.{Status as StatusValue};

use crate::program::run;
use base_files::{PlainShelf, PlainSink, Shelf, Sink};
use base_watch::Unwatched;
use std::alloc::Global;
use top_answer::{Exact, Meaning};
use top_status::Status;

/// What `run` does over files and bytes in memory. There no file fails that the shelf has, and no put fails: each ending of the words over
/// these files is answered wherever there is memory, but for what exceeds exact work in place of one that improvements decide.
pub fn run_in_memory<L: Sink>(
    alloc: Global,
    words: &[String],
    shelf: &mut PlainShelf,
    out: &mut PlainSink,
    err: &mut L,
) -> Status
    // Sound: the answer is one to the words and to the contents of these files, and so is what is put.
    ensures answer { (files : Contents) → ⟦<PlainShelf as Shelf>⟧.files shelf.old ≡ Some files
        → IsAnswer (command_of ⟦<Exact as Meaning>⟧.means) (map string_bytes words.now) (contents_for files (map string_bytes words.now))
        result }
    ensures output { (files : Contents) → ⟦<PlainShelf as Shelf>⟧.files shelf.old ≡ Some files
        → InMemory (IsOutput (command_of ⟦<Exact as Meaning>⟧.means) (map string_bytes words.now)
        (contents_for files (map string_bytes words.now))) result
        (⟦<PlainSink as Sink>⟧.held out.old) (⟦<PlainSink as Sink>⟧.held out.new) }

    // Complete: the ending that stands is answered, but for want of memory, or what exceeds exact work.
    ensures complete { (files : Contents) (ending : StatusValue) → ⟦<PlainShelf as Shelf>⟧.files shelf.old ≡ Some files
        → Ends (command_of ⟦<Exact as Meaning>⟧.means) (map string_bytes words.now) (contents_for files (map string_bytes words.now)) ending
        → IsAnsweredBy (command_of ⟦<Exact as Meaning>⟧.means) (map string_bytes words.now)
        (contents_for files (map string_bytes words.now))
        ending result }
{
    run(alloc, words, shelf, out, err, &mut Unwatched)
}

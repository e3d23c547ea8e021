//! The answer to words over the files that they name, as they are loaded.

ghost use Rattle.std.specs.Prelude.{◌≡◌, ◌⊎◌, [], false, IfOk, Some, None, map, string_bytes};
ghost use Rattle.ask_files.specs.Files.{texts_of};
ghost use Rattle.ask_files.specs.Loads.{contents_of};
ghost use Rattle.ask_words.specs.Request.{request_of, request_text, wants_progress};
ghost use Rattle.base_files.specs.Loads.{loaded_files};
ghost use Rattle.top_run.specs.Parts.{IsAnswerOver, IsAnswerTo, IsRequestLoaded};
ghost use Rattle.top_run.specs.Progress.{IsUntold};
ghost use Rattle.top_run.specs.Seen.{shelf_with};

use crate::interface::Program;
use ask_files::{load_files, request_files};
use ask_words::{Request, WordsFault, wants_progress};
use base_files::{Load, Shelf};
use base_watch::{Unwatched, Watch};
use std::alloc::{AllocError, Global};
use top_answer::{Answer, plain_answer};
use top_status::Status;

// What these loads gave.
fn contents_of<'a>(alloc: Global, loads: &'a [Load]) -> Result<Vec<&'a [u8]>, AllocError>
    ensures { IfOk result (λ contents. texts_of contents.items ≡ contents_of (loaded_files loads.entry.now)) }
{
    let mut contents = Vec::new(alloc);
    for load in loads {
        contents.push(load.bytes.as_slice())?;
    }
    Ok(contents)
}

// The answer for want of memory.
fn answer_memory<P: Program>(alloc: Global, words: &[String], loads: &[Load]) -> Answer
    ensures status { result.status ≡ Status.Memory }
    ensures answer { IsAnswerTo P.commands P.means (map string_bytes words.now)
        (contents_of (loaded_files loads.now)) result.status result.bytes.items result.message }
{
    plain_answer(alloc, Status::Memory)
}

// Whether the words ask that progress is told. Without memory for them it isn't.
fn tells(alloc: Global, words: &[String]) -> bool
    ensures { wants_progress (map string_bytes words.now) ≡ false → result ≡ false }
{
    match wants_progress(alloc, words) {
        Ok(wants) => wants,
        Err(_) => false,
    }
}

// The answer of the program, which tells its progress or doesn't.
fn answer_told<P: Program, W: Watch>(
    alloc: Global,
    words: &[String],
    contents: &[&[u8]],
    told: bool,
    watch: &mut W,
) -> Answer
    requires { P.takes (map string_bytes words.now) }
    ensures answer { IsAnswerTo P.commands P.means (map string_bytes words.now)
        (texts_of contents.now) result.status result.bytes.items result.message }
    ensures untold { told ≡ false → watch.new ≡ watch.old }
{
    if told {
        P::answer(alloc, words, contents, watch)
    } else {
        P::answer(alloc, words, contents, &mut Unwatched)
    }
}

// The answer to words over these loads.
fn answer_loads<P: Program, W: Watch>(
    alloc: Global,
    words: &[String],
    loads: &[Load],
    watch: &mut W,
) -> Answer
    requires { P.takes (map string_bytes words.now) }
    ensures answer { IsAnswerTo P.commands P.means (map string_bytes words.now)
        (contents_of (loaded_files loads.now)) result.status result.bytes.items result.message }
    ensures untold { IsUntold (map string_bytes words.now) watch.old watch.new }
{
    match contents_of(alloc, loads) {
        Ok(contents) => { answer_told::<P, W>(alloc, words, &contents, tells(alloc, words), watch) }
        Err(_) => answer_memory::<P>(alloc, words, loads),
    }
}

// Loads the files of a request.
fn load_request<S: Shelf>(
    alloc: Global,
    request: Request<&str>,
    shelf: &mut S,
) -> Result<(), AllocError>
    ensures { IsRequestLoaded (request_text request.entry)
        (shelf_with (S.files shelf.old) (S.loads shelf.old) (S.faults shelf.old) (S.last_failed shelf.old))
        (shelf_with (S.files shelf.new) (S.loads shelf.new) (S.faults shelf.new) (S.last_failed shelf.new)) result }
{
    let files = request_files(alloc, request)?;
    load_files(shelf, &files)
}

// The answer to the request of the words over its files, as they are loaded.
pub(crate) fn answer_request<P: Program, S: Shelf, W: Watch>(
    alloc: Global,
    words: &[String],
    request: Request<&str>,
    shelf: &mut S,
    watch: &mut W,
) -> Answer
    requires takes { P.takes (map string_bytes words.now) }
    requires asked { request_of (map string_bytes words.now) ≡ Some (request_text request) }
    ensures answer { IsAnswerOver P.commands P.means (map string_bytes words.now)
        (shelf_with (S.files shelf.old) (S.loads shelf.old) (S.faults shelf.old) (S.last_failed shelf.old))
        (shelf_with (S.files shelf.new) (S.loads shelf.new) (S.faults shelf.new) (S.last_failed shelf.new))
        result.status result.bytes.items result.message }
    ensures untold { IsUntold (map string_bytes words.now) watch.old watch.new }
{
    let before = shelf.loaded().len();
    match load_request(alloc, request, shelf) {
        Ok(()) => answer_loads::<P, W>(alloc, words, &shelf.loaded()[before..], watch),
        Err(_) => answer_memory::<P>(alloc, words, &shelf.loaded()[before..]),
    }
}

// The answer to words whose request isn't read.
pub(crate) fn answer_unasked<P: Program>(
    alloc: Global,
    words: &[String],
    fault: WordsFault,
) -> Answer
    requires takes { P.takes (map string_bytes words.now) }
    requires unasked { fault ≡ WordsFault.Usage → request_of (map string_bytes words.now) ≡ None }
    ensures cause { (request_of (map string_bytes words.now) ≡ None) ⊎ (result.status ≡ Status.Memory) }
    ensures answer { IsAnswerTo P.commands P.means (map string_bytes words.now) []
        result.status result.bytes.items result.message }
{
    match fault {
        WordsFault::Usage => P::answer(alloc, words, &[], &mut Unwatched),
        WordsFault::NoMemory => plain_answer(alloc, Status::Memory),
    }
}

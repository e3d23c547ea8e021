//! The top call.

ghost use Rattle.std.specs.Prelude.{◌≡◌, IsTrue, List, ℕ, Some, map, string_bytes};
ghost use Rattle.ask_files.specs.Files.{Request as NamedRequest};
ghost use Rattle.ask_words.specs.Request.{request_of};
ghost use Rattle.top_answer.specs.Commands.{command_of};
ghost use Rattle.top_run.specs.Lines.{pieces_of};
ghost use Rattle.top_run.specs.Parts.{IsAnswerOver, PutsAnswer};
ghost use Rattle.top_run.specs.Progress.{IsUntold};
ghost use Rattle.top_run.specs.Run.{IsRun};
ghost use Rattle.top_run.specs.Seen.{shelf_with, sink_with};
ghost use Rattle.top_status.specs.Status.{has_output};

use crate::interface::{Program, Tmpl};
use crate::loading::{answer_request, answer_unasked};
use crate::messages::tell;
use crate::output::{Pieces, pieces_of, put_pieces};
use ask_words::read_words;
use base_files::{Shelf, Sink};
use base_watch::Watch;
use std::alloc::Global;
use top_answer::{Answer, Exact, Meaning, plain_answer};
use top_status::Status;

// An answer, and the pieces in which its bytes are put.
#[derive(Drop)]
struct Piecewise {
    answer: Answer,
    pieces: Pieces,
}

// The answer to the words over the files that they name, as they are loaded.
fn answer_words<P: Program, S: Shelf, W: Watch>(
    alloc: Global,
    words: &[String],
    shelf: &mut S,
    watch: &mut W,
) -> Piecewise
    requires { P.takes (map string_bytes words.now) }
    ensures answer { IsAnswerOver P.commands P.means (map string_bytes words.now)
        (shelf_with (S.files shelf.old) (S.loads shelf.old) (S.faults shelf.old) (S.last_failed shelf.old))
        (shelf_with (S.files shelf.new) (S.loads shelf.new) (S.faults shelf.new) (S.last_failed shelf.new))
        result.answer.status result.answer.bytes.items result.answer.message }
    ensures pieces { (request : NamedRequest) → request_of (map string_bytes words.now) ≡ Some request
        → IsTrue (has_output result.answer.status) → result.pieces ≡ pieces_of request }
    ensures untold { IsUntold (map string_bytes words.now) watch.old watch.new }
{
    match read_words(alloc, words) {
        Ok(request) => Piecewise {
            answer: answer_request::<P, S, W>(alloc, words, request, shelf, watch),
            pieces: pieces_of(request),
        },
        Err(fault) => Piecewise {
            answer: answer_unasked::<P>(alloc, words, fault),
            pieces: Pieces::Lines,
        },
    }
}

// Puts the bytes of an answer that has an output, and gives the answer that a run ends with: another one where they aren't put.
fn put_answer<K: Sink>(alloc: Global, given: Piecewise, out: &mut K) -> Answer
    ensures { PutsAnswer given.pieces given.answer.status given.answer.bytes.items given.answer.message
        (sink_with (K.held out.old) (K.taken out.old) (K.faults out.old) (K.spare out.old))
        (sink_with (K.held out.new) (K.taken out.new) (K.faults out.new) (K.spare out.new)) result.status result.message }
{
    let Piecewise { answer, pieces } = given;
    if !answer.status.has_output() {
        return answer;
    }
    match put_pieces(pieces, &answer.bytes, out) {
        Status::Done => answer,
        status => plain_answer(alloc, status),
    }
}

/// Does all that a program does, and says how it ended. `words` are those after the program's own name. The files that they name are
/// loaded, each once, up to the first that isn't read; their contents are answered as the program answers them; what is written goes to
/// `out`, and the message of every other ending to `err`.
///
/// Where the words ask for progress, `watch` is told of rounds, turns and pivots while the program answers, before anything is put.
///
/// The order of causes is that of the answer. `Memory` may come at any time, and takes the place of any other answer; `Write` takes that of
/// `Done` and of `Open`.
pub fn run_as<P: Program, S: Shelf, K: Sink, L: Sink, W: Watch>(
    alloc: Global,
    words: &[String],
    shelf: &mut S,
    out: &mut K,
    err: &mut L,
    watch: &mut W,
) -> Status
    requires { P.takes (map string_bytes words.now) }
    ensures run { IsRun P.commands P.means (map string_bytes words.now)
        (shelf_with (S.files shelf.old) (S.loads shelf.old) (S.faults shelf.old) (S.last_failed shelf.old))
        (shelf_with (S.files shelf.new) (S.loads shelf.new) (S.faults shelf.new) (S.last_failed shelf.new))
        (sink_with (K.held out.old) (K.taken out.old) (K.faults out.old) (K.spare out.old))
        (sink_with (K.held out.new) (K.taken out.new) (K.faults out.new) (K.spare out.new))
        (sink_with (L.held err.old) (L.taken err.old) (L.faults err.old) (L.spare err.old))
        (sink_with (L.held err.new) (L.taken err.new) (L.faults err.new) (L.spare err.new)) result }
    ensures untold { IsUntold (map string_bytes words.now) watch.old watch.new }
{
    let answered = answer_words::<P, S, W>(alloc, words, shelf, watch);
    let ended = put_answer(alloc, answered, out);
    tell(&ended.status, &ended.message, err);
    ended.status
}

/// What a run of a program is where there is no memory for its words: nothing is loaded and nothing is put, but for the message.
pub fn run_without_words<P: Program, S: Shelf, K: Sink, L: Sink>(
    alloc: Global,
    _shelf: &mut S,
    _out: &mut K,
    err: &mut L,
) -> Status
    ensures { (words : List (List ℕ)) → IsRun P.commands P.means words
        (shelf_with (S.files _shelf.old) (S.loads _shelf.old) (S.faults _shelf.old) (S.last_failed _shelf.old))
        (shelf_with (S.files _shelf.new) (S.loads _shelf.new) (S.faults _shelf.new) (S.last_failed _shelf.new))
        (sink_with (K.held _out.old) (K.taken _out.old) (K.faults _out.old) (K.spare _out.old))
        (sink_with (K.held _out.new) (K.taken _out.new) (K.faults _out.new) (K.spare _out.new))
        (sink_with (L.held err.old) (L.taken err.old) (L.faults err.old) (L.spare err.old))
        (sink_with (L.held err.new) (L.taken err.new) (L.faults err.new) (L.spare err.new)) result }
{
    let answer = plain_answer(alloc, Status::Memory);
    tell(&answer.status, &answer.message, err);
    answer.status
}

/// Does all that the program does, and says how it ended. `words` are those after the program's own name. The files that they name are
/// loaded, each once, up to the first that isn't read; their contents are answered as `answer` says; a report, a certificate or a summary
/// goes to `out`, and the message of every other ending to `err` (docs/FORMATS.md, "Messages").
///
/// Where the words ask for progress, `watch` is told of rounds, turns and pivots while it answers, before anything is put. `main` hands
/// over a `Teller` of the stream of messages, so that the message stays the last line there; nothing else depends on it.
///
/// The order of causes is that of `answer`. `Memory` may come at any time, and takes the place of any other answer; `Write` takes that of
/// `Done` and of `Open`.
pub fn run<S: Shelf, K: Sink, L: Sink, W: Watch>(
    alloc: Global,
    words: &[String],
    shelf: &mut S,
    out: &mut K,
    err: &mut L,
    watch: &mut W,
) -> Status
    ensures run { IsRun (command_of ⟦<Exact as Meaning>⟧.means) ⟦<Exact as Meaning>⟧.means (map string_bytes words.now)
        (shelf_with (S.files shelf.old) (S.loads shelf.old) (S.faults shelf.old) (S.last_failed shelf.old))
        (shelf_with (S.files shelf.new) (S.loads shelf.new) (S.faults shelf.new) (S.last_failed shelf.new))
        (sink_with (K.held out.old) (K.taken out.old) (K.faults out.old) (K.spare out.old))
        (sink_with (K.held out.new) (K.taken out.new) (K.faults out.new) (K.spare out.new))
        (sink_with (L.held err.old) (L.taken err.old) (L.faults err.old) (L.spare err.old))
        (sink_with (L.held err.new) (L.taken err.new) (L.faults err.new) (L.spare err.new)) result }
    ensures untold { IsUntold (map string_bytes words.now) watch.old watch.new }
{
    run_as::<Tmpl, S, K, L, W>(alloc, words, shelf, out, err, watch)
}

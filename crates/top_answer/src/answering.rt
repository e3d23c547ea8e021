//! The answer to words and to the contents of the files that they name.

ghost use Rattle.std.specs.Prelude.{List, map, string_bytes};
ghost use Rattle.ask_words.specs.Request.{request_text};
ghost use Rattle.top_answer.specs.Answers.{IsAnsweredBy, Ends, Holds, IsAnswer, IsMessage, IsOutput};
ghost use Rattle.ask_files.specs.Files.{texts_of};
ghost use Rattle.top_answer.specs.Commands.{command_of};
ghost use Rattle.top_answer.specs.Outcomes.{AnswersRequest, AnswersWords, NamesPlace, Says};
ghost use Rattle.top_status.specs.declared.status.Status.{Status as StatusValue};
ghost use Rattle.top_texts.specs.Exact.{exact};

use crate::meaning::{Exact, Meaning};
use crate::outcome::{named_text, outcome_of};
use crate::reply::{Answer, plain_answer, with_line};
use ask_files::{first_unread, with_texts};
use ask_words::{Request, WordsFault, read_words};
use base_watch::Watch;
use std::alloc::Global;
use top_status::{Status, answer_line};

// The answer to the texts of a command.
fn answer_texts<W: Watch>(alloc: Global, asked: Request<&[u8]>, watch: &mut W) -> Answer
    requires { (command_of exact (request_text asked)).in_limits }
    ensures says { Says (command_of exact (request_text asked.entry)) result.status result.bytes.items }
    ensures names { NamesPlace (request_text asked.entry) result.status result.message }
{
    let outcome = outcome_of(alloc, asked, watch);
    let line = answer_line(named_text(asked, &outcome.status), &outcome.status);
    with_line(outcome, line)
}

// The answer to a request over the contents of its files.
fn answer_request<W: Watch>(
    alloc: Global,
    request: Request<&str>,
    contents: &[&[u8]],
    watch: &mut W,
) -> Answer
    requires { (command_of exact (request_text request)).in_range }
    ensures { AnswersRequest (command_of exact) (request_text request.entry) (texts_of contents.now) result.status result.bytes.items
        result.message }
{
    match first_unread(alloc, request, contents) {
        Ok(None) => answer_texts(alloc, with_texts(request, contents), watch),
        Ok(Some(cause)) => plain_answer(alloc, Status::Read(cause)),
        Err(_) => plain_answer(alloc, Status::Memory),
    }
}

// The answer to words and to the contents of the files that they name.
fn answer_words<W: Watch>(
    alloc: Global,
    words: &[String],
    contents: &[&[u8]],
    watch: &mut W,
) -> Answer
    ensures { AnswersWords (command_of exact) (map string_bytes words.now) (texts_of contents.now) result.status result.bytes.items
        result.message }
{
    match read_words(alloc, words) {
        Ok(request) => answer_request(alloc, request, contents, watch),
        Err(WordsFault::Usage) => plain_answer(alloc, Status::Usage),
        Err(WordsFault::NoMemory) => plain_answer(alloc, Status::Memory),
    }
}

/// What the program answers to `words`, those after its own name, and to the contents of the files that they name, in the order in
/// which `files_of` lists them. Where a file's load failed, the contents end before it; of a file that is too long, one byte more
/// than `most_bytes` is enough. Further contents change nothing. Nothing is read, and nothing is written.
///
/// The first cause in this order decides: the words; the program's file, then the file of rows or the certificate, and then that of the
/// claims; the tokens, the functions of the file, the one that is asked about, its points and edges. An analysis goes on with the rows,
/// the unknowns, the composition of the edges, and the rounds; a check with the form of the certificate, its rows, the unknowns, the
/// composition of the edges, and the tests; an upgrade reads no program, and has the form of the certificate alone; a proof of
/// claims goes on from the unknowns with the faults of the claims, and from the rounds with the problems of the claims; a transition
/// system has the faults of its text and of its edges, and goes on as an analysis does; equations have the faults of their text, the
/// composition of the edges, and the rounds; the points of a program end with its edges, the names of functions with the functions of
/// the file. `Memory` may come at any time, and takes the place of any other answer. A wide operation of an analysis or of a proof, or a
/// joint problem of its rounds that is too large, may take the place of a report and of improvements that are spent.
///
/// While it works, `watch` is told of rounds, turns and pivots. No clause mentions it: what is answered is said of the words and the
/// contents alone, and `ending_is_one` and `output_is_one`, by which there is one ending and one output, speak of no watch.
pub fn answer<W: Watch>(
    alloc: Global,
    words: &[String],
    contents: &[&[u8]],
    watch: &mut W,
) -> Answer
    // Sound: what is answered is so of the words and of these contents, and so is what is written. A report is
    // that of the least vector, which holds in every run by C of the function or along the edges of the transition system, with the number
    // of improvements by the policy. The values of equations equal their right sides, and are at most all values above the equations.
    ensures answer { IsAnswer (command_of ⟦<Exact as Meaning>⟧.means) (map string_bytes words.now) (texts_of contents.now) result.status }
    ensures output { Holds (IsOutput (command_of ⟦<Exact as Meaning>⟧.means) (map string_bytes words.now) (texts_of contents.now))
        result.status
        result.bytes.items }

    // Complete: the ending that stands is answered, but for want of memory, or an excess that stands in its place.
    ensures complete { (ending : StatusValue)
        → Ends (command_of ⟦<Exact as Meaning>⟧.means) (map string_bytes words.now) (texts_of contents.now) ending
        → IsAnsweredBy (command_of ⟦<Exact as Meaning>⟧.means) (map string_bytes words.now) (texts_of contents.now) ending result.status }

    // The message names the line and the unknown of the cause.
    ensures message { IsMessage ⟦<Exact as Meaning>⟧.means (map string_bytes words.now) (texts_of contents.now) result.status
        result.message }
{
    answer_words(alloc, words, contents, watch)
}

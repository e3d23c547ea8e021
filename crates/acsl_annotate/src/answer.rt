//! The annotated text of a file, or why there is none: a pure function, with no file and no stream.

ghost use Rattle.std.specs.Prelude.{◌≡◌, ◌≤◌, ◌⊎◌, List, ℕ, [], length, map, string_bytes};
ghost use Rattle.base_limits.specs.declared.limits.TheConstants.{MOST_IMPROVEMENTS, MOST_PROGRAM_BYTES};
ghost use Rattle.ask_files.specs.Files.{texts_of};
ghost use Rattle.ask_words.specs.Request.{analysis_text, source_text};
ghost use Rattle.ask_words.specs.declared.format.Format.{Format as FormatValue};
ghost use Rattle.ask_words.specs.declared.request.Domain.{Domain};
ghost use Rattle.ask_words.specs.declared.request.Policy.{Policy as PolicyValue};
ghost use Rattle.ask_words.specs.declared.request.Purpose.TheVariants.{Report};
ghost use Rattle.ask_words.specs.declared.request.Request.TheVariants.{Analyse};
ghost use Rattle.top_answer.specs.Answers.{IsAnsweredBy, Ends, Holds, IsAnswer, IsMessage, IsOutput};
ghost use Rattle.top_answer.specs.Commands.{IsWithin};
ghost use Rattle.top_answer.specs.Outcomes.{AnswersRequest, AnswersWords, NamesPlace, Says};
ghost use Rattle.top_status.specs.Messages.{message_of};
ghost use Rattle.top_status.specs.declared.status.Status.{Status as StatusValue};
ghost use Rattle.top_texts.specs.Analyses.{IsFoundIn};
ghost use Rattle.top_texts.specs.Exact.{exact};
ghost use Rattle.acsl_annotate.specs.Annotated.{annotating};
ghost use Rattle.acsl_annotate.specs.Messages.{said_for, saying};
ghost use Rattle.acsl_annotate.specs.Words.{IsSolve, as_solve};

use crate::usage::usage_line;
use crate::words::{read_analysis, solve_words};
use crate::write::annotated_text;
use ask_files::{analysis_with, first_unread};
use ask_words::{Analysis, Format, Purpose, Request, Source, WordsFault};
use base_watch::Watch;
use std::alloc::Global;
use top_answer::{Answer, Exact, Meaning, plain_answer};
use top_status::{Ending, Message, Status, make_message};
use top_texts::{LeastBounds, least_on};

// The answer of a text that was written.
fn done_answer(bytes: Vec<u8>) -> Answer
    ensures status { result.status ≡ Status.Done }
    ensures bytes { result.bytes.items ≡ bytes.items }
    ensures message { result.message ≡ message_of 0 0 Status.Done }
{
    let message = make_message(0, 0, &Status::Done);
    Answer {
        status: Status::Done,
        bytes,
        message,
    }
}

// The answer of an ending that has no text.
fn refused_answer(alloc: Global, ending: Ending) -> Answer
    ensures status { result.status ≡ ending.status }
    ensures bytes { result.bytes.items ≡ [] }
    ensures message { result.message ≡ message_of ending.line ending.rows ending.status }
{
    let message = make_message(ending.line, ending.rows, &ending.status);
    Answer {
        status: ending.status,
        bytes: Vec::new(alloc),
        message,
    }
}

// The annotated text of a program whose least bounds were found.
fn written(alloc: Global, program: Source<&[u8]>, least: &LeastBounds) -> Answer
    requires short { length program.text.now ≤ MOST_PROGRAM_BYTES }
    requires found { (rows : Domain (List ℕ)) × (policy : PolicyValue) × (limit : ℕ)
        × IsFoundIn (source_text program) rows policy limit least.now }
    ensures says { (analysis : Analysis (List ℕ)) (format : FormatValue) → analysis.program ≡ source_text program.entry
        → IsFoundIn analysis.program analysis.domain analysis.policy analysis.improvements least.now
        → Says (annotating exact (Analyse Report analysis format)) result.status result.bytes.items }
    ensures message { result.message ≡ message_of 0 0 result.status }
    ensures ends { (result.status ≡ Status.Done) ⊎ (result.status ≡ Status.Memory) }
{
    match annotated_text(alloc, program, least) {
        Ok(bytes) => done_answer(bytes),
        Err(_) => plain_answer(alloc, Status::Memory),
    }
}

// The annotated text of what an analysis reads.
fn annotated<W: Watch>(alloc: Global, analysis: Analysis<&[u8]>, watch: &mut W) -> Answer
    requires { IsWithin MOST_PROGRAM_BYTES (analysis_text analysis) }
    ensures says { (format : FormatValue)
        → Says (annotating exact (Analyse Report (analysis_text analysis.entry) format)) result.status result.bytes.items }
    ensures names { (format : FormatValue)
        → NamesPlace (Analyse Report (analysis_text analysis.entry) format) result.status result.message }
{
    match least_on(
        alloc,
        analysis.program,
        analysis.domain,
        analysis.policy,
        analysis.improvements,
        watch,
    ) {
        Ok(least) => written(alloc, analysis.program, &least),
        Err(ending) => refused_answer(alloc, ending),
    }
}

// The answer to an analysis over the contents of its files, whatever the format: an annotated text has one.
fn annotation_of<W: Watch>(
    alloc: Global,
    analysis: Analysis<&str>,
    contents: &[&[u8]],
    watch: &mut W,
) -> Answer
    requires { analysis.improvements ≤ MOST_IMPROVEMENTS }
    ensures { (format : FormatValue) → AnswersRequest (annotating exact) (Analyse Report (analysis_text analysis.entry) format)
        (texts_of contents.now) result.status result.bytes.items result.message }
{
    let request = Request::Analyse {
        purpose: Purpose::Report,
        analysis,
        format: Format::Text,
    };
    match first_unread(alloc, request, contents) {
        Ok(None) => annotated(alloc, analysis_with(analysis, contents), watch),
        Ok(Some(cause)) => plain_answer(alloc, Status::Read(cause)),
        Err(_) => plain_answer(alloc, Status::Memory),
    }
}

// The answer to words as those of `solve`, with the usage line of the program that reports.
fn annotation_by<W: Watch>(
    alloc: Global,
    words: &[String],
    contents: &[&[u8]],
    watch: &mut W,
) -> Answer
    requires { IsSolve (map string_bytes words.now) }
    ensures { AnswersWords (annotating exact) (map string_bytes words.now) (texts_of contents.now) result.status
        result.bytes.items result.message }
{
    match read_analysis(alloc, words) {
        Ok(analysis) => annotation_of(alloc, analysis, contents, watch),
        Err(WordsFault::Usage) => plain_answer(alloc, Status::Usage),
        Err(WordsFault::NoMemory) => plain_answer(alloc, Status::Memory),
    }
}

// The same answer, but for the line that says which words are a program and its options.
fn with_usage(answer: Answer) -> Answer
    ensures status { result.status ≡ answer.status }
    ensures bytes { result.bytes.items ≡ answer.bytes.items }
    ensures message { result.message ≡ said_for answer.status answer.message }
{
    match answer.status {
        Status::Usage => Answer {
            status: answer.status,
            bytes: answer.bytes,
            message: Message::of(usage_line()),
        },
        _ => answer,
    }
}

/// The answer to words as those of `solve`.
pub(crate) fn annotation_as_solve<W: Watch>(
    alloc: Global,
    words: &[String],
    contents: &[&[u8]],
    watch: &mut W,
) -> Answer
    requires { IsSolve (map string_bytes words.now) }
    ensures answer { IsAnswer (annotating ⟦<Exact as Meaning>⟧.means) (map string_bytes words.now) (texts_of contents.now) result.status }
    ensures output { Holds (IsOutput (annotating ⟦<Exact as Meaning>⟧.means) (map string_bytes words.now) (texts_of contents.now))
        result.status result.bytes.items }
    ensures complete { (ending : StatusValue) → Ends (annotating ⟦<Exact as Meaning>⟧.means) (map string_bytes words.now)
        (texts_of contents.now) ending
        → IsAnsweredBy (annotating ⟦<Exact as Meaning>⟧.means) (map string_bytes words.now) (texts_of contents.now) ending result.status }
    ensures message { IsMessage (saying ⟦<Exact as Meaning>⟧.means) (map string_bytes words.now) (texts_of contents.now) result.status
        result.message }
{
    with_usage(annotation_by(alloc, words, contents, watch))
}

/// What the program answers to `words`, a program's name and the options of `solve` but the format, and to the contents of the files that
/// they name: those that `top_answer::answer` has for `solve`. Nothing is read, and nothing is written.
///
/// The causes, and their order, are those of `top_answer::answer` for `solve` and these words. `watch` is told as there, and no clause
/// mentions it.
pub fn annotation<W: Watch>(
    alloc: Global,
    words: &[String],
    contents: &[&[u8]],
    watch: &mut W,
) -> Answer
    // Sound: what is answered is so, as an answer of `solve`. What is written is the text of the file with the annotations of the least
    // vector of the function that is asked about, over the template; each is true in every run, and without them it is the text again.
    ensures answer { IsAnswer (annotating ⟦<Exact as Meaning>⟧.means) (as_solve (map string_bytes words.now)) (texts_of contents.now)
        result.status }
    ensures output { Holds (IsOutput (annotating ⟦<Exact as Meaning>⟧.means) (as_solve (map string_bytes words.now))
        (texts_of contents.now)) result.status result.bytes.items }

    // Complete: the ending that `solve` has is answered, but for want of memory, or what exceeds exact work.
    ensures complete { (ending : StatusValue) → Ends (annotating ⟦<Exact as Meaning>⟧.means) (as_solve (map string_bytes words.now))
        (texts_of contents.now) ending
        → IsAnsweredBy (annotating ⟦<Exact as Meaning>⟧.means) (as_solve (map string_bytes words.now)) (texts_of contents.now) ending
        result.status }

    // The message names the line and the unknown of the cause.
    ensures message { IsMessage (saying ⟦<Exact as Meaning>⟧.means) (as_solve (map string_bytes words.now)) (texts_of contents.now)
        result.status result.message }
{
    match solve_words(alloc, words) {
        Ok(all) => annotation_as_solve(alloc, &all, contents, watch),
        Err(_) => plain_answer(alloc, Status::Memory),
    }
}

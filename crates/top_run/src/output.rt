//! How a run puts its output: a report or a summary one line at a time, a certificate in one piece.

ghost use Rattle.std.specs.Prelude.{◌≡◌, ◌==◌, ◌∷◌, ◌≤◌, ◌<◌, ◌+◌, IfOk, drop, length, take};
ghost use Rattle.std.specs.List.{position};
ghost use Rattle.ask_words.specs.Request.{request_text};
ghost use Rattle.base_files.specs.Puts.{AddsPieces, HasPutCause, Puts, as_pieces};
ghost use Rattle.top_run.specs.Lines.{cut_by, lines_of, pieces_of};
ghost use Rattle.top_run.specs.Parts.{IsPutBy, status_of};
ghost use Rattle.top_run.specs.Seen.{sink_with};

use ask_words::{Purpose, Request};
use base_files::{PutFault, Sink};
use top_status::Status;

/// In which pieces bytes are put.
#[derive(Clone, Copy, Debug)]
pub(crate) enum Pieces {
    /// Each line with its line feed.
    Lines,
    /// All in one.
    Whole,
}

// The pieces of what a request puts.
pub(crate) fn pieces_of(request: Request<&str>) -> Pieces
    ensures { result ≡ pieces_of (request_text request.entry) }
{
    match request {
        Request::Analyse {
            purpose: Purpose::Certificate,
            ..
        }
        | Request::Upgrade { .. } => Pieces::Whole,
        _ => Pieces::Lines,
    }
}

// The place of the first line feed.
fn line_feed(text: &[u8]) -> Option<usize>
    ensures { result ≡ position (λ byte. byte == 10) text.now }
{
    text.iter().position(|byte| *byte == b'\n')
}

// The length of the first line with its line feed, or of the whole text where no line feed stands.
fn first_line(text: &[u8]) -> usize
    requires { 0 < length text.now }
    ensures some { 0 < result }
    ensures within { result ≤ length text.now }
    ensures cut { lines_of text.now ≡ take result text.now ∷ lines_of (drop result text.now) }
{
    match line_feed(text) {
        Some(place) => place + 1,
        None => text.len(),
    }
}

// How a put ends.
fn put_status(made: Result<(), PutFault>) -> Status
    ensures { result ≡ status_of made }
{
    match made {
        Ok(()) => Status::Done,
        Err(PutFault::Failed) => Status::Write,
        Err(PutFault::NoMemory) => Status::Memory,
    }
}

// Puts the text, each line as one piece with its line feed. What one `put` of the whole text
// promises, this promises too.
fn put_lines<K: Sink>(out: &mut K, text: &[u8]) -> Result<(), PutFault>
    ensures appends { Puts (K.held out.old) (K.held out.new) text.now result }
    ensures cause { HasPutCause (K.faults out.old) (K.faults out.new) (K.spare out.old) text.now result }
    ensures never_falls { K.faults out.old ≤ K.faults out.new }
    ensures spare { K.spare out.old ≤ K.spare out.new + length text.now }
    ensures pieces { IfOk result (λ _. AddsPieces (K.taken out.old) (K.taken out.new) (lines_of text.now)) }
{
    let mut rest = text;
    while !rest.is_empty() {
        let (line, others) = rest.split_at(first_line(rest));
        match out.put(line) {
            Ok(()) => {}
            Err(fault) => return Err(fault),
        }
        rest = others;
    }
    Ok(())
}

// Puts a report, a summary or an annotated text, line by line.
pub(crate) fn put_report<K: Sink>(bytes: &[u8], out: &mut K) -> Status
    ensures { IsPutBy lines_of bytes.now result (sink_with (K.held out.old) (K.taken out.old) (K.faults out.old) (K.spare out.old))
        (sink_with (K.held out.new) (K.taken out.new) (K.faults out.new) (K.spare out.new)) }
{
    put_status(put_lines(out, bytes))
}

// Puts a certificate in one piece.
fn put_certificate<K: Sink>(bytes: &[u8], out: &mut K) -> Status
    ensures { IsPutBy as_pieces bytes.now result (sink_with (K.held out.old) (K.taken out.old) (K.faults out.old) (K.spare out.old))
        (sink_with (K.held out.new) (K.taken out.new) (K.faults out.new) (K.spare out.new)) }
{
    put_status(out.put(bytes))
}

// Puts bytes in these pieces.
pub(crate) fn put_pieces<K: Sink>(pieces: Pieces, bytes: &[u8], out: &mut K) -> Status
    ensures { IsPutBy (cut_by pieces) bytes.now result
        (sink_with (K.held out.old) (K.taken out.old) (K.faults out.old) (K.spare out.old))
        (sink_with (K.held out.new) (K.taken out.new) (K.faults out.new) (K.spare out.new)) }
{
    match pieces {
        Pieces::Lines => put_report(bytes, out),
        Pieces::Whole => put_certificate(bytes, out),
    }
}

//! The lines that tell of long work while it goes on.

ghost use Rattle.std.specs.Prelude.{◌≡◌, ◌≤◌, ◌+◌, ◌++◌, length};
ghost use Rattle.top_status.specs.Events.{event_line, event_text, start_of};

use crate::message::Message;
use crate::message::check::{push_numbered, push_words};

/// What long work has come to (docs/FORMATS.md, "Progress").
#[derive(Clone, Copy, Debug, PartialEq, Eq)]
pub enum Event {
    /// A round begins, numbered from 1; so many bounds have been raised so far.
    Round { number: u32, raised: u32 },
    /// A turn of a round begins, numbered from 0 through the round.
    Turn { round: u32, number: u32 },
    /// The problem of a turn has taken so many pivots.
    Pivots { round: u32, turn: u32, made: u32 },
}

// What stands before a line: what wipes the line before it, or nothing.
fn start_of(rewrites: bool) -> Message
    ensures text { result ≡ start_of rewrites }
    ensures short { length result ≤ 24 }
{
    let mut message = Message::new();
    if rewrites {
        push_words(&mut message, b"\x1b[A\x1b[K");
    }
    message
}

// Adds what is told of an event.
fn push_event(message: &mut Message, event: Event)
    requires room { length message.old ≤ 24 }
    ensures { message.new ≡ message.old ++ event_text event }
{
    match event {
        Event::Round { number, raised } => {
            push_numbered(message, b"round ", number as u64);
            push_numbered(message, b": ", raised as u64);
            push_words(message, b" bounds raised\n");
        }
        Event::Turn { round, number } => {
            push_numbered(message, b"round ", round as u64);
            push_numbered(message, b", turn ", number as u64);
            push_words(message, b"\n");
        }
        Event::Pivots { round, turn, made } => {
            push_numbered(message, b"round ", round as u64);
            push_numbered(message, b", turn ", turn as u64);
            push_numbered(message, b": ", made as u64);
            push_words(message, b" pivots\n");
        }
    }
}

/// The line that tells of an event. On a terminal it may stand in place of the line before it, which it wipes then.
pub fn event_line(event: Event, rewrites: bool) -> Message
    ensures { result ≡ event_line rewrites event }
{
    let mut message = start_of(rewrites);
    push_event(&mut message, event);
    message
}

//! An answer: how the program ends, what it writes, and what it says.

ghost use Rattle.std.specs.Prelude.{◌≡◌, []};
ghost use Rattle.top_status.specs.Messages.{message_of};

use crate::outcome::{Outcome, plain};
use std::alloc::Global;
use top_status::{Message, Status, make_message};

/// What the program answers.
#[derive(Drop)]
pub struct Answer {
    /// How it ends; its exit code is `status.code()`.
    pub status: Status,
    /// What is written to standard output: all of it where the status is `Done` or `Open`, and else nothing.
    pub bytes: Vec<u8>,
    /// What is written to standard error at every other status: a line with its line feed.
    pub message: Message,
}

// An outcome with its message, which names this line.
pub(crate) fn with_line(outcome: Outcome, line: u32) -> Answer
    ensures status { result.status ≡ outcome.status }
    ensures bytes { result.bytes.items ≡ outcome.bytes.items }
    ensures message { result.message ≡ message_of line outcome.rows outcome.status }
{
    let message = make_message(line, outcome.rows, &outcome.status);
    Answer {
        status: outcome.status,
        bytes: outcome.bytes,
        message,
    }
}

/// The answer of a status that has no bytes, and whose message names no place.
pub fn plain_answer(alloc: Global, status: Status) -> Answer
    ensures status { result.status ≡ status }
    ensures bytes { result.bytes.items ≡ [] }
    ensures message { result.message ≡ message_of 0 0 status }
{
    with_line(plain(alloc, status), 0)
}

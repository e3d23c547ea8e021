//! The message of a run that has no output.

ghost use Rattle.std.specs.Prelude.{◌≡◌};
ghost use Rattle.top_run.specs.Messages.{GetsMessage, IsInOnePiece};

use base_files::Sink;
use top_status::{Message, Status};

// Puts the message of an ending, where it has no output. What the stream of messages answers changes nothing.
pub(crate) fn tell<L: Sink>(status: &Status, message: &Message, err: &mut L)
    ensures gets { GetsMessage status.now message.now (L.held err.old) (L.held err.new) (L.faults err.old) (L.faults err.new)
        (L.spare err.old) }
    ensures piece { IsInOnePiece message.now (L.taken err.old) (L.taken err.new) }
{
    if !status.has_output() {
        let _ = err.put(message.bytes());
    }
}

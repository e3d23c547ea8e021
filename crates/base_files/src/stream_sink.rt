//! A writer of std.

ghost use Rattle.std.specs.Prelude.{◌≡◌, ◌≤◌, ◌+◌, ◌-◌, ◌^◌, None, length};
ghost use Rattle.base_files.specs.Puts.{HasPutCause, Puts, Takes};

use crate::count::Count;
use crate::sink::{PutFault, Sink};
use crate::writing::write_whole;
use std::io::Write;

/// A writer of std as a sink. It tells nothing of its bytes, and takes every piece without memory.
#[derive(Drop)]
pub struct StreamSink<W: Write + Drop> {
    writer: W,
    count: Count,
}

impl<W: Write + Drop> StreamSink<W> {
    ghost use Rattle.base_files.specs.StreamSink.{writer_of};

    /// A sink over this writer.
    pub fn new(writer: W) -> StreamSink<W>
        ensures writer { writer_of result ≡ writer }
        ensures faults { ⟦<StreamSink<W> as Sink>⟧.faults result ≡ 0 }
    {
        StreamSink {
            writer,
            count: Count::new(),
        }
    }
}

impl<W: Write + Drop> Sink for StreamSink<W> {
    ghost use Rattle.base_files.specs.StreamSink.{writer_of};

    ghost held = { λ _. None };

    ghost taken = { λ _. None };

    ghost faults = { λ s. s.count.value };

    ghost spare = { λ _. 2 ^ 64 - 1 };

    ghost bounded = { λ s. s.count.bounded };

    fn put(&mut self, piece: &[u8]) -> Result<(), PutFault>
        ensures appends { Puts
            (⟦<StreamSink<W> as Sink>⟧.held self.old) (⟦<StreamSink<W> as Sink>⟧.held self.new) piece.now result }
        ensures takes { Takes
            (⟦<StreamSink<W> as Sink>⟧.taken self.old) (⟦<StreamSink<W> as Sink>⟧.taken self.new) piece.now result }
        ensures cause { HasPutCause
            (⟦<StreamSink<W> as Sink>⟧.faults self.old) (⟦<StreamSink<W> as Sink>⟧.faults self.new)
            (⟦<StreamSink<W> as Sink>⟧.spare self.old) piece.now result }
        ensures never_falls { ⟦<StreamSink<W> as Sink>⟧.faults self.old
            ≤ ⟦<StreamSink<W> as Sink>⟧.faults self.new }
        ensures spare { ⟦<StreamSink<W> as Sink>⟧.spare self.old
            ≤ ⟦<StreamSink<W> as Sink>⟧.spare self.new + length piece.now }
        // Where the writer tells what it holds, the bytes have reached it.
        ensures written { Puts
            (W.contents (writer_of self.old)) (W.contents (writer_of self.new)) piece.now result }
    {
        match write_whole(&mut self.writer, piece) {
            Ok(()) => Ok(()),
            Err(_) => {
                self.count.raise();
                Err(PutFault::Failed)
            }
        }
    }
}

//! The loop that writes a piece.

ghost use Rattle.std.specs.Prelude.{◌≢◌, IfErr};
ghost use Rattle.std.specs.Io.{WritesAtMost};
ghost use Rattle.std.specs.Io.KnownBytes.{WriteAppends};
ghost use Rattle.std.specs.IoError.{error_kind};
ghost use Rattle.base_files.specs.Puts.{Puts};

use crate::sink::PutFault;
use std::io;
use std::io::{ErrorKind, Write};

/// Writes the whole piece and flushes the writer. A write that takes no byte is a fault, and so is a
/// flush that fails.
pub(crate) fn write_whole<W: Write>(writer: &mut W, piece: &[u8]) -> Result<(), PutFault>
    ensures appends { Puts (W.contents writer.old) (W.contents writer.new) piece.now result }
{
    let mut rest = piece;
    while !rest.is_empty() {
        match write_once(writer, rest) {
            Ok(0) => return Err(PutFault::Failed),
            Ok(taken) => rest = &rest[taken..],
            Err(_) => return Err(PutFault::Failed),
        }
    }
    match writer.flush() {
        Ok(()) => Ok(()),
        Err(_) => Err(PutFault::Failed),
    }
}

// One write, made again while it is interrupted.
fn write_once<W: Write>(writer: &mut W, buf: &[u8]) -> io::Result<usize>
    ensures bound { WritesAtMost result buf.now }
    ensures bytes { WriteAppends (W.contents writer.old) (W.contents writer.new) result buf.now }
    ensures retried { IfErr result (λ error. error_kind error ≢ ErrorKind.Interrupted) }
{
    for _ in 0..u64::MAX {
        match writer.write(buf) {
            Ok(count) => return Ok(count),
            Err(error) => {
                if error.kind() != ErrorKind::Interrupted {
                    return Err(error);
                }
            }
        }
    }
    Err(io::Error::from(ErrorKind::TimedOut))
}

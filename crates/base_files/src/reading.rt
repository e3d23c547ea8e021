//! The loop that reads a file.

ghost use Rattle.std.specs.Prelude.{◌≡◌, ◌≢◌, ◌≤◌, ◌<◌, ◌+◌, ◌^◌, IfErr, IfOk, IfSome, OnOk, drop, length, take, vec_len};
ghost use Rattle.std.specs.Io.{ReadsAtMost};
ghost use Rattle.std.specs.Io.KnownBytes.{Consumes, IsAtEnd, ReadConsumes};
ghost use Rattle.std.specs.IoError.{error_kind};
ghost use Rattle.base_files.specs.Reads.{MovesPiece};

use crate::shelf::LoadFault;
use std::alloc::Global;
use std::io;
use std::io::{ErrorKind, Read};

/// How many bytes one read asks for.
const PIECE: usize = 1 << 16;

/// Reads the first `most` bytes that a reader has left. A read of no bytes ends them.
pub(crate) fn read_front<R: Read>(
    alloc: Global,
    reader: &mut R,
    most: usize,
) -> Result<Vec<u8>, LoadFault>
    ensures within { IfOk result (λ bytes. vec_len bytes ≤ most) }
    ensures front { IfOk result (λ bytes. IfSome (R.remaining reader.old)
        (λ left. bytes.items ≡ take most left)) }
{
    let mut bytes = Vec::new(alloc);
    while bytes.len() < most {
        let start = bytes.len();
        read_piece(reader, &mut bytes, PIECE.min(most - start))?;
        if bytes.len() == start {
            return Ok(bytes);
        }
    }
    Ok(bytes)
}

// Reads once, up to `room` bytes, in place at the end of `bytes`.
fn read_piece<R: Read>(reader: &mut R, bytes: &mut Vec<u8>, room: usize) -> Result<(), LoadFault>
    requires { vec_len bytes.old + room < 2 ^ 64 }
    ensures { OnOk result (MovesPiece (R.remaining reader.old) (R.remaining reader.new)
        bytes.old.items bytes.new.items room) }
{
    let start = bytes.len();
    bytes.resize(start + room, 0)?;
    match read_at(reader, bytes.as_mut_slice(), start) {
        Ok(count) => {
            bytes.truncate(start + count);
            Ok(())
        }
        Err(_) => Err(LoadFault::Failed),
    }
}

// Reads once into the part of `buf` from `start` on.
fn read_at<R: Read>(reader: &mut R, buf: &mut [u8], start: usize) -> io::Result<usize>
    requires { start ≤ length buf.old }
    ensures front { take start buf.new ≡ take start buf.old }
    ensures within { IfOk result (λ count. start + count ≤ length buf.new) }
    ensures bytes { IfOk result (λ count. Consumes (R.remaining reader.old) (R.remaining reader.new)
        (take count (drop start buf.new))) }
    ensures ends { IfOk result (λ count. count ≡ 0 → start < length buf.old
        → IsAtEnd (R.remaining reader.new)) }
{
    read_once(reader, &mut buf[start..])
}

// One read, made again while it is interrupted.
fn read_once<R: Read>(reader: &mut R, buf: &mut [u8]) -> io::Result<usize>
    ensures bound { ReadsAtMost result buf.new }
    ensures bytes { ReadConsumes (R.remaining reader.old) (R.remaining reader.new) result buf.new }
    ensures retried { IfErr result (λ error. error_kind error ≢ ErrorKind.Interrupted) }
{
    for _ in 0..u64::MAX {
        match reader.read(buf) {
            Ok(count) => return Ok(count),
            Err(error) => {
                if error.kind() != ErrorKind::Interrupted {
                    return Err(error);
                }
            }
        }
    }
    Err(io::Error::from(ErrorKind::TimedOut))
}

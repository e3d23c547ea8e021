//! Files that are loaded and places that bytes are put to: plain ones, planned ones, real ones, and slow ones that break.

use crate::slow_files::SlowFiles;
use base_files::{
    FileShelf, LoadFault, MemShelf, MemSink, PlainShelf, PlainSink, PutFault, Shelf, Sink,
    StreamSink, newest_bytes,
};
use std::alloc::{AllocError, Global};
use std::io::{ErrorKind, Write};
use std::test::Fail;
use std::{fs, io};

// Two files of the name `p`, of which the first counts.
fn files(alloc: Global) -> Result<Vec<(String, Vec<u8>)>, AllocError> {
    let mut files = Vec::new(alloc);
    files.push((String::from_str(alloc, "p")?, b"text".to_vec(alloc)?))?;
    files.push((String::from_str(alloc, "p")?, b"second".to_vec(alloc)?))?;
    Ok(files)
}

// Whether the loads give these bytes, one after another, each as the last that was loaded, or fail where there are none. Want of
// memory is an error, so that a run in which an allocation is refused shows no other answer in its place.
fn all_give<S: Shelf>(
    shelf: &mut S,
    loads: &[(&str, usize, Option<&[u8]>)],
) -> Result<bool, LoadFault> {
    for (name, most, wanted) in loads {
        let gives = match shelf.load(name, *most) {
            Ok(()) => *wanted == Some(newest_bytes(shelf.loaded())),
            Err(LoadFault::Failed) => wanted.is_none(),
            Err(LoadFault::NoMemory) => return Err(LoadFault::NoMemory),
        };
        if !gives {
            return Ok(false);
        }
    }
    Ok(true)
}

// Whether these files were loaded, in this order and no other.
fn are_loaded<S: Shelf>(shelf: &S, wanted: &[(&str, &[u8])]) -> bool {
    let loads = shelf.loaded();
    loads.len() == wanted.len()
        && loads.iter().zip(wanted).all(|(load, file)| load.name.as_str() == file.0
            && load.bytes.as_slice() == file.1)
}

// Whether each of the puts, one after another, succeeds as it is to. Want of memory is an error.
fn all_answer<K: Sink>(sink: &mut K, puts: &[(&[u8], bool)]) -> Result<bool, PutFault> {
    for (piece, succeeds) in puts {
        let answers = match sink.put(piece) {
            Ok(()) => *succeeds,
            Err(PutFault::Failed) => !*succeeds,
            Err(PutFault::NoMemory) => return Err(PutFault::NoMemory),
        };
        if !answers {
            return Ok(false);
        }
    }
    Ok(true)
}

// Whether these are the pieces.
fn are_pieces(pieces: &[Vec<u8>], wanted: &[&[u8]]) -> bool {
    pieces.len() == wanted.len()
        && pieces
            .iter()
            .zip(wanted)
            .all(|(piece, other)| piece.as_slice() == *other)
}

#[test]
fn plain_files(rt: HostRuntime) -> Result<(), Fail> {
    let mut shelf = PlainShelf::new(rt.alloc(), files(rt.alloc())?);
    let loads: [(&str, usize, Option<&[u8]>); 5] = [
        ("p", 3, Some(b"tex")),
        ("q", 3, None),
        ("p", 4, Some(b"text")),
        ("", 4, None),
        ("p", 0, Some(b"")),
    ];
    assert!(rt; all_give(&mut shelf, &loads)?);
    assert!(rt; are_loaded(&shelf, &[("p", b"tex"), ("p", b"text"), ("p", b"")]));
    Ok(())
}

#[test]
fn planned_loads(rt: HostRuntime) -> Result<(), Fail> {
    let alloc = rt.alloc();
    let mut shelf = MemShelf::new(alloc, files(alloc)?, vec![in alloc; 2, 1]?);
    let loads: [(&str, usize, Option<&[u8]>); 5] = [
        ("p", 9, Some(b"text")),
        ("p", 9, None),
        ("p", 9, None),
        ("p", 9, Some(b"text")),
        ("q", 9, None),
    ];
    assert!(rt; all_give(&mut shelf, &loads)?);
    assert!(rt; are_loaded(&shelf, &[("p", b"text"), ("p", b"text")]));
    Ok(())
}

#[test]
fn planned_puts(rt: HostRuntime) -> Result<(), Fail> {
    let alloc = rt.alloc();
    let mut sink = MemSink::new(alloc, vec![in alloc; (2, 9), (1, 2), (1, 0)]?);
    let puts: [(&[u8], bool); 4] = [
        (b"one", true),
        (b"two", false),
        (b"six", false),
        (b"ten", true),
    ];
    assert!(rt; all_answer(&mut sink, &puts)?);
    assert!(rt; sink.bytes() == b"onetwsixten".as_slice());
    assert!(rt; are_pieces(sink.pieces(), &[b"one", b"ten"]));
    Ok(())
}

#[test]
fn plain_bytes(rt: HostRuntime) -> Result<(), Fail> {
    let mut sink = PlainSink::new(rt.alloc(), 4)?;
    let puts: [(&[u8], bool); 2] = [(b"one", true), (b"two", true)];
    assert!(rt; all_answer(&mut sink, &puts)?);
    assert!(rt; sink.bytes() == b"onetwo".as_slice());
    Ok(())
}

#[test]
fn real_files(rt: HostRuntime) -> Result<(), Fail> {
    let _ = fs::remove_dir_all(&rt, "shelf");
    fs::create_dir(&rt, "shelf")?;
    fs::write(&rt, "shelf/empty", "")?;
    fs::write(&rt, "shelf/one", "1")?;
    fs::write(&rt, "shelf/long", "longer")?;
    let mut shelf = FileShelf::new(rt.alloc(), &rt);
    let loads: [(&str, usize, Option<&[u8]>); 7] = [
        ("shelf/empty", 4, Some(b"")),
        ("shelf/one", 4, Some(b"1")),
        ("shelf/long", 4, Some(b"long")),
        ("shelf/long", 6, Some(b"longer")),
        ("shelf/long", 0, Some(b"")),
        ("shelf", 4, None),
        ("shelf/absent", 4, None),
    ];
    assert!(rt; all_give(&mut shelf, &loads)?);
    let loaded: [(&str, &[u8]); 5] = [
        ("shelf/empty", b""),
        ("shelf/one", b"1"),
        ("shelf/long", b"long"),
        ("shelf/long", b"longer"),
        ("shelf/long", b""),
    ];
    assert!(rt; are_loaded(&shelf, &loaded));
    fs::remove_dir_all(&rt, "shelf")?;
    Ok(())
}

// Whether a load of `letter` from a file that is read a byte a call gives this, or a fault where it is nothing.
fn reads_slowly(
    alloc: Global,
    breaks: bool,
    most: usize,
    wanted: Option<&[u8]>,
) -> Result<bool, LoadFault> {
    let files = SlowFiles { breaks };
    let mut shelf = FileShelf::new(alloc, &files);
    all_give(&mut shelf, &[("p", most, wanted)])
}

#[test]
fn slow_reads(rt: HostRuntime) -> Result<(), Fail> {
    let reads: [(bool, usize, Option<&[u8]>); 4] = [
        (false, 9, Some(b"letter")),
        (false, 3, Some(b"let")),
        (true, 9, None),
        (true, 6, Some(b"letter")),
    ];
    for (breaks, most, wanted) in reads {
        assert!(rt; reads_slowly(rt.alloc(), breaks, most, wanted)?);
    }
    Ok(())
}

/// Takes one byte a call, each after an interruption, up to its room.
#[derive(Drop)]
struct SlowWriter {
    taken: Vec<u8>,
    room: usize,
    flushes: bool,
    interrupted: bool,
}

impl Write for SlowWriter {
    fn write(&mut self, buf: &[u8]) -> io::Result<usize> {
        self.interrupted = !self.interrupted;
        if self.interrupted {
            return Err(io::Error::from(ErrorKind::Interrupted));
        }
        if buf.is_empty() || self.taken.len() >= self.room {
            return Ok(0);
        }
        self.taken.push(buf[0])?;
        Ok(1)
    }

    fn flush(&mut self) -> io::Result<()> {
        if self.flushes {
            Ok(())
        } else {
            Err(io::Error::from(ErrorKind::StorageFull))
        }
    }
}

// Whether a put of `letter` to a writer with so much room succeeds as it is to, and leaves these bytes there.
fn writes_slowly(
    alloc: Global,
    room: usize,
    flushes: bool,
    succeeds: bool,
    held: &[u8],
) -> Result<bool, PutFault> {
    let mut writer = SlowWriter {
        taken: Vec::with_capacity(alloc, 6)?,
        room,
        flushes,
        interrupted: false,
    };
    let mut sink = StreamSink::new(&mut writer);
    let answers = all_answer(&mut sink, &[(b"letter", succeeds)])?;
    Ok(answers && writer.taken.as_slice() == held)
}

#[test]
fn slow_writes(rt: HostRuntime) -> Result<(), Fail> {
    let writes: [(usize, bool, bool, &[u8]); 3] = [
        (9, true, true, b"letter"),
        (4, true, false, b"lett"),
        (9, false, false, b"letter"),
    ];
    for (room, flushes, succeeds, held) in writes {
        assert!(rt; writes_slowly(rt.alloc(), room, flushes, succeeds, held)?);
    }
    Ok(())
}

//! Files that give one byte a call, each after an interruption.

use std::alloc::Allocator;
use std::fs::{Metadata, OpenFile, OpenOptions};
use std::io;
use std::io::{ErrorKind, Read, Seek, SeekFrom, Write};
use std::rt::Files;

/// What each of these files holds.
const LETTER: [u8; 6] = *b"letter";

/// Files that all hold `letter`, and then end, or break.
#[derive(Drop)]
pub(crate) struct SlowFiles {
    pub(crate) breaks: bool,
}

/// A file that gives one byte a call, each after an interruption.
#[derive(Drop)]
pub(crate) struct SlowFile {
    given: usize,
    breaks: bool,
    interrupted: bool,
}

// The error of what these files don't do.
fn refused() -> io::Error {
    io::Error::from(ErrorKind::Unsupported)
}

impl Read for SlowFile {
    fn read(&mut self, buf: &mut [u8]) -> io::Result<usize> {
        self.interrupted = !self.interrupted;
        if self.interrupted {
            return Err(io::Error::from(ErrorKind::Interrupted));
        }
        if buf.is_empty() {
            return Ok(0);
        }
        match LETTER.get(self.given) {
            Some(byte) => {
                buf[0] = *byte;
                self.given += 1;
                Ok(1)
            }
            None if self.breaks => Err(io::Error::from(ErrorKind::BrokenPipe)),
            None => Ok(0),
        }
    }
}

impl Write for SlowFile {
    fn write(&mut self, _: &[u8]) -> io::Result<usize> {
        Err(refused())
    }

    fn flush(&mut self) -> io::Result<()> {
        Err(refused())
    }
}

impl Seek for SlowFile {
    fn seek(&mut self, _: SeekFrom) -> io::Result<u64> {
        Err(refused())
    }
}

impl OpenFile for SlowFile {
    fn metadata(&self) -> io::Result<Metadata> {
        Err(refused())
    }

    fn set_len(&self, _: u64) -> io::Result<()> {
        Err(refused())
    }

    fn sync_all(&self) -> io::Result<()> {
        Err(refused())
    }

    fn sync_data(&self) -> io::Result<()> {
        Err(refused())
    }
}

impl Files for SlowFiles {
    type File = SlowFile;

    type Dir = SlowFile;

    fn open_file(&self, _: &OpenOptions, _: &str) -> io::Result<SlowFile> {
        Ok(SlowFile {
            given: 0,
            breaks: self.breaks,
            interrupted: false,
        })
    }

    fn open_dir(&self, _: &str) -> io::Result<SlowFile> {
        Err(refused())
    }

    fn metadata(&self, _: &str) -> io::Result<Metadata> {
        Err(refused())
    }

    fn symlink_metadata(&self, _: &str) -> io::Result<Metadata> {
        Err(refused())
    }

    fn copy(&self, _: &str, _: &str) -> io::Result<u64> {
        Err(refused())
    }

    fn rename(&self, _: &str, _: &str) -> io::Result<()> {
        Err(refused())
    }

    fn remove_file(&self, _: &str) -> io::Result<()> {
        Err(refused())
    }

    fn create_dir(&self, _: &str) -> io::Result<()> {
        Err(refused())
    }

    fn remove_dir(&self, _: &str) -> io::Result<()> {
        Err(refused())
    }

    fn remove_dir_all<B: Allocator>(&self, _: B, _: &str) -> io::Result<()> {
        Err(refused())
    }
}

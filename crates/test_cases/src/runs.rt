//! The files of a run, and what it answered and wrote.

use base_files::{MemShelf, MemSink};
use std::alloc::{AllocError, Global};

/// The code that a run answered, and what it put.
#[derive(Drop)]
pub struct Written {
    pub code: u8,
    pub out: MemSink,
    pub err: MemSink,
}

/// A shelf of a program `p` and of another file `f`, whose loads with these numbers fail.
pub fn shelf(
    alloc: Global,
    text: &[u8],
    other: &[u8],
    fails: &[u32],
) -> Result<MemShelf, AllocError> {
    let mut files = Vec::new(alloc);
    files.push((String::from_str(alloc, "p")?, text.to_vec(alloc)?))?;
    files.push((String::from_str(alloc, "f")?, other.to_vec(alloc)?))?;
    Ok(MemShelf::new(alloc, files, fails.to_vec(alloc)?))
}

/// Whether a run ended with this code, and put these bytes and this message.
pub fn is_as_wanted(written: &Written, code: u8, out: &[u8], err: &[u8]) -> bool {
    written.code == code && written.out.bytes() == out && written.err.bytes() == err
}

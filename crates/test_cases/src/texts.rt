//! Texts that are put together, and words.

use std::alloc::{AllocError, Global};

/// Texts as they are, one after another.
pub fn joined(alloc: Global, pieces: &[&[u8]]) -> Result<Vec<u8>, AllocError> {
    let mut text = Vec::new(alloc);
    for piece in pieces {
        text.extend_from_slice(*piece)?;
    }
    Ok(text)
}

/// What stands before, so many times the piece, and what stands behind.
pub fn repeated(
    alloc: Global,
    before: &[u8],
    piece: &[u8],
    count: usize,
    after: &[u8],
) -> Result<Vec<u8>, AllocError> {
    let mut text = before.to_vec(alloc)?;
    for _ in 0..count {
        text.extend_from_slice(piece)?;
    }
    text.extend_from_slice(after)?;
    Ok(text)
}

/// The first lines, and so many bytes of the next one.
pub fn front(
    alloc: Global,
    lines: &[&[u8]],
    count: u32,
    bytes: usize,
) -> Result<Vec<u8>, AllocError> {
    let mut front = Vec::new(alloc);
    for (number, line) in lines.iter().enumerate() {
        if number < count as usize {
            front.extend_from_slice(*line)?;
        } else if number == count as usize && bytes <= line.len() {
            front.extend_from_slice(&line[..bytes])?;
        }
    }
    Ok(front)
}

/// These words as texts of their own.
pub fn strings(alloc: Global, words: &[&str]) -> Result<Vec<String>, AllocError> {
    let mut strings = Vec::new(alloc);
    for word in words {
        strings.push(String::from_str(alloc, *word)?)?;
    }
    Ok(strings)
}

/// The words of a line, which stand between blanks.
pub fn words_of(alloc: Global, line: &str) -> Result<Vec<String>, AllocError> {
    let mut words = Vec::new(alloc);
    for word in line.split_whitespace() {
        words.push(String::from_str(alloc, word)?)?;
    }
    Ok(words)
}

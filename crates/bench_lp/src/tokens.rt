//! The words of a file with their lines.
use std::alloc::{AllocError, Global};

/// A word between blanks, and its line counted from 1.
#[derive(Drop)]
pub struct Token {
    pub word: String,
    pub line: usize,
}

/// The words of a text in order.
pub fn tokens(alloc: Global, text: &str) -> Result<Vec<Token>, AllocError> {
    let mut list = Vec::new(alloc);
    let mut number = 0usize;
    for line in text.lines() {
        number = number.saturating_add(1);
        for word in line.split_whitespace() {
            list.push(Token {
                word: String::from_str(alloc, word)?,
                line: number,
            })?;
        }
    }
    Ok(list)
}

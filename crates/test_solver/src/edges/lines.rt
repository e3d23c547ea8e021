//! Numbers as parts of a line.

use base_fractions::Frac;
use itoa::Buffer;
use std::alloc::AllocError;

/// Appends a word and then a number.
pub(crate) fn add_number(line: &mut Vec<u8>, word: &[u8], number: u32) -> Result<(), AllocError> {
    line.extend_from_slice(word)?;
    let mut buffer = Buffer::new();
    line.extend_from_slice(buffer.format(number).as_bytes())
}

/// Appends a word and then fractions, each with a blank before it.
pub(crate) fn add_fractions(
    line: &mut Vec<u8>,
    word: &[u8],
    numbers: &[Frac],
) -> Result<(), AllocError> {
    line.extend_from_slice(word)?;
    for number in numbers {
        line.extend_from_slice(b" ")?;
        line.extend_from_slice(number.text().bytes())?;
    }
    Ok(())
}

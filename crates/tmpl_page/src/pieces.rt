//! Texts that stand one behind the other.

ghost use Rattle.std.specs.Prelude.{◌≡◌, IfOk};
ghost use Rattle.ask_files.specs.Files.{texts_of};
ghost use Rattle.tmpl_page.specs.Pieces.{pieces_of};

use std::alloc::{AllocError, Global};

// The pieces of these lengths.
pub(crate) fn pieces_of<'a>(
    alloc: Global,
    lengths: &[usize],
    text: &'a [u8],
) -> Result<Vec<&'a [u8]>, AllocError>
    ensures { IfOk result (λ pieces. texts_of pieces.items ≡ pieces_of lengths.now text.now) }
{
    let mut pieces = Vec::new(alloc);
    let mut rest = text;
    for length in lengths {
        let (piece, others) = rest.split_at((*length).min(rest.len()));
        pieces.push(piece)?;
        rest = others;
    }
    Ok(pieces)
}

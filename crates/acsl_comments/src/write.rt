//! The text of a program with comments in it.

ghost use Rattle.std.specs.Prelude.{◌≡◌, ◌≤◌, IfOk, length, map};
ghost use Rattle.base_limits.specs.declared.limits.TheConstants.{MOST_PROGRAM_BYTES};
ghost use Rattle.acsl_comments.specs.Places.{Ascend};
ghost use Rattle.acsl_comments.specs.Texts.{with_comments};

use crate::comment::Comment;
use std::alloc::{AllocError, Global};

/// The text with each of these comments at its place.
pub fn with_comments(
    alloc: Global,
    text: &[u8],
    comments: &[Comment],
) -> Result<Vec<u8>, AllocError>
    requires size { length text.now ≤ MOST_PROGRAM_BYTES }
    requires order { Ascend 0 (length text.now) (map (λ c. c.place) comments.now) }
    ensures { IfOk result (λ written. written.items ≡ with_comments 0 text.now comments.now) }
{
    let mut written = Vec::new(alloc);
    let mut at = 0;
    for comment in comments {
        let place = comment.place as usize;
        written.extend_from_slice(&text[at..place])?;
        written.extend_from_slice(comment.bytes.as_slice())?;
        at = place;
    }
    written.extend_from_slice(&text[at..])?;
    Ok(written)
}

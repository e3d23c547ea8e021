//! The program as a library for a page: the answer to words and to the contents of files, all of which lie in memory that the caller has.
#![tactic(auto)]

ghost use Rattle.std.specs.Prelude.{drop, take};
ghost use Rattle.top_answer.specs.Commands.{command_of};
ghost use Rattle.tmpl_page.specs.Answered.{IsAnswered};
ghost use Rattle.tmpl_page.specs.Pieces.{pieces_of};

mod answering;
mod pieces;
mod placing;
#[cfg(test)]
mod tests;
mod told;
mod words;

use answering::answer_texts;
use placing::{place, place_nothing};
use std::alloc::Global;
pub use told::Told;
pub use top_run::{Exact, Meaning};

/// What `top_answer::answer` answers to words and to the contents of the files that they name. `texts` has all of these one behind the
/// other, `lengths` how long each is, and the first `words` of them are the words; what stands behind the last one is nothing.
///
/// The exit code is the result. The output and behind it the message, a line that is empty behind an output, are put at the beginning of
/// `room`, and `told` has their lengths behind the call; where they are longer than the room, nothing is put, and the same call with more
/// room gives the same. While it works, `told` is told of rounds, turns and pivots. A word that is no UTF-8 gives the code 9.
#[unsafe(no_mangle)]
pub extern "C" fn tmpl_page_answer(
    alloc: Global,
    texts: &[u8],
    lengths: &[usize],
    words: usize,
    room: &mut [u8],
    told: &mut Told,
) -> u8
    ensures { IsAnswered (command_of ⟦<Exact as Meaning>⟧.means) ⟦<Exact as Meaning>⟧.means
        (take words (pieces_of lengths.now texts.now)) (drop words (pieces_of lengths.now texts.now))
        result told.new.output told.new.message room.old room.new }
{
    match answer_texts(alloc, texts, lengths, words, told) {
        Some(answer) => place(&answer, room, told),
        None => place_nothing(told),
    }
}

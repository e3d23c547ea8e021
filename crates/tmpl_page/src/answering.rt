//! The answer to texts that stand one behind the other.

ghost use Rattle.std.specs.Prelude.{◌≡◌, All, IfSome, None, drop, take};
ghost use Rattle.std.specs.Str.{IsUtf8};
ghost use Rattle.ask_files.specs.Files.{texts_of};
ghost use Rattle.top_answer.specs.Commands.{command_of};
ghost use Rattle.top_run.specs.Parts.{IsAnswerTo};
ghost use Rattle.tmpl_page.specs.Pieces.{pieces_of};

use crate::pieces::pieces_of;
use crate::words::{NoWords, words_of};
use base_watch::Watch;
use std::alloc::Global;
use top_answer::{Answer, answer, plain_answer};
use top_run::{Exact, Meaning};
use top_status::Status;

// The answer to pieces, the first of which are words; none where one of these is no text.
fn answer_pieces<W: Watch>(
    alloc: Global,
    pieces: &[&[u8]],
    count: usize,
    watch: &mut W,
) -> Option<Answer>
    ensures some { IfSome result (λ answer. IsAnswerTo (command_of ⟦<Exact as Meaning>⟧.means) ⟦<Exact as Meaning>⟧.means
        (take count (texts_of pieces.now)) (drop count (texts_of pieces.now)) answer.status answer.bytes.items answer.message) }
    ensures none { result ≡ None → All IsUtf8 (take count (texts_of pieces.now)) → ⊥ }
{
    let (words, contents) = pieces.split_at(count.min(pieces.len()));
    match words_of(alloc, words) {
        Ok(words) => Some(answer(alloc, &words, contents, watch)),
        Err(NoWords::NoText) => None,
        Err(NoWords::NoMemory) => Some(plain_answer(alloc, Status::Memory)),
    }
}

// The answer to texts, the first of which are words; none where one of these is no text.
pub(crate) fn answer_texts<W: Watch>(
    alloc: Global,
    texts: &[u8],
    lengths: &[usize],
    count: usize,
    watch: &mut W,
) -> Option<Answer>
    ensures some { IfSome result (λ answer. IsAnswerTo (command_of ⟦<Exact as Meaning>⟧.means) ⟦<Exact as Meaning>⟧.means
        (take count (pieces_of lengths.now texts.now)) (drop count (pieces_of lengths.now texts.now))
        answer.status answer.bytes.items answer.message) }
    ensures none { result ≡ None → All IsUtf8 (take count (pieces_of lengths.now texts.now)) → ⊥ }
{
    match pieces_of(alloc, lengths, texts) {
        Ok(pieces) => answer_pieces(alloc, &pieces, count, watch),
        Err(_) => Some(plain_answer(alloc, Status::Memory)),
    }
}

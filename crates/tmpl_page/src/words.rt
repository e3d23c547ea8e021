//! Pieces as words.

ghost use Rattle.std.specs.Prelude.{◌≡◌, All, IfErr, IfOk, map, string_bytes};
ghost use Rattle.std.specs.Str.{IsUtf8};
ghost use Rattle.ask_files.specs.Files.{texts_of};

use std::alloc::Global;
use std::str::from_utf8;

// Why there are no words.
#[derive(Clone, Copy, Debug, Drop, PartialEq)]
pub(crate) enum NoWords {
    // A piece is no text in UTF-8.
    NoText,
    // Memory was wanted.
    NoMemory,
}

// A piece as a word.
fn word_of(alloc: Global, piece: &[u8]) -> Result<String, NoWords>
    ensures ok { IfOk result (λ word. string_bytes word ≡ piece.now) }
    ensures err { IfErr result (λ cause. cause ≡ NoWords.NoText → IsUtf8 piece.now → ⊥) }
{
    match from_utf8(piece) {
        Ok(text) => String::from_str(alloc, text).map_err(|_| NoWords::NoMemory),
        Err(_) => Err(NoWords::NoText),
    }
}

// These pieces as words.
pub(crate) fn words_of(alloc: Global, pieces: &[&[u8]]) -> Result<Vec<String>, NoWords>
    ensures ok { IfOk result (λ words. map string_bytes words.items ≡ texts_of pieces.now) }
    ensures err { IfErr result (λ cause. cause ≡ NoWords.NoText → All IsUtf8 (texts_of pieces.now) → ⊥) }
{
    let mut words = Vec::new(alloc);
    for piece in pieces {
        match word_of(alloc, piece) {
            Ok(word) => words.push(word).map_err(|_| NoWords::NoMemory)?,
            Err(cause) => return Err(cause),
        }
    }
    Ok(words)
}

// A short text in a fixed array.
ghost use Rattle.std.specs.Prelude.{◌≡◌, ◌+◌, ◌≤◌, ◌++◌, [], length};

use std::marker::Model;

/// A text of at most 40 bytes.
#[derive(Drop)]
pub struct Text {
    bytes: [u8; 40],
    len: usize,
}

impl Model for Text {
    ghost use Rattle.std.specs.Prelude.{List, ℕ, ◌≤◌, take};

    ghost Value = { List ℕ };

    ghost view = { λ t. take t.len t.bytes };

    ghost invariant = { λ t. t.len ≤ 40 };
}

impl Text {
    // The empty text.
    pub(crate) fn new() -> Text
        ensures { result ≡ [] }
    {
        Text {
            bytes: [0; 40],
            len: 0,
        }
    }

    // The text of one piece.
    pub(crate) fn of(piece: &[u8]) -> Text
        requires { length piece.now ≤ 40 }
        ensures { result ≡ piece.now }
    {
        let mut text = Text::new();
        text.append(piece);
        text
    }

    /// The bytes of the text.
    pub fn bytes(&self) -> &[u8]
        ensures bytes { result.now ≡ self.now }
        ensures short { length result.now ≤ 40 }
    {
        &self.bytes[..self.len]
    }

    // Adds a piece at the end.
    pub(crate) fn append(&mut self, piece: &[u8])
        requires { length self.old + length piece.now ≤ 40 }
        ensures { self.new ≡ self.old ++ piece.now }
    {
        let end = self.len + piece.len();
        self.bytes[self.len..end].copy_from_slice(piece);
        self.len = end;
    }
}

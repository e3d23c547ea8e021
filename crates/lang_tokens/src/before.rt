//! What stands before a place in its line.

ghost use Rattle.std.specs.Prelude.{◌≡◌};
ghost use Rattle.lang_tokens.specs.Reading.{behind_comment, behind_blank};

/// What stands before a place in its line (docs/FORMATS.md, "Tokens").
#[derive(Clone, Copy, PartialEq, Eq)]
pub enum Before {
    /// Nothing but blanks.
    Blanks,
    /// Something else than blanks, but no directive.
    Others,
    /// A directive, which goes on here; it may have begun in an earlier line.
    Directive,
}

impl Before {
    /// What stands before what follows a comment.
    pub fn behind_comment(self) -> Before
        ensures { result ≡ behind_comment self }
    {
        match self {
            Before::Directive => Before::Directive,
            _ => Before::Others,
        }
    }

    /// What stands before what follows a blank of this byte.
    pub fn behind_blank(self, byte: u8) -> Before
        ensures { result ≡ behind_blank self byte }
    {
        if byte == b'\n' {
            return Before::Blanks;
        }
        if byte == b'#' {
            return Before::Directive;
        }
        self
    }
}

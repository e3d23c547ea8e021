//! What the division of a file into items sees of its tokens.

/// A kind of bracket.
#[derive(Clone, Copy, Debug, PartialEq, Eq)]
pub enum Bracket {
    /// `(` and `)`
    Round,
    /// `[` and `]`
    Square,
    /// `{` and `}`
    Curly,
}

/// What a token is to the division of a file into items (docs/MEANING.md, "Functions of C").
#[derive(Clone, Copy, Debug, PartialEq, Eq)]
pub enum Mark {
    Opens(Bracket),
    Closes(Bracket),
    Semicolon,
    /// `static`, `inline` or `extern`.
    Storage,
    /// `int` or `void`, which a function returns.
    Returned,
    /// A word that a function may have as its name.
    Name,
    /// Any other token.
    Other,
}

//! Which texts are read.

/// Whose tokens a text has (docs/FORMATS.md, "Tokens").
#[derive(Clone, Copy, Debug, PartialEq, Eq)]
pub enum Lexicon {
    /// Those of the tool's own formats: of claims, transition systems, systems of equations, row
    /// files and generated programs.
    Own,
    /// Those of C, in its files.
    C,
}

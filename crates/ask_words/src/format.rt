//! The formats that an output can have.

/// In which format an output is written (docs/FORMATS.md, "JSON" and "SARIF").
#[derive(Clone, Copy, Debug, PartialEq, Eq)]
pub enum Format {
    /// Lines for people.
    Text,
    /// One JSON value.
    Json,
    /// One SARIF log, a JSON value for tools that show findings beside the text.
    Sarif,
}

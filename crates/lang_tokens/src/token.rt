//! Tokens.

use crate::sign::Sign;
use crate::word::Word;

/// A token of C that stands in no function of the language, by the fault that it is in the function
/// that is asked about.
#[derive(Clone, Copy, Debug, PartialEq, Eq)]
pub enum Foreign {
    /// A string or character literal, or a sign that the language lacks: a bad byte.
    Byte,
    /// A number that isn't written as the language's are: a bad number.
    Number,
    /// A number that is, but exceeds 9223372036854775807.
    LongNumber,
    /// A word of more than 32 bytes.
    LongName,
}

/// A token inside a directive of a C file.
#[derive(Clone, Copy, Debug, PartialEq, Eq)]
pub enum Aside {
    /// The `#` that begins it.
    Hash,
    /// A reserved word.
    Word(Word),
    /// A word that is not reserved.
    Name,
    /// The value of a run of decimal digits, from 0 to 9223372036854775807.
    Number(i64),
    Sign(Sign),
    /// Any other token of C, and any byte that is no blank.
    Foreign,
}

/// What a token is.
#[derive(Clone, Copy, Debug, PartialEq, Eq)]
pub enum Kind {
    /// A reserved word.
    Word(Word),
    /// A word that is not reserved.
    Name,
    /// The value of a run of decimal digits, from 0 to 9223372036854775807.
    Number(i64),
    Sign(Sign),
    /// A token that only C has.
    Foreign(Foreign),
    /// A token inside a directive, in a C file; all others are tokens of its code.
    Aside(Aside),
    /// The end of the text.
    End,
}

/// A token at its place in the text (docs/FORMATS.md, "Tokens").
#[derive(Clone, Copy, Debug, PartialEq, Eq)]
pub struct Token {
    pub kind: Kind,
    /// How many bytes stand before it.
    pub at: u32,
    /// How many bytes it has.
    pub len: u32,
}

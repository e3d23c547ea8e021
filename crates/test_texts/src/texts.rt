//! Texts, the programs that they read as, and tables of cases.

use lang_parser::{ParseFault, parse};
use lang_tokens::{Lexicon, lex};
use lang_tree::Program;
use std::alloc::Global;

/// A row of a table: what a call is given, and what it is to answer.
pub(crate) trait Case {
    /// Whether the call answers as it is to. Without memory it doesn't.
    fn is_right(&self, alloc: Global) -> bool;
}

/// The number of the first row of a table that isn't right, counted from 0.
pub(crate) fn first_wrong<C: Case>(alloc: Global, table: &[C]) -> Option<usize> {
    table.iter().position(|case| !case.is_right(alloc))
}

/// The program that a text reads as, or its fault; nothing where it is too long or has a fault in its tokens.
pub(crate) fn read(alloc: Global, text: &[u8]) -> Option<Result<Program, ParseFault>> {
    if text.len() > 65_536 {
        return None;
    }
    match lex(alloc, text, Lexicon::Own) {
        Ok(tokens) => Some(parse(alloc, tokens.as_slice(), text)),
        Err(_) => None,
    }
}

//! The terms of a row.

/// A term: its coefficient, and the name that it multiplies.
#[derive(Clone, Copy)]
pub(crate) struct Term<'a> {
    pub(crate) coefficient: i64,
    pub(crate) name: &'a [u8],
}

mod tokens;

pub(crate) use tokens::terms;

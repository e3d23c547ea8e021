//! Tables of cases.

use std::alloc::{AllocError, AllocFailed, Global};

/// A row of a table: what a call is given, and what it is to answer.
pub(crate) trait Case {
    /// Whether the call answers as it is to. Without memory it doesn't.
    fn is_right(&self, alloc: Global) -> bool;
}

/// The number of the first row of a table that isn't right, counted from 0.
pub(crate) fn first_wrong<C: Case>(alloc: Global, table: &[C]) -> Option<usize> {
    for (number, case) in table.iter().enumerate() {
        if !case.is_right(alloc) {
            return Some(number);
        }
    }
    None
}

/// Something that a case needs isn't there; the place where it is made from a text says what.
#[derive(Drop)]
pub(crate) struct Fail;

impl From<&'static str> for Fail {
    fn from(_: &'static str) -> Fail {
        Fail
    }
}

impl From<AllocError> for Fail {
    fn from(_: AllocError) -> Fail {
        Fail
    }
}

impl<T: Drop> From<AllocFailed<T>> for Fail {
    fn from(_: AllocFailed<T>) -> Fail {
        Fail
    }
}

//! The columns of the master problem.

use std::alloc::{AllocError, Global};

/// For each unknown of a system, in order of its number, one more than its place in a list, where it is listed, and else 0. The place is
/// the column of its rise.
#[derive(Drop)]
pub struct Columns {
    places: Vec<u32>,
}

impl Columns {
    /// Those of a list, over so many unknowns.
    pub fn new(alloc: Global, unknowns: usize, list: &[u32]) -> Result<Columns, AllocError> {
        let mut places = vec![in alloc; 0; unknowns]?;
        let mut more: u32 = 0;
        for unknown in list {
            let number = *unknown as usize;
            more = more.saturating_add(1);
            if number < places.len() {
                places[number] = more;
            }
        }
        Ok(Columns { places })
    }

    /// The column of an unknown, where it is listed.
    pub fn at(&self, unknown: usize) -> Option<usize> {
        match self.places.get(unknown) {
            None | Some(0) => None,
            Some(more) => Some(*more as usize - 1),
        }
    }
}

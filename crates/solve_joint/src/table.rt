//! Tables of tests between points.

ghost use Rattle.std.specs.Prelude.{◌≡◌, ◌<◌, true, false, IfOk, length, get_or, replicate, slice_set};
ghost use Rattle.solve_joint.specs.Tables.{cell};

use std::alloc::{AllocError, Global};
use std::marker::Model;

/// One test for each point, in order.
#[derive(Drop)]
pub struct Row {
    cells: Vec<bool>,
}

impl Model for Row {
    ghost use Rattle.std.specs.Prelude.{List, Bool};

    ghost Value = { List Bool };

    ghost view = { λ r. r.cells.items };
}

impl Row {
    /// The test at a place; false behind the last.
    pub fn at(&self, place: usize) -> bool
        ensures { result ≡ get_or self.now place false }
    {
        if place < self.cells.len() {
            self.cells[place]
        } else {
            false
        }
    }

    /// So many tests, each false.
    pub fn none(alloc: Global, count: usize) -> Result<Row, AllocError>
        ensures { IfOk result (λ r. r ≡ replicate count false) }
    {
        let mut cells = Vec::with_capacity(alloc, count)?;
        for _cell in 0..count {
            cells.push(false)?;
        }
        Ok(Row { cells })
    }

    /// Makes the test at a place true.
    pub fn set(&mut self, place: usize)
        requires { place < length self.old }
        ensures { self.new ≡ slice_set self.old place true }
    {
        self.cells[place] = true;
    }
}

/// The test of two points; false where there are none.
pub fn cell_of(rows: &[Row], i: u32, j: u32) -> bool
    ensures { result ≡ cell rows.now i j }
{
    if (i as usize) < rows.len() {
        rows[i as usize].at(j as usize)
    } else {
        false
    }
}

//! Linear problems that grow row by row.

ghost use Rattle.std.specs.Prelude.{◌≡◌, ◌+◌, ◌<◌, false};
ghost use Rattle.lp_dictionary.specs.Exact.{IsShaped};

use crate::halt::Halt;
use base_fractions::Frac;
use base_limits::MOST_CELLS;
use lp_simplex::{Coefficients, Outcome, Problem, Row, Tableau, solve};
use std::alloc::Global;

/// A linear problem each of whose rows has one coefficient for each entry of the goal, and how many of its entries may differ from 0:
/// coefficients, sides, and those of the goal.
#[derive(Drop)]
pub struct Shaped {
    problem: Problem<Frac>,
    cells: u64,
    ghost shaped: { IsShaped problem },
}

// Whether a problem with so many rows, columns and cells is larger than one that is solved.
fn is_large(rows: usize, columns: usize, cells: u64) -> bool
    ensures { result ≡ false → rows + columns < 4294967295 }
{
    let places = (rows as u64).saturating_add(columns as u64);
    places.max(cells) > MOST_CELLS
}

impl Shaped {
    /// That of a goal, without a row.
    pub fn new(alloc: Global, goal: Coefficients<Frac>) -> Result<Shaped, Halt> {
        let cells = goal.entries().len() as u64;
        if is_large(0, goal.len(), cells) {
            return Err(Halt::GivenUp);
        }
        let rows = Vec::new(alloc);
        Ok(Shaped {
            problem: Problem { rows, goal },
            cells,
        })
    }

    /// How many columns it has.
    pub fn columns(&self) -> usize {
        self.problem.goal.len()
    }

    /// Puts a row behind the others.
    pub fn add(&mut self, row: Row<Frac>) -> Result<(), Halt> {
        let columns = self.problem.goal.len();
        let more = (row.coeffs.entries().len() as u64).saturating_add(1);
        let cells = self.cells.saturating_add(more);
        if row.coeffs.len() != columns || is_large(self.problem.rows.len() + 1, columns, cells) {
            return Err(Halt::GivenUp);
        }
        self.problem.rows.push(row)?;
        self.cells = cells;
        Ok(())
    }

    /// Its outcome.
    pub fn outcome<T: Tableau<Frac>>(&self, alloc: Global) -> Result<Outcome<Frac>, Halt> {
        Ok(solve::<Frac, T>(alloc, &self.problem)?)
    }
}

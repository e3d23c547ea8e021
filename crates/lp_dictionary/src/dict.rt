//! Dictionaries that keep every entry.
ghost use Rattle.std.specs.Prelude.{◌≡◌, ℕ, suc, ◌+◌, ◌*◌, ◌≤◌, ◌<◌, length, IfErr};
ghost use Rattle.lp_dictionary.specs.Faults.{IsWide};

use crate::build::{first_entries, goal_count, names_from, other_names};
use crate::problem::Problem;
use crate::rows::exchange;
use crate::shift::{shift_rows, zero_place};
use crate::sides::lowest_side;
use crate::tableau::{PivotFault, Tableau};
use base_fractions::OrderedField;
use std::alloc::{AllocError, Global};

/// A dictionary in one list of entries, row after row: the basic variables' rows, then the goals', the constant last in each.
/// A pivot changes each entry at most once, passes over rows and columns with a zero factor, and takes no memory.
#[derive(Drop)]
pub struct Dict<F> {
    entries: Vec<F>,
    basics: Vec<u32>,
    others: Vec<u32>,
    goals: usize,
    spent: bool,
    ghost sized: { length entries.items ≡ (length basics.items + goals) * suc (length others.items) },
    ghost two: { goals ≤ 2 },
}

impl<F: OrderedField> Tableau<F> for Dict<F> {
    ghost use Rattle.std.specs.Prelude.{◌≢◌, true, false, None, OnOk};
    ghost use Rattle.base_numbers.specs.Rational.{zero_ℚ};
    ghost use Rattle.lp_theory.specs.Table.{Agree, pivot_table};
    ghost use Rattle.base_fractions.specs.Operation.{first_wide};
    ghost use Rattle.lp_dictionary.specs.PivotOperations.{pivot_operations};
    ghost use Rattle.lp_dictionary.specs.Faults.{Refuses};
    ghost use Rattle.lp_dictionary.specs.DictTable.{dict_table};

    ghost table = { dict_table F.meaning };

    ghost spent = { λ d. d.spent };

    fn build(alloc: Global, problem: &Problem<F>) -> Result<Self, AllocError> {
        let cols = problem.goal.len() as u32;
        let auxiliary = lowest_side(problem).is_some();
        let entries = first_entries(alloc, problem, auxiliary)?;
        let basics = names_from(alloc, cols + 1, problem.rows.len() as u32)?;
        let others = other_names(alloc, cols, auxiliary)?;
        Ok(Dict {
            entries,
            basics,
            others,
            goals: goal_count(auxiliary),
            spent: false,
        })
    }

    fn entry(&self, row: u32, col: u32) -> F {
        let stride = self.others.len() + 1;
        self.entries[row as usize * stride + col as usize]
    }

    fn constant(&self, row: u32) -> F {
        let width = self.others.len();
        self.entries[row as usize * (width + 1) + width]
    }

    fn basic(&self, row: u32) -> u32 {
        self.basics[row as usize]
    }

    fn other(&self, col: u32) -> u32 {
        self.others[col as usize]
    }

    fn pivot(&mut self, row: u32, col: u32) -> Result<(), PivotFault<F>>
        requires row { row < (dict_table F.meaning self.old).rows }
        requires col { col < (dict_table F.meaning self.old).width }
        requires entry { (dict_table F.meaning self.old).entry row col ≢ zero_ℚ }
        requires fresh { self.old.spent ≡ false }
        ensures exchanged { OnOk result (Agree (pivot_table (dict_table F.meaning self.old) row col) (dict_table F.meaning self.new)) }
        ensures fits { OnOk result (first_wide F.LIMIT (pivot_operations (dict_table F.meaning self.old) row col) ≡ None) }
        ensures refused { IfErr result (λ e. Refuses F.meaning F.LIMIT (pivot_operations (dict_table F.meaning self.old) row col) e) }
        ensures fresh { OnOk result (self.new.spent ≡ false) }
        ensures spoilt { IfErr result (λ e. self.new.spent ≡ true) }
        ensures takes_no_memory { IfErr result IsWide }
    {
        let rows = self.basics.len() + self.goals;
        let stride = self.others.len() + 1;
        match exchange(&mut self.entries, rows, row as usize, stride, col as usize) {
            Ok(()) => {
                let leaving = self.basics[row as usize];
                self.basics[row as usize] = self.others[col as usize];
                self.others[col as usize] = leaving;
                Ok(())
            }
            Err(wide) => {
                self.spent = true;
                Err(PivotFault::Wide(wide))
            }
        }
    }

    fn leave_first(&mut self) {
        let rows = self.basics.len() + 1;
        let stride = self.others.len() + 1;
        let col = zero_place(&self.others);
        shift_rows(&mut self.entries, rows, self.basics.len(), stride, col);
        self.entries.truncate(rows * (stride - 1));
        self.others.remove(col);
        self.goals = 1;
    }

    fn is_spent(&self) -> bool {
        self.spent
    }
}

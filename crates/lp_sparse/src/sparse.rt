//! Dictionaries that keep the entries that are not zero.
ghost use Rattle.std.specs.Prelude.{◌≡◌, ℕ, suc, ◌+◌, ◌<◌, ◌≤◌, false, length};
ghost use Rattle.lp_sparse.specs.Rows.{EachRises};
ghost use Rattle.lp_sparse.specs.Unique.{EachRises-prop};

use crate::build::first_rows;
use crate::leave::leave_out_with_row;
use crate::row::SparseRow;
use crate::rows::exchange;
use base_fractions::OrderedField;
use lp_dictionary::{
    Entry, PivotFault, Problem, Tableau, goal_count, lowest_side, names_from, other_names,
    value_in, zero_place,
};
use std::alloc::{AllocError, Global};

/// A dictionary that keeps for each row, those of the basic variables and then those of the goals, the entries that are not
/// zero, by rising column, the constant last. With fractions an entry takes 24 bytes.
/// A pivot changes the rows that have its column and no others; their old lists hold the next rows, so memory is taken only where a
/// list grows.
#[derive(Drop)]
pub struct Sparse<F> {
    rows: Vec<SparseRow<F>>,
    basics: Vec<u32>,
    others: Vec<u32>,
    goals: usize,
    spent: bool,
    divided: Vec<Entry<F>>,
    merged: Vec<Entry<F>>,
    ghost sized: { length rows.items ≡ length basics.items + goals },
    ghost two: { goals ≤ 2 },
    ghost few: { length others.items < 4294967296 },
    ghost rising: { spent ≡ false
        → EachRises (suc (length others.items)) rows.items } by { Prim.hlevel (EachRises-prop (suc (length others.items)) rows.items) },
}

impl<F: OrderedField> Tableau<F> for Sparse<F> {
    ghost use Rattle.std.specs.Prelude.{◌≢◌, true, None, OnOk, IfOk, IfErr};
    ghost use Rattle.base_numbers.specs.Rational.{zero_ℚ};
    ghost use Rattle.lp_theory.specs.Table.{Agree, pivot_table};
    ghost use Rattle.lp_theory.specs.Run.{leave_table};
    ghost use Rattle.base_fractions.specs.Operation.{first_wide};
    ghost use Rattle.lp_dictionary.specs.Exact.{exact, IsShaped, start_table};
    ghost use Rattle.lp_dictionary.specs.PivotOperations.{pivot_operations};
    ghost use Rattle.lp_dictionary.specs.Faults.{Refuses};
    ghost use Rattle.lp_sparse.specs.SparseTable.{sparse_table, KeepsNoZero};

    ghost table = { sparse_table F.meaning };

    ghost spent = { λ d. d.spent };

    fn build(alloc: Global, problem: &Problem<F>) -> Result<Self, AllocError>
        requires { IsShaped problem.now }
        ensures first { IfOk result (λ t. Agree (start_table (exact F.meaning problem.now)) (sparse_table F.meaning t)) }
        ensures fresh { IfOk result (λ t. t.spent ≡ false) }
        ensures no_zero { IfOk result (KeepsNoZero F.meaning) }
    {
        let cols = problem.goal.len() as u32;
        let auxiliary = lowest_side(problem).is_some();
        let rows = first_rows(alloc, problem, auxiliary)?;
        let basics = names_from(alloc, cols + 1, problem.rows.len() as u32)?;
        let others = other_names(alloc, cols, auxiliary)?;
        Ok(Sparse {
            rows,
            basics,
            others,
            goals: goal_count(auxiliary),
            spent: false,
            divided: Vec::new(alloc),
            merged: Vec::new(alloc),
        })
    }

    fn entry(&self, row: u32, col: u32) -> F {
        value_in(&self.rows[row as usize].entries, col)
    }

    fn constant(&self, row: u32) -> F {
        value_in(&self.rows[row as usize].entries, self.others.len() as u32)
    }

    fn basic(&self, row: u32) -> u32 {
        self.basics[row as usize]
    }

    fn other(&self, col: u32) -> u32 {
        self.others[col as usize]
    }

    fn pivot(&mut self, row: u32, col: u32) -> Result<(), PivotFault<F>>
        requires row { row < (sparse_table F.meaning self.old).rows }
        requires col { col < (sparse_table F.meaning self.old).width }
        requires entry { (sparse_table F.meaning self.old).entry row col ≢ zero_ℚ }
        requires fresh { self.old.spent ≡ false }
        ensures exchanged { OnOk result (Agree (pivot_table (sparse_table F.meaning self.old) row col) (sparse_table F.meaning self.new)) }
        ensures fits { OnOk result (first_wide F.LIMIT (pivot_operations (sparse_table F.meaning self.old) row col) ≡ None) }
        ensures refused { IfErr result (λ e. Refuses F.meaning F.LIMIT (pivot_operations (sparse_table F.meaning self.old) row col) e) }
        ensures fresh { OnOk result (self.new.spent ≡ false) }
        ensures spoilt { IfErr result (λ e. self.new.spent ≡ true) }
        ensures no_zero { OnOk result (KeepsNoZero F.meaning self.old → KeepsNoZero F.meaning self.new) }
    {
        match exchange(
            &mut self.rows,
            &mut self.divided,
            &mut self.merged,
            row as usize,
            col,
        ) {
            Ok(()) => {
                let leaving = self.basics[row as usize];
                self.basics[row as usize] = self.others[col as usize];
                self.others[col as usize] = leaving;
                Ok(())
            }
            Err(fault) => {
                self.spent = true;
                Err(fault)
            }
        }
    }

    fn leave_first(&mut self)
        requires goals { (sparse_table F.meaning self.old).goals ≡ 2 }
        requires auxiliary { (k : ℕ) × (k < (sparse_table F.meaning self.old).width) × ((sparse_table F.meaning self.old).col_name k ≡ 0) }
        requires fresh { self.old.spent ≡ false }
        ensures left { Agree (leave_table (sparse_table F.meaning self.old)) (sparse_table F.meaning self.new) }
        ensures fresh { self.new.spent ≡ false }
        ensures no_zero { KeepsNoZero F.meaning self.old → KeepsNoZero F.meaning self.new }
    {
        let col = zero_place(&self.others);
        leave_out_with_row(&mut self.rows, col as u32, self.basics.len());
        self.others.remove(col);
        self.goals = 1;
    }

    fn is_spent(&self) -> bool {
        self.spent
    }
}

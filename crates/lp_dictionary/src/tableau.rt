//! What any tableau of the simplex method does.
use crate::problem::Problem;
use base_fractions::{OrderedField, Wide};
use std::alloc::{AllocError, Global};

/// Why a pivot was refused: its first operation that is wide, or want of memory.
#[derive(Drop)]
pub enum PivotFault<F> {
    Wide(Wide<F>),
    NoMemory,
}

/// A dictionary of a linear problem: each basic variable, and then each goal, as a constant plus coefficients of the other variables.
///
/// Rows and columns are counted from 0. With C columns and R rows of the problem, name 0 is the auxiliary variable, 1 to C are
/// the columns and C + 1 to C + R the slacks. The rows of the goals follow those of the basic variables.
/// After a refused pivot the dictionary is spent, and its entries mean nothing.
pub trait Tableau<F: OrderedField>: Sized + Drop {
    ghost use Rattle.std.specs.Prelude.{◌≡◌, ◌≢◌, ℕ, ◌+◌, ◌<◌, Bool, true, false, None, IfOk, IfErr, OnOk};
    ghost use Rattle.base_numbers.specs.Rational.{zero_ℚ};
    ghost use Rattle.lp_theory.specs.Table.{Table, Agree, pivot_table};
    ghost use Rattle.lp_theory.specs.Run.{leave_table};
    ghost use Rattle.lp_dictionary.specs.Exact.{exact, IsShaped, start_table};
    ghost use Rattle.base_fractions.specs.Operation.{first_wide};
    ghost use Rattle.lp_dictionary.specs.PivotOperations.{pivot_operations};
    ghost use Rattle.lp_dictionary.specs.Faults.{Refuses};

    // The exact dictionary that the tableau holds.
    ghost table: { Self → Table };

    // Whether a pivot was refused.
    ghost spent: { Self → Bool };

    /// The first dictionary of the problem: with the auxiliary variable in the last column and two goals where some side is
    /// below 0, else with the problem's goal alone.
    fn build(alloc: Global, problem: &Problem<F>) -> Result<Self, AllocError>
        requires { IsShaped problem.now }
        ensures first { IfOk result (λ t. Agree (start_table (exact F.meaning problem.now)) (table t)) }
        ensures fresh { IfOk result (λ t. spent t ≡ false) };

    /// The coefficient at a column of the row of a basic variable or of a goal.
    fn entry(&self, row: u32, col: u32) -> F
        requires row { row < (table self.now).rows + (table self.now).goals }
        requires col { col < (table self.now).width }
        requires fresh { spent self.now ≡ false }
        ensures { F.meaning result ≡ (table self.now).entry row col };

    /// The constant of the row of a basic variable or of a goal.
    fn constant(&self, row: u32) -> F
        requires row { row < (table self.now).rows + (table self.now).goals }
        requires fresh { spent self.now ≡ false }
        ensures { F.meaning result ≡ (table self.now).entry row (table self.now).width };

    /// The name of a row's basic variable.
    fn basic(&self, row: u32) -> u32
        requires row { row < (table self.now).rows }
        requires fresh { spent self.now ≡ false }
        ensures { result ≡ (table self.now).row_name row };

    /// The name of a column's variable.
    fn other(&self, col: u32) -> u32
        requires col { col < (table self.now).width }
        requires fresh { spent self.now ≡ false }
        ensures { result ≡ (table self.now).col_name col };

    /// Exchanges the variables of a row and a column whose entry is not zero. `Wide` comes exactly where an operation of the
    /// four formulas is wide, and names the first: the pivot's row by rising column, the constant last, and then each other
    /// row. A refusal leaves the dictionary spent.
    fn pivot(&mut self, row: u32, col: u32) -> Result<(), PivotFault<F>>
        requires row { row < (table self.old).rows }
        requires col { col < (table self.old).width }
        requires entry { (table self.old).entry row col ≢ zero_ℚ }
        requires fresh { spent self.old ≡ false }
        ensures exchanged { OnOk result (Agree (pivot_table (table self.old) row col) (table self.new)) }
        ensures fits { OnOk result (first_wide F.LIMIT (pivot_operations (table self.old) row col) ≡ None) }
        ensures refused { IfErr result (λ e. Refuses F.meaning F.LIMIT (pivot_operations (table self.old) row col) e) }
        ensures fresh { OnOk result (spent self.new ≡ false) }
        ensures spoilt { IfErr result (λ e. spent self.new ≡ true) };

    /// Leaves out the column of the auxiliary variable, which is not basic, and the first of two goals. Later columns keep their
    /// order. Takes no memory.
    fn leave_first(&mut self)
        requires goals { (table self.old).goals ≡ 2 }
        requires auxiliary { (k : ℕ) × (k < (table self.old).width) × ((table self.old).col_name k ≡ 0) }
        requires fresh { spent self.old ≡ false }
        ensures left { Agree (leave_table (table self.old)) (table self.new) }
        ensures fresh { spent self.new ≡ false };

    /// Whether a pivot was refused.
    fn is_spent(&self) -> bool
        ensures { result ≡ spent self.now };
}

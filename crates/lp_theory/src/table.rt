//! Dictionaries by rows and columns.
ghost use Rattle.std.specs.Prelude.{◌≡◌, ◌≢◌, ℕ, suc, ◌<◌};
ghost use Rattle.base_numbers.specs.Rational.{zero_ℚ};
ghost use Rattle.lp_theory.specs.Problem.{Problem};
ghost use Rattle.lp_theory.specs.Dictionary.{Dict, IsDict, pivot, drop_zero};
ghost use Rattle.lp_theory.specs.Simplex.{names, first_dict};
ghost use Rattle.lp_theory.specs.Table.{Table, Shows, pivot_table, drop_table};
ghost use Rattle.lp_theory.specs.FirstTable.{first_table, plain_table};

/// The tables that a run begins with show the first dictionary, without the auxiliary variable where no side is below 0.
pub fn first_tables_show()
    ensures first { (P : Problem) → Shows (names P) (first_table P) (first_dict P) }
    ensures plain { (P : Problem) → Shows (names P) (plain_table P) (drop_zero (first_dict P)) }
{}

/// The four formulas of a pivot make of a table that shows a dictionary one that shows the dictionary after the pivot.
pub fn formulas_show_the_pivot()
    ensures { (n : ℕ) (T : Table) (D : Dict) → Shows n T D → IsDict n D → (r c : ℕ) → r < T.rows → c < T.width → T.entry r c ≢ zero_ℚ →
        Shows n (pivot_table T r c) (pivot D (T.row_name r) (T.col_name c)) }
{}

/// Without the auxiliary variable's column and the first goal a table shows the dictionary in which that variable is 0.
pub fn dropped_table_shows()
    ensures { (n : ℕ) (T : Table) (D : Dict) → Shows n T D → IsDict n D → (goals width z : ℕ) → T.goals ≡ suc goals → T.width ≡ suc width →
        z < T.width → T.col_name z ≡ 0 → Shows n (drop_table T goals width z) (drop_zero D) }
{}

//! The two phases and their outcome.
ghost use Rattle.std.specs.Prelude.{◌≡◌, ◌≢◌, ℕ, ◌+◌, ◌<◌, ◌≤◌, false, Some, None, IfOk, IfErr, OnOk};
ghost use Rattle.base_numbers.specs.Rational.{zero_ℚ};
ghost use Rattle.lp_theory.specs.Search.{found};
ghost use Rattle.lp_theory.specs.Simplex.{lp, lowest};
ghost use Rattle.lp_theory.specs.Table.{Agree, pivot_table};
ghost use Rattle.lp_theory.specs.FirstTable.{first_table};
ghost use Rattle.lp_theory.specs.Run.{main_phase};
ghost use Rattle.lp_dictionary.specs.Exact.{exact, IsShaped};
ghost use Rattle.base_fractions.specs.Operation.{first_wide};
ghost use Rattle.lp_dictionary.specs.PivotOperations.{pivot_operations};
ghost use Rattle.lp_simplex.specs.Operations.{first_refused, whole_phase, run_operations};
ghost use Rattle.lp_simplex.specs.Outcomes.{IsOutcomeOf, HasEvidence, SaysSupremum};
ghost use Rattle.lp_simplex.specs.Answers.{BeginsPhase, EntersRefused, RefusesRun, ReadsBest, ReadsRay, main_outcome};

use crate::outcome::{Outcome, SolveFault};
use crate::phase::{End, run_phase};
use crate::read::{basic_values, entering_values, goal_multipliers};
use base_fractions::OrderedField;
use base_watch::{Unwatched, Watch};
use lp_dictionary::{PivotFault, Problem, Tableau, lowest_side};
use std::alloc::{AllocError, Global};

/// The special first pivot of the first phase: the auxiliary variable, in the last column, enters in the row of the least side.
fn enter_auxiliary<F: OrderedField, T: Tableau<F>>(
    tableau: &mut T,
    row: u32,
    cols: u32,
) -> Result<(), SolveFault<F>>
    requires row { row < (T.table tableau.old).rows }
    requires col { cols < (T.table tableau.old).width }
    requires entry { (T.table tableau.old).entry row cols ≢ zero_ℚ }
    requires fresh { T.spent tableau.old ≡ false }
    ensures entered { OnOk result (Agree (pivot_table (T.table tableau.old) row cols) (T.table tableau.new)) }
    ensures fits { OnOk result (first_wide F.LIMIT (pivot_operations (T.table tableau.old) row cols) ≡ None) }
    ensures fresh { OnOk result (T.spent tableau.new ≡ false) }
    ensures refused { IfErr result (λ e. EntersRefused F.meaning F.LIMIT (pivot_operations (T.table tableau.old) row cols) e) }
{
    match tableau.pivot(row, cols) {
        Ok(()) => Ok(()),
        Err(PivotFault::Wide(wide)) => Err(SolveFault::Wide { pivot: 1, wide }),
        Err(PivotFault::NoMemory) => Err(SolveFault::NoMemory),
    }
}

/// The point, the value and the multipliers of the last dictionary.
fn best<F: OrderedField, T: Tableau<F>>(
    alloc: Global,
    tableau: &T,
    rows: u32,
    cols: u32,
) -> Result<Outcome<F>, AllocError>
    requires rows { rows ≡ (T.table tableau.now).rows }
    requires cols { cols ≡ (T.table tableau.now).width }
    requires goals { 0 < (T.table tableau.now).goals }
    requires rows_apart { (i j : ℕ) → i < rows → j < rows → (T.table tableau.now).row_name i ≡ (T.table tableau.now).row_name j → i ≡ j }
    requires cols_apart { (i j : ℕ) → i < cols → j < cols → (T.table tableau.now).col_name i ≡ (T.table tableau.now).col_name j → i ≡ j }
    requires fresh { T.spent tableau.now ≡ false }
    ensures { IfOk result (λ o. ReadsBest F.meaning (T.table tableau.now) rows cols o) }
{
    let point = basic_values(alloc, tableau, rows, cols, cols, cols)?;
    let multipliers = goal_multipliers(alloc, tableau, rows, cols, cols)?;
    Ok(Outcome::Best {
        point,
        value: tableau.constant(rows),
        multipliers,
    })
}

/// The point of the last dictionary and the direction of the entering column.
fn unbounded<F: OrderedField, T: Tableau<F>>(
    alloc: Global,
    tableau: &T,
    rows: u32,
    cols: u32,
    col: u32,
) -> Result<Outcome<F>, AllocError>
    requires rows { rows ≡ (T.table tableau.now).rows }
    requires cols { cols ≡ (T.table tableau.now).width }
    requires col { col < cols }
    requires rows_apart { (i j : ℕ) → i < rows → j < rows → (T.table tableau.now).row_name i ≡ (T.table tableau.now).row_name j → i ≡ j }
    requires fresh { T.spent tableau.now ≡ false }
    ensures { IfOk result (λ o. ReadsRay F.meaning (T.table tableau.now) rows cols col o) }
{
    let point = basic_values(alloc, tableau, rows, cols, cols, cols)?;
    let ray = entering_values(alloc, tableau, rows, cols, col, cols)?;
    Ok(Outcome::Unbounded { point, ray })
}

/// The second phase after `made` pivots, and its outcome.
fn second_phase<F: OrderedField, T: Tableau<F>, W: Watch>(
    alloc: Global,
    problem: &Problem<F>,
    tableau: &mut T,
    made: u32,
    watch: &mut W,
) -> Result<Outcome<F>, SolveFault<F>>
    requires shaped { IsShaped problem.now }
    requires begins { BeginsPhase (exact F.meaning problem.now) false made (T.table tableau.old) }
    requires fresh { T.spent tableau.old ≡ false }
    ensures outcome { IfOk result (λ o. IsOutcomeOf F.meaning (exact F.meaning problem.now) (main_outcome (exact F.meaning problem.now))
        o) }
    ensures fits { OnOk result (first_refused F.LIMIT (whole_phase (exact F.meaning problem.now) (main_phase (exact F.meaning problem.now)))
        ≡ None) }
    ensures refused { IfErr result (λ e. RefusesRun F.meaning F.LIMIT
        (whole_phase (exact F.meaning problem.now) (main_phase (exact F.meaning problem.now))) e) }
{
    let rows = problem.rows.len() as u32;
    let cols = problem.goal.len() as u32;
    let ended = run_phase(problem, false, tableau, made, watch)?;
    match ended.end {
        End::AtBest => Ok(best(alloc, tableau, rows, cols)?),
        End::AtRay(col) => Ok(unbounded(alloc, tableau, rows, cols, col)?),
        End::Left => unreachable!(),
    }
}

/// The first phase, where the row of the least side has a side below 0, and then the second.
fn both_phases<F: OrderedField, T: Tableau<F>, W: Watch>(
    alloc: Global,
    problem: &Problem<F>,
    tableau: &mut T,
    row: u32,
    watch: &mut W,
) -> Result<Outcome<F>, SolveFault<F>>
    requires shaped { IsShaped problem.now }
    requires least { lowest (exact F.meaning problem.now) ≡ found row }
    requires table { Agree (first_table (exact F.meaning problem.now)) (T.table tableau.old) }
    requires fresh { T.spent tableau.old ≡ false }
    ensures outcome { IfOk result (λ o. IsOutcomeOf F.meaning (exact F.meaning problem.now) (lp (exact F.meaning problem.now)) o) }
    ensures fits { OnOk result (first_refused F.LIMIT (run_operations (exact F.meaning problem.now)) ≡ None) }
    ensures refused { IfErr result (λ e. RefusesRun F.meaning F.LIMIT (run_operations (exact F.meaning problem.now)) e) }
{
    let rows = problem.rows.len() as u32;
    let cols = problem.goal.len() as u32;
    enter_auxiliary(tableau, row, cols)?;
    let ended = run_phase(problem, true, tableau, 1, watch)?;
    match ended.end {
        End::Left => {
            tableau.leave_first();
            second_phase(alloc, problem, tableau, ended.pivots, watch)
        }
        _ => Ok(Outcome::Empty {
            multipliers: goal_multipliers(alloc, tableau, rows, cols, cols + 1)?,
        }),
    }
}

/// The greatest value of the goal over the columns that are at least 0 and meet each row, with its evidence, by Bland's rule.
///
/// `Best`, `Unbounded` and `Empty` come exactly as the supremum is attained, absent or over no point. Their numbers are those of
/// the last dictionary of the exact run. `Wide` comes exactly where an operation of that run is wide, and names the first with
/// the number of its pivot, at most 4294967295. `watch` is told the number of pivots of both phases at each further thousand;
/// what is answered doesn't depend on it.
pub fn solve_watched<F: OrderedField, T: Tableau<F>, W: Watch>(
    alloc: Global,
    problem: &Problem<F>,
    watch: &mut W,
) -> Result<Outcome<F>, SolveFault<F>>
    requires { IsShaped problem.now }
    ensures outcome { IfOk result (λ o. IsOutcomeOf F.meaning (exact F.meaning problem.now) (lp (exact F.meaning problem.now)) o) }
    ensures evidence { IfOk result (λ o. HasEvidence F.meaning (exact F.meaning problem.now) o) }
    ensures supremum { IfOk result (λ o. SaysSupremum F.meaning (exact F.meaning problem.now) o) }
    ensures fits { OnOk result (first_refused F.LIMIT (run_operations (exact F.meaning problem.now)) ≡ None) }
    ensures refused { IfErr result (λ e. RefusesRun F.meaning F.LIMIT (run_operations (exact F.meaning problem.now)) e) }
{
    let mut tableau = T::build(alloc, problem)?;
    match lowest_side(problem) {
        None => second_phase(alloc, problem, &mut tableau, 0, watch),
        Some(row) => both_phases(alloc, problem, &mut tableau, row, watch),
    }
}

/// What `solve_watched` answers, unwatched.
pub fn solve<F: OrderedField, T: Tableau<F>>(
    alloc: Global,
    problem: &Problem<F>,
) -> Result<Outcome<F>, SolveFault<F>>
    requires { IsShaped problem.now }
    ensures outcome { IfOk result (λ o. IsOutcomeOf F.meaning (exact F.meaning problem.now) (lp (exact F.meaning problem.now)) o) }
    ensures evidence { IfOk result (λ o. HasEvidence F.meaning (exact F.meaning problem.now) o) }
    ensures supremum { IfOk result (λ o. SaysSupremum F.meaning (exact F.meaning problem.now) o) }
    ensures fits { OnOk result (first_refused F.LIMIT (run_operations (exact F.meaning problem.now)) ≡ None) }
    ensures refused { IfErr result (λ e. RefusesRun F.meaning F.LIMIT (run_operations (exact F.meaning problem.now)) e) }
{
    solve_watched::<F, T, Unwatched>(alloc, problem, &mut Unwatched)
}

//! The entering column and the leaving row of Bland's rule, found without memory.
ghost use Rattle.std.specs.Prelude.{◌≡◌, ◌+◌, ◌<◌, Some, None, false, MatchBool, MatchResult};
ghost use Rattle.base_fractions.specs.Operation.{first_wide, operation_of};
ghost use Rattle.lp_simplex.specs.Operations.{ratio_operation, ratio_operations};
ghost use Rattle.lp_simplex.specs.Choices.{EntersAt, RatioAt, IsBefore, LeavesOf, CandidateOf};

use base_fractions::{OrderedField, Wide};
use lp_dictionary::Tableau;
use std::cmp::Ordering;

/// A row that may leave, and its ratio.
#[derive(Clone, Copy, Drop)]
pub struct Candidate<F> {
    pub row: u32,
    pub ratio: F,
}

/// The column that enters after one more column is looked at.
fn smaller_column<F: OrderedField, T: Tableau<F>>(
    tableau: &T,
    goal: u32,
    col: u32,
    best: Option<u32>,
) -> Option<u32>
    requires goal { goal < (T.table tableau.now).rows + (T.table tableau.now).goals }
    requires col { col < (T.table tableau.now).width }
    requires fresh { T.spent tableau.now ≡ false }
    requires best { EntersAt (T.table tableau.now) goal col best }
    ensures { EntersAt (T.table tableau.now) goal (col + 1) result }
{
    if tableau.entry(goal, col).num() <= 0 {
        return best;
    }
    if let Some(other) = best {
        if tableau.other(other) < tableau.other(col) {
            return best;
        }
    }
    Some(col)
}

/// The column of the smallest name with a positive coefficient in the row of a goal.
pub fn entering_column<F: OrderedField, T: Tableau<F>>(
    tableau: &T,
    goal: u32,
    width: u32,
) -> Option<u32>
    requires goal { goal < (T.table tableau.now).rows + (T.table tableau.now).goals }
    requires width { width ≡ (T.table tableau.now).width }
    requires fresh { T.spent tableau.now ≡ false }
    ensures { EntersAt (T.table tableau.now) goal width result }
{
    let mut best = None;
    for col in 0..width {
        best = smaller_column(tableau, goal, col, best);
    }
    best
}

/// The ratio of a row: its constant over its negated entry, if that entry is negative.
fn ratio<F: OrderedField, T: Tableau<F>>(
    tableau: &T,
    row: u32,
    col: u32,
) -> Result<Option<F>, Wide<F>>
    requires row { row < (T.table tableau.now).rows }
    requires col { col < (T.table tableau.now).width }
    requires fresh { T.spent tableau.now ≡ false }
    ensures { MatchResult result (λ o. RatioAt F.meaning (T.table tableau.now) col row o
        × (first_wide F.LIMIT (ratio_operation (T.table tableau.now) col row) ≡ None))
        (λ w. first_wide F.LIMIT (ratio_operation (T.table tableau.now) col row) ≡ Some (operation_of F.meaning w)) }
{
    let entry = tableau.entry(row, col);
    if entry.num() >= 0 {
        return Ok(None);
    }
    let quotient = tableau.constant(row).over(entry.negate())?;
    Ok(Some(quotient))
}

/// Whether a row with this ratio leaves before the best so far.
fn is_before<F: OrderedField, T: Tableau<F>>(
    tableau: &T,
    row: u32,
    ratio: F,
    best: Candidate<F>,
) -> bool
    requires row { row < (T.table tableau.now).rows }
    requires best { best.row < (T.table tableau.now).rows }
    requires fresh { T.spent tableau.now ≡ false }
    ensures { MatchBool result (IsBefore (F.meaning ratio) ((T.table tableau.now).row_name row) (F.meaning best.ratio)
        ((T.table tableau.now).row_name best.row))
        (¬ (IsBefore (F.meaning ratio) ((T.table tableau.now).row_name row) (F.meaning best.ratio)
        ((T.table tableau.now).row_name best.row))) }
{
    match ratio.cmp(&best.ratio) {
        Ordering::Less => true,
        Ordering::Equal => tableau.basic(row) < tableau.basic(best.row),
        Ordering::Greater => false,
    }
}

/// The candidate after a row with a negative entry and this ratio.
fn better<F: OrderedField, T: Tableau<F>>(
    tableau: &T,
    row: u32,
    col: u32,
    quotient: F,
    best: Option<Candidate<F>>,
) -> Candidate<F>
    requires row { row < (T.table tableau.now).rows }
    requires fresh { T.spent tableau.now ≡ false }
    requires ratio { RatioAt F.meaning (T.table tableau.now) col row (Some quotient) }
    requires best { CandidateOf F.meaning (T.table tableau.now) col row best }
    ensures { CandidateOf F.meaning (T.table tableau.now) col (row + 1) (Some result) }
{
    if let Some(other) = best {
        if !is_before(tableau, row, quotient, other) {
            return other;
        }
    }
    Candidate {
        row,
        ratio: quotient,
    }
}

/// The candidate after one more row is looked at.
fn next_candidate<F: OrderedField, T: Tableau<F>>(
    tableau: &T,
    row: u32,
    col: u32,
    best: Option<Candidate<F>>,
) -> Result<Option<Candidate<F>>, Wide<F>>
    requires row { row < (T.table tableau.now).rows }
    requires col { col < (T.table tableau.now).width }
    requires fresh { T.spent tableau.now ≡ false }
    requires best { CandidateOf F.meaning (T.table tableau.now) col row best }
    ensures { MatchResult result (λ o. CandidateOf F.meaning (T.table tableau.now) col (row + 1) o
        × (first_wide F.LIMIT (ratio_operation (T.table tableau.now) col row) ≡ None))
        (λ w. first_wide F.LIMIT (ratio_operation (T.table tableau.now) col row) ≡ Some (operation_of F.meaning w)) }
{
    match ratio(tableau, row, col)? {
        None => Ok(best),
        Some(quotient) => Ok(Some(better(tableau, row, col, quotient, best))),
    }
}

/// The row of the least ratio among those with a negative entry in the column, the smallest name on ties. The ratios are formed
/// row by row from the first; `Wide` comes exactly where one of them is wide, and names the first.
pub fn leaving_row<F: OrderedField, T: Tableau<F>>(
    tableau: &T,
    rows: u32,
    col: u32,
) -> Result<Option<u32>, Wide<F>>
    requires rows { rows ≡ (T.table tableau.now).rows }
    requires col { col < (T.table tableau.now).width }
    requires fresh { T.spent tableau.now ≡ false }
    ensures { MatchResult result (λ o. LeavesOf (T.table tableau.now) col rows o
        × (first_wide F.LIMIT (ratio_operations (T.table tableau.now) col) ≡ None))
        (λ w. first_wide F.LIMIT (ratio_operations (T.table tableau.now) col) ≡ Some (operation_of F.meaning w)) }
{
    let mut best = None;
    for row in 0..rows {
        best = next_candidate(tableau, row, col, best)?;
    }
    match best {
        None => Ok(None),
        Some(candidate) => Ok(Some(candidate.row)),
    }
}

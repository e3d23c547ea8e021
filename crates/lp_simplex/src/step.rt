//! One step of Bland's rule.
ghost use Rattle.std.specs.Prelude.{◌≡◌, ◌+◌, ◌<◌, false, IfOk, IfErr, OnOk};
ghost use Rattle.lp_simplex.specs.Choices.{StepIs, StepRefused};

use crate::outcome::SolveFault;
use crate::scan::{entering_column, leaving_row};
use base_fractions::OrderedField;
use lp_dictionary::{PivotFault, Tableau};

/// What a step of the rule did: nothing, since no column enters or since no row leaves, or a pivot in which the name left.
#[derive(Clone, Copy, Drop)]
pub enum Step {
    Optimal,
    Ray(u32),
    Pivot(u32),
}

/// A step of the rule with the goal in the row after the basic variables' `rows`. A wide ratio or formula comes with the number
/// of the pivot.
pub fn make_step<F: OrderedField, T: Tableau<F>>(
    tableau: &mut T,
    rows: u32,
    width: u32,
    number: u32,
) -> Result<Step, SolveFault<F>>
    requires rows { rows ≡ (T.table tableau.old).rows }
    requires goals { 0 < (T.table tableau.old).goals }
    requires width { width ≡ (T.table tableau.old).width }
    requires fresh { T.spent tableau.old ≡ false }
    ensures made { IfOk result (λ s. StepIs F.LIMIT (T.table tableau.old) (T.table tableau.new) rows width s) }
    ensures fresh { OnOk result (T.spent tableau.new ≡ false) }
    ensures refused { IfErr result (λ e. StepRefused F.meaning F.LIMIT (T.table tableau.old) rows width number e) }
{
    let Some(col) = entering_column(tableau, rows, width) else {
        return Ok(Step::Optimal);
    };
    let leaving = match leaving_row(tableau, rows, col) {
        Ok(leaving) => leaving,
        Err(wide) => return Err(SolveFault::Wide {
            pivot: number,
            wide,
        }),
    };
    let Some(row) = leaving else {
        return Ok(Step::Ray(col));
    };
    let name = tableau.basic(row);
    match tableau.pivot(row, col) {
        Ok(()) => Ok(Step::Pivot(name)),
        Err(PivotFault::Wide(wide)) => Err(SolveFault::Wide {
            pivot: number,
            wide,
        }),
        Err(PivotFault::NoMemory) => Err(SolveFault::NoMemory),
    }
}

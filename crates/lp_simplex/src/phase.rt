//! A phase of the method.
ghost use Rattle.std.specs.Prelude.{◌≡◌, ◌+◌, ◌<◌, false, IfOk, IfErr, OnOk};
ghost use Rattle.lp_theory.specs.Run.{phase_of};
ghost use Rattle.lp_dictionary.specs.Exact.{exact, IsShaped};
ghost use Rattle.lp_simplex.specs.Operations.{whole_phase};
ghost use Rattle.lp_simplex.specs.Answers.{BeginsPhase, EndsPhase, RefusesRun};

use crate::outcome::SolveFault;
use crate::step::{Step, make_step};
use base_fractions::OrderedField;
use base_watch::Watch;
use lp_dictionary::{Problem, Tableau};

/// Why a phase ended: no column enters, no row leaves for a column, or the auxiliary variable has left.
#[derive(Clone, Copy, Drop)]
pub enum End {
    AtBest,
    AtRay(u32),
    Left,
}

/// The end of a phase, and the number of all pivots so far, at most 4294967295.
#[derive(Clone, Copy, Drop)]
pub struct Ended {
    pub end: End,
    pub pivots: u32,
}

/// How many pivots there are between two tellings.
const TOLD_EACH: u32 = 1_000;

/// Tells how many pivots have been made, at each further thousand.
fn tell_pivots<W: Watch>(watch: &mut W, made: u32) {
    if made % TOLD_EACH == 0 {
        watch.pivots(made);
    }
}

/// Makes the pivots of a phase after `made` pivots, with the goal in the row after the basic variables: the first phase where
/// there is an auxiliary variable, else the second.
pub fn run_phase<F: OrderedField, T: Tableau<F>, W: Watch>(
    problem: &Problem<F>,
    auxiliary: bool,
    tableau: &mut T,
    made: u32,
    watch: &mut W,
) -> Result<Ended, SolveFault<F>>
    requires shaped { IsShaped problem.now }
    requires begins { BeginsPhase (exact F.meaning problem.now) auxiliary made (T.table tableau.old) }
    requires fresh { T.spent tableau.old ≡ false }
    ensures ends { IfOk result (λ r. EndsPhase F.LIMIT (exact F.meaning problem.now) auxiliary (T.table tableau.new) r.end r.pivots) }
    ensures fresh { OnOk result (T.spent tableau.new ≡ false) }
    ensures refused { IfErr result (λ e. RefusesRun F.meaning F.LIMIT
        (whole_phase (exact F.meaning problem.now) (phase_of (exact F.meaning problem.now) auxiliary)) e) }
{
    let rows = problem.rows.len() as u32;
    let width = problem.goal.len() as u32 + u32::from(auxiliary);
    let mut pivots = made;
    loop {
        let number = pivots.saturating_add(1);
        match make_step(tableau, rows, width, number)? {
            Step::Optimal => {
                return Ok(Ended {
                    end: End::AtBest,
                    pivots,
                });
            }
            Step::Ray(col) => {
                return Ok(Ended {
                    end: End::AtRay(col),
                    pivots,
                });
            }
            Step::Pivot(name) => {
                pivots = number;
                tell_pivots(watch, pivots);
                if name == 0 {
                    return Ok(Ended {
                        end: End::Left,
                        pivots,
                    });
                }
            }
        }
    }
}

//! The greatest vector that picked edges support on a list of unknowns.

ghost use Rattle.std.specs.Prelude.{◌≡◌, ◌+◌, ◌*◌, ◌<◌, ℕ, [], None, IfOk, MatchResult, length, map, get_or};
ghost use Rattle.base_fractions.specs.Fits.{long_limit};
ghost use Rattle.lp_theory.specs.Problem.{Problem as LinearProblem};
ghost use Rattle.lp_theory.specs.Simplex.{lp};
ghost use Rattle.lp_simplex.specs.Answers.{RefusesRun};
ghost use Rattle.lp_simplex.specs.Operations.{run_operations};
ghost use Rattle.lp_theory.specs.Listed.{list_problem};
ghost use Rattle.lp_simplex.specs.Outcomes.{IsOutcomeOf};
ghost use Rattle.flow_systems.specs.View.{equations_of, vector_of};
ghost use Rattle.theory_transformers.specs.JointProblems.{AllRising};
ghost use Rattle.solve_composition.specs.Composed.{AreComposed};
ghost use Rattle.solve_joint.specs.Numbers.{all_listed, ArePicked, Rises};
ghost use Rattle.solve_joint.specs.Joints.{RunFits, IsRunFault, JointAnswers, JoinedMeans};

use crate::joined::Joined;
use crate::joint_problem::joint_problem;
use crate::layout::layout;
use crate::read::read;
use base_fractions::Frac;
use base_watch::Watch;
use flow_systems::{Bounds, Part, PartFault, Pick, System};
use lp_simplex::{Outcome, Problem, SolveFault, solve_watched};
use lp_sparse::Sparse;
use solve_composition::Paths;
use std::alloc::Global;

// The fault of a run as a part of solving.
fn run_fault(fault: SolveFault<Frac>) -> PartFault
    ensures { (P : LinearProblem) → RefusesRun (λ q. q) long_limit (run_operations P) fault → IsRunFault P result }
{
    match fault {
        SolveFault::Wide { pivot, wide } => PartFault::Wide {
            part: Part::Pivot(pivot),
            wide,
        },
        SolveFault::NoMemory => PartFault::NoMemory,
    }
}

// The outcome of a problem.
fn solved<W: Watch>(
    alloc: Global,
    problem: &Problem<Frac>,
    watch: &mut W,
) -> Result<Outcome<Frac>, PartFault>
    requires rows { (r : ℕ) → r < length (map (λ r. r.coeffs) problem.now.rows.items) →
        length (get_or (map (λ r. r.coeffs) problem.now.rows.items) r []) ≡ length problem.now.goal }
    requires few { length problem.now.rows.items + length problem.now.goal < 4294967295 }
    ensures { MatchResult result (λ o. IsOutcomeOf (λ q. q)
        (list_problem (length problem.now.goal) (map (λ r. r.coeffs) problem.now.rows.items)
        (map (λ r. r.side) problem.now.rows.items) problem.now.goal)
        (lp (list_problem (length problem.now.goal) (map (λ r. r.coeffs) problem.now.rows.items)
        (map (λ r. r.side) problem.now.rows.items) problem.now.goal)) o
        × RunFits (list_problem (length problem.now.goal) (map (λ r. r.coeffs) problem.now.rows.items)
        (map (λ r. r.side) problem.now.rows.items) problem.now.goal))
        (λ f. IsRunFault (list_problem (length problem.now.goal) (map (λ r. r.coeffs) problem.now.rows.items)
        (map (λ r. r.side) problem.now.rows.items) problem.now.goal) f) }
{
    match solve_watched::<Frac, Sparse<Frac>, W>(alloc, problem, watch) {
        Ok(outcome) => Ok(outcome),
        Err(fault) => Err(run_fault(fault)),
    }
}

/// The greatest vector that the picked edges support on a rising list of unknowns, over a base that is finite at each of them
/// and that each picked edge's transformer exceeds there; or, exactly where there is no greatest one, the unknowns that grow
/// without end, with their rates and directions. The answer is read from the exact outcome of the joint problem: the number of
/// an unknown is base plus rise, and an entry of a trace or of a direction is the positive column minus the negative one. The
/// empty list gives a point with two empty lists. `docs/METHOD.md` has the joint problem. The watch is told of its pivots.
///
/// # Errors
///
/// `Wide` exactly where an operation is wide, with the first of them: in the part `Side` the end value's constant minus the
/// bound, in the order of the list; in the part `Pivot` those of the exact run; in the part `Reading` the numbers of the list
/// first and then the traces, and of a ray only the directions of unknowns with a rate above 0. `NoMemory`.
pub fn joint<W: Watch>(
    alloc: Global,
    system: &System,
    paths: &Paths,
    base: &Bounds,
    pick: &Pick,
    list: &[u32],
    watch: &mut W,
) -> Result<Joined, PartFault>
    requires composed { AreComposed (equations_of system.now) paths.now }
    requires base { length base.now ≡ length system.now.flow.points * length system.now.template }
    requires pick { length pick.now ≡ length system.now.flow.points * length system.now.template }
    requires rises { Rises 0 list.now }
    requires picked { ArePicked system.now pick.now list.now }
    requires rising { AllRising (equations_of system.now) (vector_of (length system.now.template) base.now)
        (all_listed system.now pick.now list.now) }
    ensures answer { JointAnswers system.now pick.now base.now list.now result }
    ensures means { IfOk result (λ j. JoinedMeans system.now pick.now base.now list.now j) }
{
    let problem = joint_problem(alloc, system, paths, base, pick, list)?;
    let outcome = solved(alloc, &problem, watch)?;
    match layout(alloc, system, paths, pick, list) {
        Ok(rises) => read(alloc, base, rises, outcome),
        Err(_) => Err(PartFault::NoMemory),
    }
}

//! Which dictionary the problem of a transformer is solved by.

ghost use Rattle.std.specs.Prelude.{◌≡◌, None, IfOk, IfErr, OnOk};
ghost use Rattle.base_numbers.specs.Rational.{ℚ};
ghost use Rattle.base_fractions.specs.Fits.{long_limit};
ghost use Rattle.lp_theory.specs.Simplex.{lp};
ghost use Rattle.lp_dictionary.specs.Exact.{exact, IsShaped};
ghost use Rattle.lp_simplex.specs.Answers.{RefusesRun};
ghost use Rattle.lp_simplex.specs.Operations.{first_refused, run_operations};
ghost use Rattle.lp_simplex.specs.Outcomes.{IsOutcomeOf};

use base_fractions::Frac;
use lp_dictionary::{Dict, Problem};
use lp_simplex::{Outcome, SolveFault, solve};
use lp_sparse::Sparse;
use std::alloc::Global;

// How many rows times columns a problem has at most that is solved by a dictionary with its zeros: a small one is faster so, and of a
// larger one most entries are 0 and stay so (docs/NUMBERS.md, "Size").
const MOST_DENSE: usize = 1200;

/// The outcome of a problem, which is that of the exact run by either dictionary.
///
/// `Wide` comes exactly where an operation of that run is wide, with the first.
pub(crate) fn outcome(
    alloc: Global,
    problem: &Problem<Frac>,
) -> Result<Outcome<Frac>, SolveFault<Frac>>
    requires { IsShaped problem.now }
    ensures outcome { IfOk result (λ o. IsOutcomeOf (λ q. q) (exact (λ q. q) problem.now) (lp (exact (λ q. q) problem.now)) o) }
    ensures fits { OnOk result (first_refused long_limit (run_operations (exact (λ q. q) problem.now)) ≡ None) }
    ensures refused { IfErr result (λ e. RefusesRun (λ q. q) long_limit (run_operations (exact (λ q. q) problem.now)) e) }
{
    let size = problem.rows.len().saturating_mul(problem.goal.len());
    if size <= MOST_DENSE {
        solve::<Frac, Dict<Frac>>(alloc, problem)
    } else {
        solve::<Frac, Sparse<Frac>>(alloc, problem)
    }
}

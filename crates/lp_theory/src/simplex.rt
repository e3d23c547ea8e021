//! The two phases.
ghost use Rattle.std.specs.Prelude.{ℕ, ◌<◌};
ghost use Rattle.base_numbers.specs.Rational.{ℚ};
ghost use Rattle.lp_theory.specs.Problem.{Problem, IsOutcome};
ghost use Rattle.lp_theory.specs.Dictionary.{Models};
ghost use Rattle.lp_theory.specs.Simplex.{names, first_dict, Equations, lp};

/// The first dictionary says what the problem's equations say.
pub fn first_dictionary_is_the_equations()
    ensures { (P : Problem) (V : ℕ → ℚ) → Models (names P) (first_dict P) V → Equations P V }
{}

/// Every linear program has an outcome, which `lp` reads from the last dictionary.
pub fn every_program_has_an_outcome()
    ensures { (P : Problem) → IsOutcome P (lp P) }
{}

//! Linear programs over columns of any sign.
ghost use Rattle.std.specs.Prelude.{ℕ};
ghost use Rattle.base_numbers.specs.Rational.{ℚ, ◌≤ℚ◌};
ghost use Rattle.lp_theory.specs.Problem.{Problem, value_at};
ghost use Rattle.lp_theory.specs.Free.{IsFreePoint, IsFreeBest, IsFreeEmpty, IsFreeOutcome, free_lp};

/// With each column put as a difference of two, every program over columns of any sign has an outcome.
pub fn every_free_program_has_an_outcome()
    ensures { (P : Problem) → IsFreeOutcome P (free_lp P) }
{}

/// Evidence over columns of any sign bounds each value, or excludes every point.
pub fn free_evidence_bounds()
    ensures best { (P : Problem) (x y : ℕ → ℚ) (v : ℚ) → IsFreeBest P x v y → (z : ℕ → ℚ) → IsFreePoint P z → value_at P z ≤ℚ v }
    ensures empty { (P : Problem) (y : ℕ → ℚ) → IsFreeEmpty P y → (x : ℕ → ℚ) → IsFreePoint P x → ⊥ }
{}

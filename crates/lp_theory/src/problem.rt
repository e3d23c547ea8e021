//! What the evidence of an outcome shows.
ghost use Rattle.std.specs.Prelude.{◌≡◌, ℕ};
ghost use Rattle.base_numbers.specs.Rational.{ℚ, zero_ℚ, ◌≤ℚ◌, ◌<ℚ◌};
ghost use Rattle.lp_theory.specs.Problem.{Problem, Outcome, value_at, moved, IsPoint, IsBest, IsUnbounded, IsEmpty, IsOutcome, SameKind};

/// Weak duality: multipliers of a best value bound the value of each point.
pub fn best_is_greatest()
    ensures { (P : Problem) (x y : ℕ → ℚ) (v : ℚ) → IsBest P x v y → (z : ℕ → ℚ) → IsPoint P z → value_at P z ≤ℚ v }
{}

/// Along the ray from its point all are points, and their values pass each bound.
pub fn ray_has_no_bound()
    ensures points { (P : Problem) (x d : ℕ → ℚ) → IsUnbounded P x d → (t : ℚ) → zero_ℚ ≤ℚ t → IsPoint P (moved x t d) }
    ensures exceeds { (P : Problem) (x d : ℕ → ℚ) → IsUnbounded P x d → (b : ℚ) → (t : ℚ) × (zero_ℚ ≤ℚ t) × IsPoint P (moved x t d)
        × (b <ℚ value_at P (moved x t d)) }
{}

/// Multipliers of an empty problem exclude every point.
pub fn empty_has_no_point()
    ensures { (P : Problem) (y : ℕ → ℚ) → IsEmpty P y → (x : ℕ → ℚ) → IsPoint P x → ⊥ }
{}

/// A problem has outcomes of one kind alone, and one best value.
pub fn outcome_is_of_one_kind()
    ensures { (P : Problem) (o p : Outcome) → IsOutcome P o → IsOutcome P p → SameKind o p }
{}

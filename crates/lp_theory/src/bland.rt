//! Bland's rule (R. G. Bland, "New finite pivoting rules for the simplex method", 1977).
ghost use Rattle.std.specs.Prelude.{◌≡◌, ℕ, suc, ◌<◌, ◌≤◌};
ghost use Rattle.base_numbers.specs.Rational.{◌≤ℚ◌};
ghost use Rattle.lp_theory.specs.Dictionary.{Dict, SameBasis};
ghost use Rattle.lp_theory.specs.Bland.{Choice, ChoiceIs, choose, next, after, stop_index, IsGood, IsStop, IsChain};

/// The choice is as the rule says, and nothing else is.
pub fn choice_is_determined()
    ensures is { (g n : ℕ) (D : Dict) → ChoiceIs g n D (choose g n D) }
    ensures only { (g n : ℕ) (D : Dict) (x : Choice) → ChoiceIs g n D x → choose g n D ≡ x }
{}

/// A step keeps a dictionary feasible and does not lower the goal.
pub fn step_keeps_feasible()
    ensures good { (g n : ℕ) (D : Dict) → IsGood n D → (j : ℕ) → IsGood n (after g n D j) }
    ensures goal { (g n : ℕ) (D : Dict) → IsGood n D → D.const g ≤ℚ (next g n D).const g }
{}

/// No set of basic names comes twice along the rule's pivots.
pub fn basis_does_not_repeat()
    ensures { (g n : ℕ) (D : ℕ → Dict) (c r : ℕ → ℕ) (k : ℕ) → IsChain g n D c r k → 0 < k → SameBasis n (D 0) (D k) → ⊥ }
{}

/// The rule stops, after fewer pivots than there are sets of names.
pub fn rule_stops()
    ensures { (g n : ℕ) (D : Dict) → IsGood n D → IsStop g n D (stop_index g n D) }
{}

//! What a dictionary means, and what a pivot does to it.
ghost use Rattle.std.specs.Prelude.{◌≡◌, ◌≢◌, ℕ, ◌<◌, true, false};
ghost use Rattle.base_numbers.specs.Rational.{ℚ, zero_ℚ};
ghost use Rattle.lp_theory.specs.Dictionary.{Dict, IsDict, Models, SameBasis, extend, pivot};

/// Any values of the names that are not basic extend to exactly one valuation that the dictionary describes.
pub fn free_values_extend()
    ensures exists { (n : ℕ) (D : Dict) → IsDict n D → (x : ℕ → ℚ) → Models n D (extend n D x) }
    ensures keeps { (n : ℕ) (D : Dict) → IsDict n D → (x : ℕ → ℚ) (k : ℕ) → D.basic k ≡ false → extend n D x k ≡ x k }
    ensures only { (n : ℕ) (D : Dict) → IsDict n D → (x V : ℕ → ℚ) → Models n D V → ((k : ℕ) → k < n → D.basic k ≡ false → V k ≡ x k)
        → (i : ℕ) →
        V i ≡ extend n D x i }
{}

/// A pivot at an entry that is not zero gives a dictionary of the same meaning.
pub fn pivot_keeps_the_meaning()
    ensures form { (n : ℕ) (D : Dict) → IsDict n D → (r c : ℕ) → r < n → c < n → D.basic r ≡ true → D.basic c ≡ false → D.coef r c ≢ zero_ℚ
        →
        IsDict n (pivot D r c) }
    ensures onwards { (n : ℕ) (D : Dict) (r c : ℕ) → r < n → (V : ℕ → ℚ) → Models n D V → Models n (pivot D r c) V }
    ensures backwards { (n : ℕ) (D : Dict) → IsDict n D → (r c : ℕ) → r < n → D.basic c ≡ false → D.coef r c ≢ zero_ℚ → (V : ℕ → ℚ) →
        Models n (pivot D r c) V → Models n D V }
{}

/// A dictionary is determined by its meaning and the set of its basic names.
pub fn basis_determines_the_dictionary()
    ensures constants { (n : ℕ) (D E : Dict) → IsDict n D → IsDict n E → SameBasis n D E → ((V : ℕ → ℚ) → Models n D V → Models n E V)
        → (i : ℕ) →
        D.const i ≡ E.const i }
    ensures coefficients { (n : ℕ) (D E : Dict) → IsDict n D → IsDict n E → SameBasis n D E → ((V : ℕ → ℚ) → Models n D V → Models n E V) →
        (i k : ℕ) → k < n → D.coef i k ≡ E.coef i k }
{}

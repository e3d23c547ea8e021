// Ordered fields whose numbers have a limited size.
use crate::exact::Exact;
use crate::limit::Limit;
use crate::wide::{Op, Wide};

/// Exact rational numbers of a limited size: each operation answers the exact result, or that it does not fit.
///
/// A value is a fraction in lowest terms. Numerator, apart from its sign, and denominator are at most `LIMIT`.
/// Wherever operations have answers, these obey the laws of an ordered field (`laws`).
pub trait OrderedField: Copy + Ord {
    ghost use Rattle.std.specs.Prelude.{ℤ, pos, ◌≤ℤ◌, ◌≡◌, ◌≢◌, ◌↔◌, ◌⊎◌, IsTrue, MatchOption, MatchResult};
    ghost use Rattle.base_numbers.specs.Rational.{ℚ, whole, zero_ℚ, one_ℚ, ◌+ℚ◌, ◌-ℚ◌, ◌*ℚ◌, ◌/ℚ◌, neg_ℚ};
    ghost use Rattle.base_numbers.specs.Compare.{cmp_ℚ};
    ghost use Rattle.base_fractions.specs.Fits.{Fits};
    ghost use Rattle.base_fractions.specs.Field.{IsOrderedField};
    ghost use Rattle.base_fractions.specs.Operation.{Answers, product_sum_operations};

    ghost LIMIT: { ℤ };

    // The rational number that a value stands for.
    ghost meaning: { Self → ℚ };

    /// The greatest number that a numerator, apart from its sign, or a denominator may be.
    const LIMIT: i64;

    /// The number `num / den`: `None` exactly where `den` is 0 or the lowest terms do not fit.
    fn make(num: i64, den: i64) -> Option<Self>
        ensures { MatchOption result ((den ≡ pos 0) ⊎ (¬ (Fits LIMIT (whole num /ℚ whole den)))) (λ r. (meaning r ≡ whole num /ℚ whole den)
            × Fits LIMIT (meaning r) × (den ≢ pos 0)) };

    /// The numerator in lowest terms; it has the sign of the number.
    fn num(self) -> i64
        ensures value { result ≡ (meaning self).num }
        ensures fits { Fits LIMIT (meaning self) };

    /// The denominator in lowest terms, at least 1.
    fn den(self) -> i64
        ensures value { result ≡ pos (meaning self).den }
        ensures fits { Fits LIMIT (meaning self) };

    /// The number with the other sign, which always fits.
    fn negate(self) -> Self
        ensures value { meaning result ≡ neg_ℚ (meaning self) }
        ensures fits { Fits LIMIT (meaning result) };

    /// The sum; `Wide` exactly where it does not fit.
    fn plus(self, right: Self) -> Result<Self, Wide<Self>>
        ensures { MatchResult result (λ r. (meaning r ≡ meaning self +ℚ meaning right) × Fits LIMIT (meaning r))
            (λ e. (¬ (Fits LIMIT (meaning self +ℚ meaning right))) × (e ≡ record { op = Op.Add; left = self; right = right })) };

    /// The difference; `Wide` exactly where it does not fit.
    fn minus(self, right: Self) -> Result<Self, Wide<Self>>
        ensures { MatchResult result (λ r. (meaning r ≡ meaning self -ℚ meaning right) × Fits LIMIT (meaning r))
            (λ e. (¬ (Fits LIMIT (meaning self -ℚ meaning right))) × (e ≡ record { op = Op.Sub; left = self; right = right })) };

    /// The product; `Wide` exactly where it does not fit.
    fn times(self, right: Self) -> Result<Self, Wide<Self>>
        ensures { MatchResult result (λ r. (meaning r ≡ meaning self *ℚ meaning right) × Fits LIMIT (meaning r))
            (λ e. (¬ (Fits LIMIT (meaning self *ℚ meaning right))) × (e ≡ record { op = Op.Mul; left = self; right = right })) };

    /// The quotient by a number that is not zero; `Wide` exactly where it does not fit.
    fn over(self, right: Self) -> Result<Self, Wide<Self>>
        requires { meaning right ≢ zero_ℚ }
        ensures { MatchResult result (λ r. (meaning r ≡ meaning self /ℚ meaning right) × Fits LIMIT (meaning r))
            (λ e. (¬ (Fits LIMIT (meaning self /ℚ meaning right))) × (e ≡ record { op = Op.Div; left = self; right = right })) };

    /// The sum with a product, `self + factor * other`; `Wide` exactly where the product or then the sum does not fit, with the operands of
    /// that one.
    fn add_product(self, factor: Self, other: Self) -> Result<Self, Wide<Self>>
        ensures { Answers meaning LIMIT (meaning self +ℚ meaning factor *ℚ meaning other)
            (product_sum_operations (meaning self) (meaning factor) (meaning other)) result };

    // Numbers up to 2 fit, and `i64` holds each part.
    ghost limit_low: { pos 2 ≤ℤ LIMIT };

    ghost limit_high: { LIMIT ≤ℤ pos 9223372036854775807 };

    // Two values of one meaning are one, and they are compared as the numbers are.
    ghost same: { (x y : Self) → meaning x ≡ meaning y → x ≡ y };

    ghost ordered: { (x y : Self) → Self.cmp x y ≡ cmp_ℚ (meaning x) (meaning y) };

    // The laws of an ordered field, wherever the operations have answers.
    ghost laws: { IsOrderedField meaning Self.cmp };

    /// The number 0.
    final fn zero() -> Self
        ensures value { meaning result ≡ zero_ℚ }
        ensures fits { Fits LIMIT (meaning result) }
    {
        Self::make(0, 1).unwrap()
    }

    /// The number 1.
    final fn one() -> Self
        ensures value { meaning result ≡ one_ℚ }
        ensures fits { Fits LIMIT (meaning result) }
    {
        Self::make(1, 1).unwrap()
    }

    /// Whether the number is 0.
    #[inline]
    final fn is_zero(self) -> bool
        ensures { IsTrue result ↔ meaning self ≡ zero_ℚ }
    {
        self.num() == 0
    }
}

impl<L: Limit> OrderedField for Exact<L> {
    ghost use Rattle.std.proofs.Common.{refl};
    ghost use Rattle.base_numbers.specs.Compare.{cmp_ℚ};
    ghost use Rattle.base_fractions.specs.Field.{ordered_field};

    ghost LIMIT = { L.LIMIT };

    ghost meaning = { λ q. q };

    ghost limit_low = { L.limit_low };

    ghost limit_high = { L.limit_high };

    ghost same = { λ x y e. e };

    ghost ordered = { λ x y. refl };

    ghost laws = { ordered_field (λ q. q) cmp_ℚ (λ x y e. e) (λ x y. refl) };

    const LIMIT: i64 = L::LIMIT;

    fn make(num: i64, den: i64) -> Option<Self> {
        Exact::make(num, den)
    }

    #[inline]
    fn num(self) -> i64 {
        Exact::num(self)
    }

    #[inline]
    fn den(self) -> i64 {
        Exact::den(self)
    }

    #[inline]
    fn negate(self) -> Self {
        Exact::negate(self)
    }

    #[inline]
    fn plus(self, right: Self) -> Result<Self, Wide<Self>> {
        Exact::plus(self, right)
    }

    #[inline]
    fn minus(self, right: Self) -> Result<Self, Wide<Self>> {
        Exact::minus(self, right)
    }

    #[inline]
    fn times(self, right: Self) -> Result<Self, Wide<Self>> {
        Exact::times(self, right)
    }

    #[inline]
    fn over(self, right: Self) -> Result<Self, Wide<Self>> {
        Exact::over(self, right)
    }

    #[inline]
    fn add_product(self, factor: Self, other: Self) -> Result<Self, Wide<Self>> {
        Exact::add_product(self, factor, other)
    }
}

// A fraction whose numerator and denominator are at most a limit.
mod compare;

use crate::limit::{Limit, LongLimit, ShortLimit};
use crate::parts::{fraction_parts, product_parts, signed_product, sum_parts, with_sign};
use crate::wide::{Op, Wide};
use std::marker::{Model, PhantomData};

/// A fraction whose parts are at most 9223372036854775807.
pub type Frac = Exact<LongLimit>;

/// A fraction whose parts are at most 32767.
pub type Short = Exact<ShortLimit>;

/// A fraction in lowest terms, with a denominator of at least 1; no part is above the limit. Contracts see it as a rational number.
#[derive(Clone, Copy, Debug)]
pub struct Exact<L: Limit> {
    num: i64,
    den: u64,
    of: PhantomData<L>,
}

impl<L: Limit> Model for Exact<L> {
    ghost use Rattle.base_numbers.specs.Rational.{ℚ, ratio};
    ghost use Rattle.base_fractions.specs.Fits.{IsKept, coded_ℚ};

    ghost Value = { ℚ };

    ghost coded = { coded_ℚ };

    ghost view = { λ a. ratio a.num a.den };

    ghost invariant = { λ a. IsKept L.LIMIT a.num a.den };

    ghost inverse = { λ q. record { num = q.num; den = q.den; of = record {} } };

    ghost use Rattle.base_fractions.specs.Kept.{kept-num, kept-den};
    ghost use Rattle.std.proofs.Common.{ap₂};

    ghost inverse_ok = { λ a h. ap₂ (λ n d. record { num = n; den = d; of = record {} }) (kept-num h) (kept-den h) };
}

impl<L: Limit> Exact<L> {
    ghost use Rattle.std.specs.Prelude.{◌≡◌, pos, MatchOption, MatchResult, ◌≢◌, ◌⊎◌, T};
    ghost use Rattle.base_numbers.specs.Rational.{ratio, is_reduced, whole, inv_ℚ, ◌+ℚ◌, ◌-ℚ◌, ◌*ℚ◌, ◌/ℚ◌, neg_ℚ, zero_ℚ};
    ghost use Rattle.base_fractions.specs.Fits.{Fits};
    ghost use Rattle.base_fractions.specs.Operation.{Answers, product_sum_operations};

    // n / d in lowest terms, or nothing where a part is above the limit.
    #[inline]
    fn store(n: i128, d: u128) -> Option<Self>
        requires { T (is_reduced n d) }
        ensures { MatchOption result (¬ (Fits L.LIMIT (ratio n d))) (λ r. (r ≡ ratio n d) × Fits L.LIMIT r) }
    {
        let limit = L::LIMIT as u128;
        if n.unsigned_abs() <= limit && d <= limit {
            Some(Exact {
                num: n as i64,
                den: d as u64,
                of: PhantomData,
            })
        } else {
            None
        }
    }

    /// The number `num / den`: `None` exactly where `den` is 0 or the lowest terms do not fit.
    pub fn make(num: i64, den: i64) -> Option<Self>
        ensures { MatchOption result ((den ≡ pos 0) ⊎ (¬ (Fits L.LIMIT (whole num /ℚ whole den))))
            (λ r. (r ≡ whole num /ℚ whole den) × Fits L.LIMIT r
            × (den ≢ pos 0)) }
    {
        if den == 0 {
            return None;
        }
        let (n, d) = fraction_parts(num, den);
        Self::store(n, d as u128)
    }

    /// The numerator in lowest terms; it has the sign of the number.
    pub fn num(self) -> i64
        ensures value { result ≡ self.num }
        ensures fits { Fits L.LIMIT self }
    {
        self.num
    }

    /// The denominator in lowest terms, at least 1.
    pub fn den(self) -> i64
        ensures value { result ≡ pos self.den }
        ensures fits { Fits L.LIMIT self }
    {
        self.den as i64
    }

    // The number n / d in lowest terms as the answer of an operation with these operands.
    #[inline]
    fn answer(op: Op, left: Self, right: Self, n: i128, d: u128) -> Result<Self, Wide<Self>>
        requires { T (is_reduced n d) }
        ensures { MatchResult result (λ r. (r ≡ ratio n d) × Fits L.LIMIT r) (λ e. (¬ (Fits L.LIMIT (ratio n d)))
            × (e ≡ record { op = op; left = left; right = right })) }
    {
        match Self::store(n, d) {
            Some(value) => Ok(value),
            None => Err(Wide { op, left, right }),
        }
    }

    // The sum of any two numbers.
    #[inline(never)]
    fn common_sum(self, right: Self) -> Result<Self, Wide<Self>>
        ensures { MatchResult result (λ r. (r ≡ self +ℚ right) × Fits L.LIMIT r) (λ e. (¬ (Fits L.LIMIT (self +ℚ right)))
            × (e ≡ record { op = Op.Add; left = self; right = right })) }
    {
        let (n, d) = sum_parts(self.num, self.den, right.num, right.den);
        Self::answer(Op::Add, self, right, n, d)
    }

    /// The sum; `Wide` exactly where it does not fit. Most numbers are whole, and their sums need no divisor.
    #[inline]
    pub fn plus(self, right: Self) -> Result<Self, Wide<Self>>
        ensures { MatchResult result (λ r. (r ≡ self +ℚ right) × Fits L.LIMIT r) (λ e. (¬ (Fits L.LIMIT (self +ℚ right)))
            × (e ≡ record { op = Op.Add; left = self; right = right })) }
    {
        if self.den == 1 && right.den == 1 {
            return Self::answer(
                Op::Add,
                self,
                right,
                (self.num as i128) + (right.num as i128),
                1,
            );
        }
        self.common_sum(right)
    }

    // The product of any two numbers.
    #[inline(never)]
    fn common_product(self, right: Self) -> Result<Self, Wide<Self>>
        ensures { MatchResult result (λ r. (r ≡ self *ℚ right) × Fits L.LIMIT r) (λ e. (¬ (Fits L.LIMIT (self *ℚ right)))
            × (e ≡ record { op = Op.Mul; left = self; right = right })) }
    {
        let (n, d) = product_parts(self.num, self.den, right.num, right.den);
        Self::answer(Op::Mul, self, right, n, d)
    }

    /// The product; `Wide` exactly where it does not fit. That of whole numbers needs no divisor.
    #[inline]
    pub fn times(self, right: Self) -> Result<Self, Wide<Self>>
        ensures { MatchResult result (λ r. (r ≡ self *ℚ right) × Fits L.LIMIT r) (λ e. (¬ (Fits L.LIMIT (self *ℚ right)))
            × (e ≡ record { op = Op.Mul; left = self; right = right })) }
    {
        if self.den == 1 && right.den == 1 {
            return Self::answer(Op::Mul, self, right, signed_product(self.num, right.num), 1);
        }
        self.common_product(right)
    }

    /// The sum with a product, `self + factor * other`; `Wide` exactly where the product or then the sum does not fit, with the operands of
    /// that one.
    #[inline]
    pub fn add_product(self, factor: Self, other: Self) -> Result<Self, Wide<Self>>
        ensures { Answers (λ q. q) L.LIMIT (self +ℚ factor *ℚ other) (product_sum_operations self factor other) result }
    {
        let product = factor.times(other)?;
        self.plus(product)
    }

    /// The difference; `Wide` exactly where it does not fit.
    pub fn minus(self, right: Self) -> Result<Self, Wide<Self>>
        ensures { MatchResult result (λ r. (r ≡ self -ℚ right) × Fits L.LIMIT r) (λ e. (¬ (Fits L.LIMIT (self -ℚ right)))
            × (e ≡ record { op = Op.Sub; left = self; right = right })) }
    {
        match self.plus(right.negate()) {
            Ok(difference) => Ok(difference),
            Err(_) => Err(Wide {
                op: Op::Sub,
                left: self,
                right,
            }),
        }
    }

    // 1 / self, which always fits.
    fn inverse(self) -> Self
        requires { self ≢ zero_ℚ }
        ensures { result ≡ inv_ℚ self }
    {
        Exact {
            num: with_sign(self.den, self.num),
            den: self.num.unsigned_abs(),
            of: PhantomData,
        }
    }

    /// The quotient by a number that is not zero; `Wide` exactly where it does not fit.
    pub fn over(self, right: Self) -> Result<Self, Wide<Self>>
        requires { right ≢ zero_ℚ }
        ensures { MatchResult result (λ r. (r ≡ self /ℚ right) × Fits L.LIMIT r) (λ e. (¬ (Fits L.LIMIT (self /ℚ right)))
            × (e ≡ record { op = Op.Div; left = self; right = right })) }
    {
        match self.times(right.inverse()) {
            Ok(quotient) => Ok(quotient),
            Err(_) => Err(Wide {
                op: Op::Div,
                left: self,
                right,
            }),
        }
    }

    /// The number with the other sign, which always fits.
    pub fn negate(self) -> Self
        ensures value { result ≡ neg_ℚ self }
        ensures fits { Fits L.LIMIT result }
    {
        Exact {
            num: -self.num,
            den: self.den,
            of: PhantomData,
        }
    }
}

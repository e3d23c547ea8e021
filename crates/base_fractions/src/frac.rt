// What a fraction of the large limit has beside the operations: rounding down, the middle, and its text.
use crate::digits::read_parts;
use crate::exact::{Exact, Frac};
use crate::limit::LongLimit;
use crate::text::Text;
use crate::wide::{Op, Wide};
use itoa::Buffer;

impl Exact<LongLimit> {
    ghost use Rattle.std.specs.Prelude.{ℤ, ◌≡◌, ◌≢◌, ◌⊎◌, ◌↔◌, pos, ◌≤ℤ◌, IsTrue, IfSome, MatchOption, MatchResult, Some};
    ghost use Rattle.base_numbers.specs.Rational.{ℚ, whole, floor, ◌≤ℚ◌, ◌+ℚ◌, ◌/ℚ◌};
    ghost use Rattle.base_fractions.specs.Fits.{Fits, long_limit};
    ghost use Rattle.base_fractions.specs.Texts.{frac_text};

    /// The greatest whole number that is not above the number.
    pub fn floor(self) -> i64
        ensures value { result ≡ floor self }
        ensures below { whole result ≤ℚ self }
        ensures greatest { (z : ℤ) → whole z ≤ℚ self → z ≤ℤ result }
    {
        self.num().div_euclid(self.den())
    }

    /// The number half way to `right`: the sum over 2, with the refusal of the sum or else of the quotient.
    pub fn mid(self, right: Frac) -> Result<Frac, Wide<Frac>>
        ensures { MatchResult result (λ r. (r ≡ (self +ℚ right) /ℚ whole (pos 2)) × Fits long_limit r)
            (λ e. ((¬ (Fits long_limit (self +ℚ right))) × (e ≡ record { op = Op.Add; left = self; right = right }))
            ⊎ (Fits long_limit (self +ℚ right) × (¬ (Fits long_limit ((self +ℚ right) /ℚ whole (pos 2))))
            × (e ≡ record { op = Op.Div; left = self +ℚ right; right = whole (pos 2) }))) }
    {
        let sum = self.plus(right)?;
        sum.over(Frac::two())
    }

    // The number 2.
    fn two() -> Frac
        ensures { result ≡ whole (pos 2) }
    {
        Frac::make(2, 1).unwrap()
    }

    /// The canonical text: the numerator, and where the denominator is not 1 a slash and the denominator.
    pub fn text(self) -> Text
        ensures { result ≡ frac_text self }
    {
        let mut text = Text::new();
        let mut buffer = Buffer::new();
        text.append(buffer.format(self.num()).as_bytes());
        let den = self.den() as u64;
        if den != 1 {
            text.append(b"/");
            text.append(buffer.format(den).as_bytes());
        }
        text
    }

    // Whether these bytes are the canonical text of the number.
    fn is_written(self, text: &[u8]) -> bool
        ensures { IsTrue result ↔ text.now ≡ frac_text self }
    {
        self.text().bytes() == text
    }

    // The number whose canonical text these bytes are, if they are one.
    fn guess(text: &[u8]) -> Option<Frac>
        ensures fits { IfSome result (λ r. Fits long_limit r) }
        ensures back { (q : ℚ) → Fits long_limit q → text.now ≡ frac_text q → result ≡ Some q }
    {
        match read_parts(text) {
            Some((num, den)) => Frac::make(num, den),
            None => None,
        }
    }

    /// The number whose canonical text these bytes are; `None` exactly where they are the text of no number that fits.
    pub fn read(text: &[u8]) -> Option<Frac>
        ensures read { MatchOption result ((q : ℚ) → Fits long_limit q → text.now ≢ frac_text q)
            (λ r. (text.now ≡ frac_text r) × Fits long_limit r) }
        ensures back { (q : ℚ) → Fits long_limit q → text.now ≡ frac_text q → result ≡ Some q }
    {
        match Self::guess(text) {
            Some(value) if value.is_written(text) => Some(value),
            _ => None,
        }
    }
}

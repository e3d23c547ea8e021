// Numerators and denominators of results in lowest terms, before it is known whether they fit.
// Divisors are taken out before the products, so that no product has more than 127 bits.
ghost use Rattle.std.specs.Prelude.{◌≡◌, ◌≢◌, ◌<◌, ◌≤◌, ◌^◌, ◌*◌, ◌/◌, pos, ◌*ℤ◌, unsigned_abs, T};
ghost use Prim.Native.Nat.{◌∣◌};
ghost use Rattle.base_numbers.specs.Rational.{ratio, is_reduced, signed_by, ◌+ℚ◌, ◌*ℚ◌};

use crate::divisor::{gcd, wide_gcd};

// d / g, where g divides d.
fn quotient(d: u64, g: u64) -> u64
    requires positive { 0 < g }
    requires divides { g ∣ d }
    ensures value { result * g ≡ d }
    ensures bound { result ≤ d }
{
    if g == 1 { d } else { d / g }
}

// n / g, where g divides n.
fn signed_quotient(n: i64, g: u64) -> i64
    requires positive { 0 < g }
    requires small { g < 2 ^ 63 }
    requires divides { g ∣ unsigned_abs n }
    ensures value { result *ℤ pos g ≡ n }
    ensures bound { unsigned_abs result ≤ unsigned_abs n }
{
    if g == 1 { n } else { n / (g as i64) }
}

// size / g, where g is at least 2. A size of 64 bits is divided as such, which takes a fraction of the time.
fn size_quotient(size: u128, g: u64) -> u128
    requires { 2 ≤ g }
    ensures value { result ≡ size / g }
    ensures bound { result < 2 ^ 127 }
{
    if size < 18446744073709551616 {
        ((size as u64) / g) as u128
    } else {
        size / (g as u128)
    }
}

// t / g, where g divides t.
fn wide_quotient(t: i128, g: u64) -> i128
    requires positive { 0 < g }
    requires divides { g ∣ unsigned_abs t }
    ensures value { result *ℤ pos g ≡ t }
{
    if g == 1 {
        return t;
    }
    let size = size_quotient(t.unsigned_abs(), g);
    if t < 0 { -(size as i128) } else { size as i128 }
}

// The product of an integer and a natural number.
pub fn wide_product(a: i64, b: u64) -> i128
    requires left { unsigned_abs a < 2 ^ 63 }
    requires right { b < 2 ^ 63 }
    ensures value { result ≡ a *ℤ pos b }
    ensures bound { unsigned_abs result < 2 ^ 126 }
{
    (a as i128) * (b as i64 as i128)
}

// The product of two integers.
#[inline]
pub fn signed_product(a: i64, b: i64) -> i128
    requires left { unsigned_abs a < 2 ^ 63 }
    requires right { unsigned_abs b < 2 ^ 63 }
    ensures { result ≡ a *ℤ b }
{
    (a as i128) * (b as i128)
}

// The numerator and the denominator of the sum, in lowest terms (Knuth, The Art of Computer Programming 4.5.1).
pub fn sum_parts(an: i64, ad: u64, bn: i64, bd: u64) -> (i128, u128)
    requires a_num { unsigned_abs an < 2 ^ 63 }
    requires a_den { ad < 2 ^ 63 }
    requires b_num { unsigned_abs bn < 2 ^ 63 }
    requires b_den { bd < 2 ^ 63 }
    requires a_lowest { T (is_reduced an ad) }
    requires b_lowest { T (is_reduced bn bd) }
    ensures sum { ratio result.0 result.1 ≡ ratio an ad +ℚ ratio bn bd }
    ensures lowest { T (is_reduced result.0 result.1) }
{
    let g = gcd(ad, bd);
    let a_part = quotient(ad, g);
    let b_part = quotient(bd, g);
    let t = wide_product(an, b_part) + wide_product(bn, a_part);
    let h = wide_gcd(t, g);
    let num = wide_quotient(t, h);
    (num, (a_part as u128) * (quotient(bd, h) as u128))
}

// The numerator and the denominator of the product, in lowest terms.
pub fn product_parts(an: i64, ad: u64, bn: i64, bd: u64) -> (i128, u128)
    requires a_num { unsigned_abs an < 2 ^ 63 }
    requires a_den { ad < 2 ^ 63 }
    requires b_num { unsigned_abs bn < 2 ^ 63 }
    requires b_den { bd < 2 ^ 63 }
    requires a_lowest { T (is_reduced an ad) }
    requires b_lowest { T (is_reduced bn bd) }
    ensures product { ratio result.0 result.1 ≡ ratio an ad *ℚ ratio bn bd }
    ensures lowest { T (is_reduced result.0 result.1) }
{
    if an == 0 || bn == 0 {
        return (0, 1);
    }
    let g = gcd(an.unsigned_abs(), bd);
    let h = gcd(bn.unsigned_abs(), ad);
    let num = signed_product(signed_quotient(an, g), signed_quotient(bn, h));
    (num, (quotient(ad, h) as u128) * (quotient(bd, g) as u128))
}

// n with the sign of n / by.
fn signed(n: i64, by: i64) -> i128
    ensures { result ≡ signed_by by n }
{
    if by < 0 { -(n as i128) } else { n as i128 }
}

// d with the sign of by.
pub fn with_sign(d: u64, by: i64) -> i64
    requires { d < 2 ^ 63 }
    ensures { result ≡ signed_by by (pos d) }
{
    if by < 0 { -(d as i64) } else { d as i64 }
}

// The numerator and the denominator of num / den, with the sign at the numerator, in lowest terms.
pub fn fraction_parts(num: i64, den: i64) -> (i128, u64)
    requires { den ≢ pos 0 }
    ensures value { ratio result.0 result.1 ≡ ratio (signed_by den num) (unsigned_abs den) }
    ensures lowest { T (is_reduced result.0 result.1) }
{
    let n = signed(num, den);
    let d = den.unsigned_abs();
    let g = wide_gcd(n, d);
    (wide_quotient(n, g), quotient(d, g))
}
